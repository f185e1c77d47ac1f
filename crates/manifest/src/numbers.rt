//! Numbers in values (manual: "Pools", "Top-level variables").

ghost use Rattle.std.specs.Prelude.{◌≡◌, MatchOption};
ghost use Rattle.manifest.specs.Numbers.{depth_in, is_newer, number_behind, leading_digits, IsNumber};

/// The largest depth of a pool.
const LARGEST_DEPTH: u64 = 2_147_483_647;

/// The depth that the text spells in decimal, if it spells one.
pub fn depth_in(text: &str) -> Option<u32>
    ensures { result ≡ depth_in text.now }
{
    if text.is_empty() || !text.bytes().all(|byte| byte.is_ascii_digit()) {
        return None;
    }
    let depth = leading_number(text);
    if depth > LARGEST_DEPTH {
        return None;
    }
    u32::try_from(depth).ok()
}

/// Whether a version is above 1.12, by its first two numbers.
pub fn is_newer(version: &str) -> bool
    ensures { result ≡ is_newer version.now }
{
    let mut parts = version.split('.');
    let major = number_of(parts.next());
    let minor = number_of(parts.next());
    major > 1 || major == 1 && minor > 12
}

/// The number that a part of a version begins with; 0 where there is no part.
fn number_of(part: Option<&str>) -> u64
    ensures { MatchOption part.entry (result ≡ 0) (λ part. IsNumber result (number_behind 0 (leading_digits part.now))) }
{
    match part {
        Some(part) => leading_number(part),
        None => 0,
    }
}

/// The number that a text begins with, or the largest one where it is larger; 0 where it begins with none.
fn leading_number(text: &str) -> u64
    ensures { IsNumber result (number_behind 0 (leading_digits text.now)) }
{
    let mut number: u64 = 0;
    for byte in text.as_bytes() {
        if !byte.is_ascii_digit() {
            return number;
        }
        number = number
            .saturating_mul(10)
            .saturating_add(u64::from(*byte - b'0'));
    }
    number
}
