//! Numbers in the head of a record, read digit by digit: neither is their tab searched for, nor are they held as texts.

ghost use Rattle.std.specs.Prelude.{◌≡◌, ◌<◌, ◌^◌, ◌+◌, ◌∷◌, [], ◌++◌, IfSome, decimal};
ghost use Rattle.std.specs.Str.{IsUtf8};
ghost use Rattle.text.specs.Marks.{Lacks};
ghost use Rattle.log_text.specs.Line.{field_and_tab};

/// The number whose field stands in front, and what stands behind its tab.
pub(crate) fn number_in(bytes: &[u8]) -> Option<(u64, &[u8])>
    requires { Lacks 10 bytes.now }
    ensures number { IfSome result (λ parts. bytes.now ≡ field_and_tab (decimal parts.0) ++ parts.1.now) }
    ensures utf8 { IfSome result (λ parts. IsUtf8 (decimal parts.0)) }
    ensures low { IfSome result (λ parts. parts.0 < 2 ^ 64) }
    ensures line_feed { IfSome result (λ parts. Lacks 10 parts.1.now) }
{
    let (number, rest) = decimal_in(bytes)?;
    let after = behind_tab(rest)?;
    Some((number, after))
}

/// The number whose digits stand in front, and what stands behind the last of them.
fn decimal_in(bytes: &[u8]) -> Option<(u64, &[u8])>
    ensures digits { IfSome result (λ parts. bytes.now ≡ decimal parts.0 ++ parts.1.now) }
    ensures low { IfSome result (λ parts. parts.0 < 2 ^ 64) }
{
    let (first, after) = digit_in(bytes)?;
    if first == 0 {
        return Some((0, after));
    }
    let mut number = first;
    let mut rest = after;
    'digits: while let Some((digit, after)) = digit_in(rest) {
        number = with_digit(number, digit)?;
        rest = after;
    }
    Some((number, rest))
}

/// The number whose last digit is this one and whose others are those of a number that is not 0, if it is below 2 to the 64.
fn with_digit(number: u64, digit: u64) -> Option<u64>
    requires some { 0 < number }
    requires low { digit < 10 }
    ensures digits { IfSome result (λ more. decimal more ≡ decimal number ++ (48 + digit) ∷ []) }
    ensures some { IfSome result (λ more. 0 < more) }
    ensures low { IfSome result (λ more. more < 2 ^ 64) }
{
    let tens = number.checked_mul(10)?;
    let more = tens.checked_add(digit)?;
    Some(more)
}

/// The digit in front, and what stands behind it.
fn digit_in(bytes: &[u8]) -> Option<(u64, &[u8])>
    ensures digit { IfSome result (λ parts. bytes.now ≡ (48 + parts.0) ∷ parts.1.now) }
    ensures low { IfSome result (λ parts. parts.0 < 10) }
{
    let (first, after) = bytes.split_first()?;
    if *first < b'0' || b'9' < *first {
        return None;
    }
    Some((u64::from(*first - b'0'), after))
}

/// What stands behind a tab in front.
#[inline(always)]
pub(crate) fn behind_tab(bytes: &[u8]) -> Option<&[u8]>
    ensures { IfSome result (λ after. bytes.now ≡ 9 ∷ after.now) }
{
    match bytes {
        [b'\t', after @ ..] => Some(after),
        _ => None,
    }
}
