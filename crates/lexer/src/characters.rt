//! Characters that stand together in a build file.

ghost use Rattle.std.specs.Prelude.{◌≡◌, ◌++◌, ◌∷◌, ◌<◌, List, ℕ, option_map};
ghost use Rattle.lexer.specs.Characters.{is_name, is_of, run_of, behind_run};
ghost use Rattle.lexer.specs.Tokens.{behind, quoted};

use crate::runs::run_len;

/// Characters that go together, where they stand one behind another.
#[derive(Clone, Copy, Debug, PartialEq, Eq)]
pub enum Class {
    /// A space.
    Space,
    /// What a name is made of.
    Name,
    /// What a name behind a dollar is made of, which has no dot.
    BareName,
    /// What stands for itself in a path.
    Path,
    /// What stands for itself in a value.
    Value,
    /// What a comment is made of.
    Comment,
}

#[inline(always)]
pub fn is_of(class: Class, byte: u8) -> bool
    ensures { result ≡ is_of class byte }
{
    match class {
        Class::Space => byte == b' ',
        Class::Name => is_name(byte),
        Class::BareName => is_name(byte) && byte != b'.',
        Class::Path => !matches!(
            byte,
            b'\0' | b'\t' | b'\n' | b'\r' | b' ' | b'$' | b':' | b'|'
        ),
        Class::Value => !matches!(byte, b'\0' | b'\n' | b'\r' | b'$'),
        Class::Comment => !matches!(byte, b'\0' | b'\n' | b'\r'),
    }
}

fn is_name(byte: u8) -> bool
    ensures { result ≡ is_name byte }
{
    matches!(byte, b'a'..=b'z' | b'A'..=b'Z' | b'0'..=b'9' | b'_' | b'.' | b'-')
}

/// The longest front of the text that is of the class, and what stands behind it.
pub fn split_run(text: &str, class: Class) -> (&str, &str)
    ensures spelled { text.now ≡ result.0.now ++ result.1.now }
    ensures run { result.0.now ≡ run_of class text.now }
    ensures rest { result.1.now ≡ behind_run class text.now }
{
    text.split_at(run_len(text.as_bytes(), class))
}

/// What stands behind this ASCII character, where it stands first.
pub fn strip_one(text: &str, wanted: u8) -> Option<&str>
    requires { wanted < 128 }
    ensures { option_map (λ rest. rest.now) result ≡ behind wanted text.now }
{
    match text.as_bytes() {
        [first, ..] if *first == wanted => Some(&text[1..]),
        _ => None,
    }
}

/// A space, a colon or a dollar, where one stands first, and what stands behind it.
pub fn split_quoted(text: &str) -> Option<(&str, &str)>
    ensures { option_map (λ parts. (parts.0.now, parts.1.now)) result ≡ quoted text.now }
{
    match text.as_bytes() {
        [first, ..] if matches!(*first, b' ' | b':' | b'$') => Some(text.split_at(1)),
        _ => None,
    }
}
