//! Characters that stand together in a depfile.

ghost use Rattle.std.specs.Prelude.{◌≡◌, ◌++◌, ◌<◌, [], false, length, option_map, IsTrue};
ghost use Rattle.depfile.specs.Pieces.{is_of, run_of, behind_run, behind};

use crate::runs::end_of;

/// Characters that go together, where they stand one behind another.
#[derive(Clone, Copy, Debug, PartialEq, Eq)]
pub enum Class {
    /// What always stands for itself in a name.
    Plain,
    /// A backslash.
    Backslash,
}

#[inline(always)]
pub fn is_of(class: Class, byte: u8) -> bool
    ensures { result ≡ is_of class byte }
{
    match class {
        Class::Plain => !matches!(byte, b'\t' | b'\n' | b'\r' | b' ' | b'$' | b':' | b'\\'),
        Class::Backslash => byte == b'\\',
    }
}

/// Whether a character of the class stands first: a look at one byte, which spares the search for the end of a run where
/// there is none.
#[inline(always)]
pub fn begins_with(text: &str, class: Class) -> bool
    ensures some { IsTrue result → 0 < length (run_of class text.now) }
    ensures none { result ≡ false → run_of class text.now ≡ [] }
{
    match text.as_bytes() {
        [first, ..] => is_of(class, *first),
        [] => false,
    }
}

/// The longest front of the text that is of the class, and what stands behind it.
#[inline(always)]
pub fn split_run(text: &str, class: Class) -> (&str, &str)
    ensures spelled { text.now ≡ result.0.now ++ result.1.now }
    ensures run { result.0.now ≡ run_of class text.now }
    ensures rest { result.1.now ≡ behind_run class text.now }
{
    text.split_at(end_of(text.as_bytes(), class))
}

/// What stands behind this ASCII character, where it stands first.
pub fn strip_one(text: &str, wanted: u8) -> Option<&str>
    requires { wanted < 128 }
    ensures { option_map (λ rest. rest.now) result ≡ behind wanted text.now }
{
    match text.as_bytes() {
        [first, ..] if *first == wanted => Some(&text[1..]),
        _ => None,
    }
}
