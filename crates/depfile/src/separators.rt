//! What stands between words.

ghost use Rattle.std.specs.Prelude.{◌≡◌, ◌≢◌, [], None, false, option_map, IfSome, IsTrue};
ghost use Rattle.depfile.specs.Pieces.{IsSeparated, NoWord, newline_of, separator_of, sign_of};

use crate::characters::strip_one;

/// What stands between two words.
#[derive(Clone, Copy, Debug, PartialEq, Eq)]
pub enum Separator {
    /// A blank, or a backslash and a line's end, which join two lines.
    Blank,
    /// A line's end, which ends the rule.
    Newline,
}

/// What stands behind LF or CR LF, where one of them stands first.
pub fn strip_newline(text: &str) -> Option<&str>
    ensures { option_map (λ rest. rest.now) result ≡ newline_of text.now }
{
    if let Some(rest) = strip_one(text, b'\n') {
        return Some(rest);
    }
    let rest = strip_one(text, b'\r')?;
    strip_one(rest, b'\n')
}

/// The separator that stands first, and what stands behind it.
pub fn separator_at(text: &str) -> Option<(Separator, &str)>
    ensures value { option_map (λ found. (sign_of found.0, found.1.now)) result ≡ separator_of text.now }
    ensures begins { IfSome result (λ found. IsSeparated text.now (sign_of found.0) found.1.now) }
{
    if let Some(rest) = strip_one(text, b' ') {
        return Some((Separator::Blank, rest));
    }
    if let Some(rest) = strip_one(text, b'\t') {
        return Some((Separator::Blank, rest));
    }
    if let Some(rest) = strip_newline(text) {
        return Some((Separator::Newline, rest));
    }
    let joined = strip_newline(strip_one(text, b'\\')?)?;
    Some((Separator::Blank, joined))
}

/// Whether no word goes on here: the text ends, or a separator stands first.
#[inline(always)]
pub fn is_word_end(text: &str) -> bool
    ensures ends { IsTrue result → NoWord text.now }
    ensures goes_on { result ≡ false → (text.now ≢ []) × (separator_of text.now ≡ None) }
{
    text.is_empty() || separator_at(text).is_some()
}
