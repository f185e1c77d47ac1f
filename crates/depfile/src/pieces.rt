//! The pieces of a word.

ghost use Rattle.std.specs.Prelude.{◌≡◌, ◌≢◌, ◌++◌, ◌<◌, ◌≤◌, [], take, length, IfSome, IfNone, OnOk, string_bytes};
ghost use Rattle.depfile.specs.Signs.{spelled};
ghost use Rattle.depfile.specs.Pieces.{IsPiece, IsEscape, AllBackslashes, NoWord, run_of, behind, separator_of, is_itself, is_colon, signs_of};

use crate::characters::{Class, begins_with, split_run, strip_one};
use crate::separators::{is_word_end, strip_newline};
use std::alloc::AllocError;

/// A piece of a word.
#[derive(Clone, Copy, Debug)]
pub enum Piece<'a> {
    /// Characters that stand for themselves.
    Plain(&'a str),
    /// What an escape stands for: backslashes, and a character behind them.
    Escaped {
        backslashes: &'a str,
        sign: &'static str,
    },
    /// A colon that is not escaped.
    Colon,
}

/// The piece of a word that stands first, and what stands behind it. None where no word stands.
pub fn piece_at(text: &str) -> Option<(Piece<'_>, &str)>
    ensures piece { IfSome result (λ found. IsPiece text.now found.0 found.1.now) }
    ensures none { IfNone result (NoWord text.now) }
{
    if begins_with(text, Class::Plain) {
        let (plain, after) = split_run(text, Class::Plain);
        return Some((Piece::Plain(plain), after));
    }
    if is_word_end(text) {
        return None;
    }
    let (run, after) = split_run(text, Class::Backslash);
    if !run.is_empty() {
        return Some(escape_at(text, run, after));
    }
    Some(lone_at(text))
}

/// The piece that begins with this run of backslashes.
fn escape_at<'a>(text: &'a str, run: &'a str, after: &'a str) -> (Piece<'a>, &'a str)
    requires spelled { text.now ≡ run.now ++ after.now }
    requires some { 0 < length run.now }
    requires run { AllBackslashes run.now }
    requires ends { behind 92 after.now ≡ None }
    requires apart { separator_of text.now ≡ None }
    ensures { IsPiece text.entry.now result.0 result.1.now }
{
    let count = run.len();
    if let Some(rest) = strip_one(after, b' ') {
        if count % 2 == 0 {
            return (Piece::Plain(run), after);
        }
        return (escaped(run, count / 2, " "), rest);
    }
    if strip_newline(after).is_some() {
        let (kept, rest) = text.split_at(count - 1);
        return (Piece::Plain(kept), rest);
    }
    if let Some(rest) = strip_one(after, b'#') {
        return (escaped(run, count - 1, "#"), rest);
    }
    if let Some(rest) = strip_one(after, b':') {
        return (escaped(run, count - 1, ":"), rest);
    }
    (Piece::Plain(run), after)
}

/// An escape that stands for the first of these backslashes and a character.
fn escaped<'a>(run: &'a str, kept: usize, sign: &'static str) -> Piece<'a>
    requires fits { kept ≤ length run.now }
    requires run { AllBackslashes run.now }
    ensures { IsEscape result (take kept run.now) sign.now }
{
    Piece::Escaped {
        backslashes: &run[..kept],
        sign,
    }
}

/// The piece that begins with a character that stands alone: a colon, a dollar, or a CR without LF.
fn lone_at(text: &str) -> (Piece<'_>, &str)
    requires some { text.now ≢ [] }
    requires plain { run_of Class.Plain text.now ≡ [] }
    requires backslash { run_of Class.Backslash text.now ≡ [] }
    requires apart { separator_of text.now ≡ None }
    ensures { IsPiece text.now result.0 result.1.now }
{
    if let Some(rest) = strip_one(text, b':') {
        return (Piece::Colon, rest);
    }
    if let Some(rest) = strip_one(text, b'$') {
        return match strip_one(rest, b'$') {
            Some(behind) => (
                Piece::Escaped {
                    backslashes: "",
                    sign: "$",
                },
                behind,
            ),
            None => (Piece::Plain("$"), rest),
        };
    }
    match strip_one(text, b'\r') {
        Some(rest) => (Piece::Plain("\r"), rest),
        None => unreachable!(),
    }
}

impl Piece<'_> {
    /// Whether it is written as it is spelled.
    pub fn is_itself(&self) -> bool
        ensures { result ≡ is_itself self.now }
    {
        !matches!(self, Piece::Escaped { .. })
    }

    /// Whether it is a colon that is not escaped.
    pub fn is_colon(&self) -> bool
        ensures { result ≡ is_colon self.now }
    {
        matches!(self, Piece::Colon)
    }

    /// Puts what it spells at the end of a text.
    pub fn push_onto(&self, text: &mut String) -> Result<(), AllocError>
        ensures { OnOk result (string_bytes text.new ≡ string_bytes text.old ++ spelled (signs_of self.now)) }
    {
        match self {
            Piece::Plain(characters) => text.push_str(characters),
            Piece::Escaped { backslashes, sign } => {
                text.push_str(backslashes)?;
                text.push_str(sign)
            }
            Piece::Colon => text.push(':'),
        }
    }
}
