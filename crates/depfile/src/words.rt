//! The words of a depfile and where rules end.

ghost use Rattle.std.specs.Prelude.{◌≡◌, true, false, IfOk, IfSome, IfNone, string_bytes};
ghost use Rattle.depfile.specs.Signs.{signs, spelled};
ghost use Rattle.depfile.specs.Signs.Sign.{blank};
ghost use Rattle.depfile.specs.Pieces.{NoWord, separator_of};
ghost use Rattle.depfile.specs.Words.{IsWord, IsToken, IsBehindBlanks, WordSoFar, front_word, is_at_blank};

use crate::characters::{Class, split_run, strip_one};
use crate::pieces::piece_at;
use crate::separators::{Separator, is_word_end, separator_at};
use std::alloc::{AllocError, Global};

/// A word as it stands.
#[derive(Clone, Copy, Debug)]
pub struct Word<'a> {
    /// The word, with its escapes.
    pub written: &'a str,
    /// The text from the word on.
    pub from: &'a str,
    /// It has no escape that is written otherwise than it is spelled.
    pub is_plain: bool,
    /// Its last character is a colon that is not escaped.
    pub ends_with_colon: bool,
}

/// What a text is made of, between its blanks.
#[derive(Clone, Copy, Debug)]
pub enum Token<'a> {
    Name(Word<'a>),
    /// The end of a rule.
    RuleEnd,
}

/// The word that stands first, and what stands behind it. None where no word stands. Most are one run of plain characters.
#[inline(always)]
pub fn word_at(text: &str) -> Option<(Word<'_>, &str)>
    ensures word { IfSome result (λ found. IsWord text.now found.0 found.1.now) }
    ensures none { IfNone result (NoWord text.now) }
{
    let (run, after) = split_run(text, Class::Plain);
    if run.is_empty() {
        return word_of_pieces(text);
    }
    if is_word_end(after) {
        return Some((plain_word(text, run, false), after));
    }
    Some(word_behind_run(text, after))
}

/// The word that begins with a run of plain characters and goes on behind it, at this place.
fn word_behind_run<'a>(text: &'a str, after: &'a str) -> (Word<'a>, &'a str)
    requires { WordSoFar text.now after.now true false }
    ensures { IsWord text.now result.0 result.1.now }
{
    match target_at(text, after) {
        Some(found) => found,
        None => word_going_on(text, after, true, false),
    }
}

/// The same, where a colon stands there and ends the word, as it does in most targets. None where it goes on in another
/// way.
fn target_at<'a>(text: &'a str, after: &'a str) -> Option<(Word<'a>, &'a str)>
    requires { WordSoFar text.now after.now true false }
    ensures { IfSome result (λ found. IsWord text.now found.0 found.1.now) }
{
    let behind = strip_one(after, b':')?;
    if !is_word_end(behind) {
        return None;
    }
    let (written, _) = text.split_at(text.len() - behind.len());
    Some((plain_word(text, written, true), behind))
}

/// A word that is written as it is spelled.
#[inline(always)]
fn plain_word<'a>(from: &'a str, written: &'a str, ends_with_colon: bool) -> Word<'a>
    ensures from { result.from.now ≡ from.now }
    ensures written { result.written.now ≡ written.now }
    ensures is_plain { result.is_plain ≡ true }
    ensures ends { result.ends_with_colon ≡ ends_with_colon }
{
    Word {
        written,
        from,
        is_plain: true,
        ends_with_colon,
    }
}

/// The word that stands first, piece by piece, and what stands behind it. None where no word stands.
fn word_of_pieces(text: &str) -> Option<(Word<'_>, &str)>
    ensures word { IfSome result (λ found. IsWord text.now found.0 found.1.now) }
    ensures none { IfNone result (NoWord text.now) }
{
    let (first, after) = piece_at(text)?;
    let found = word_going_on(text, after, first.is_itself(), first.is_colon());
    Some(found)
}

/// The word that begins the text and may go on at this place, piece by piece, and what stands behind it. How it began is
/// told as a [`Word`] tells it.
fn word_going_on<'a>(
    text: &'a str,
    after: &'a str,
    began_plain: bool,
    began_with_colon: bool,
) -> (Word<'a>, &'a str)
    requires { WordSoFar text.now after.now began_plain began_with_colon }
    ensures { IsWord text.now result.0 result.1.now }
{
    let mut at = after;
    let mut is_plain = began_plain;
    let mut ends_with_colon = began_with_colon;
    'pieces: while let Some((piece, rest)) = piece_at(at) {
        is_plain = is_plain && piece.is_itself();
        ends_with_colon = piece.is_colon();
        at = rest;
    }
    let (written, _) = text.split_at(text.len() - at.len());
    let word = Word {
        written,
        from: text,
        is_plain,
        ends_with_colon,
    };
    (word, at)
}

/// What the word spells that stands first in the text.
pub fn spelling(alloc: Global, text: &str) -> Result<String, AllocError>
    ensures { IfOk result (λ word. string_bytes word ≡ spelled (front_word (signs text.now))) }
{
    let mut word = String::new(alloc);
    let mut at = text;
    'pieces: while let Some((piece, rest)) = piece_at(at) {
        piece.push_onto(&mut word)?;
        at = rest;
    }
    Ok(word)
}

/// What stands behind the blanks, of which there may be none.
fn skip_blanks(text: &str) -> &str
    ensures blanks { IsBehindBlanks text.now result.now }
    ensures all { is_at_blank (separator_of result.now) ≡ false }
{
    let mut at = text;
    'blanks: while let Some((Separator::Blank, rest)) = separator_at(at) {
        at = rest;
    }
    at
}

/// The word or the end of a rule that stands first, and what stands behind it. The end of the text ends a
/// rule.
#[inline(always)]
pub fn token_at(text: &str) -> (Token<'_>, &str)
    ensures { IsToken text.now result.0 result.1.now }
{
    let start = skip_blanks(text);
    if let Some((word, rest)) = word_at(start) {
        return (Token::Name(word), rest);
    }
    match separator_at(start) {
        Some((_, rest)) => (Token::RuleEnd, rest),
        None => (Token::RuleEnd, start),
    }
}
