//! Texts that a record takes over from what an edge does, where they are the same.

ghost use Rattle.std.specs.Prelude.{◌≡◌, IfOk, IfSome};
ghost use Rattle.text.specs.Marks.{Lacks};
ghost use Rattle.log_text.specs.Answered.{IfFound};
ghost use Rattle.log_text.specs.OneOutput.{IsTextIn};

use crate::field::is_plain_text;
use crate::texts::behind_text;
use model::Act;
use std::alloc::{AllocError, Global};
use text::{SharedText, Text, behind};

/// The command of an act.
pub(crate) fn command_in(act: Option<&Act>) -> Option<&SharedText> {
    let act = act?;
    Some(&act.command)
}

/// What the response file of an act holds.
pub(crate) fn content_in(act: Option<&Act>) -> Option<&SharedText> {
    let act = act?;
    Some(&act.response_content)
}

/// This text, by the guess where that is the same.
pub(crate) fn share(
    alloc: Global,
    text: Text,
    guess: Option<&SharedText>,
) -> Result<SharedText, AllocError>
    ensures { IfOk result (λ shared. shared ≡ text) }
{
    if let Some(same) = fitting(text.as_str(), guess) {
        let shared = same.clone()?;
        return Ok(shared);
    }
    let shared = SharedText::from_text(alloc, text)?;
    Ok(shared)
}

/// The guess where it is this text.
fn fitting<'g>(text: &str, guess: Option<&'g SharedText>) -> Option<&'g SharedText>
    ensures { IfSome result (λ same. same.now ≡ text.now) }
{
    let guess = guess?;
    if guess.is(text) {
        return Some(guess);
    }
    None
}

/// The guess, and what stands behind its field and tab, where they stand in front and no byte of it is written as two. The bytes are
/// compared where they stand.
pub(crate) fn guess_in<'a>(
    bytes: &'a [u8],
    guess: Option<&SharedText>,
) -> Result<Option<(SharedText, &'a [u8])>, AllocError>
    requires { Lacks 10 bytes.now }
    ensures text { IfFound result (λ parts. IsTextIn bytes.now parts.0 parts.1.now) }
    ensures line_feed { IfFound result (λ parts. Lacks 10 parts.1.now) }
{
    let Some(guess) = guess else {
        return Ok(None);
    };
    let Some(after) = behind_plain(guess, bytes) else {
        return Ok(None);
    };
    let shared = guess.clone()?;
    Ok(Some((shared, after)))
}

/// What stands behind the field of a text and its tab, where they stand in front and no byte of the text is written as two.
fn behind_plain<'a>(text: &SharedText, bytes: &'a [u8]) -> Option<&'a [u8]>
    requires { Lacks 10 bytes.now }
    ensures text { IfSome result (λ after. IsTextIn bytes.now text.now after.now) }
    ensures line_feed { IfSome result (λ after. Lacks 10 after.now) }
{
    let (front, rest) = text.parts();
    if !is_plain_text(front) || !is_plain_text(rest) {
        return None;
    }
    let told = behind(front.as_bytes(), bytes)?;
    let after = behind_text(rest, told)?;
    Some(after)
}
