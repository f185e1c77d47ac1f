//! What stays of texts.

ghost use Rattle.std.specs.Prelude.{◌≡◌, ◌≢◌, ◌<◌, ◌++◌, ℕ, false, length, slice_index, IfOk, IfSome, IsTrue};
ghost use Rattle.terminal.specs.Texts.{IsColoured, IsLine, failed, failed_red};

use std::alloc::{AllocError, Global};

/// A line that is longer stays.
const LONGEST: usize = 1500;

/// How a line begins that tells of a failure.
const FAILED: &[u8] = b"FAILED:";

/// The same in red, behind which colours are as at the beginning.
const FAILED_RED: &[u8] = b"\x1b[31mFAILED:\x1b[0m";

/// The line of a text that may pass: there is no other line in it, nothing that moves the cursor but what escapes do, and it is not very
/// long. So it is that of a command which printed nothing and did not fail, or which is about to get the terminal.
pub fn passing(text: &[u8]) -> Option<&[u8]>
    ensures { IfSome result (λ line. IsLine text.now line.now) }
{
    let (last, line) = text.split_last()?;
    if *last != b'\n' || line.len() > LONGEST || !stays_in_its_row(line) {
        return None;
    }
    Some(line)
}

/// Whether a line has no control characters but tabs and those by which escapes begin.
fn stays_in_its_row(line: &[u8]) -> bool
    ensures { IsTrue result → (k : ℕ) → k < length line.now → slice_index line.now k ≢ 10 }
{
    line.iter().all(|byte| !moves(*byte))
}

/// Whether a byte moves the cursor by itself, but to the right.
fn moves(byte: u8) -> bool
    ensures { result ≡ false → byte ≢ 10 }
{
    byte < 32 && byte != b'\t' && byte != 27
}

/// A text in which the word that tells of a failure is red, where it begins the first line or the second one.
pub fn coloured(alloc: Global, text: &[u8]) -> Result<Vec<u8>, AllocError>
    ensures { IfOk result (λ coloured. IsColoured text.now coloured.items) }
{
    match split_at_failure(text) {
        Some((front, rest)) => {
            let coloured = red(alloc, front, rest)?;
            Ok(coloured)
        }
        None => {
            let same = Vec::from_slice(alloc, text)?;
            Ok(same)
        }
    }
}

/// What stands before and behind the word that tells of a failure, with that word in red between.
fn red(alloc: Global, front: &[u8], rest: &[u8]) -> Result<Vec<u8>, AllocError>
    ensures { IfOk result (λ text. text.items ≡ front.now ++ failed_red ++ rest.now) }
{
    let mut text = Vec::from_slice(alloc, front)?;
    text.extend_from_slice(FAILED_RED)?;
    text.extend_from_slice(rest)?;
    Ok(text)
}

/// What stands before and behind the word that tells of a failure, where it begins the first line or the second one.
fn split_at_failure(text: &[u8]) -> Option<(&[u8], &[u8])>
    ensures { IfSome result (λ parts. text.now ≡ parts.0.now ++ failed ++ parts.1.now) }
{
    if let Some(rest) = rest_after(FAILED, text) {
        let (front, _) = text.split_at(0);
        return Some((front, rest));
    }
    let end = text.iter().position(|byte| *byte == b'\n')?;
    let (front, second) = text.split_at_checked(end.checked_add(1)?)?;
    let rest = rest_after(FAILED, second)?;
    Some((front, rest))
}

/// What comes after these bytes, where they stand in front.
fn rest_after<'a>(start: &[u8], bytes: &'a [u8]) -> Option<&'a [u8]>
    ensures { IfSome result (λ rest. bytes.now ≡ start.now ++ rest.now) }
{
    bytes.strip_prefix(start)
}
