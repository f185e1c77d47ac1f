//! Records of one output, read from the front of their line: no list of its fields is made.

ghost use Rattle.std.specs.Prelude.{◌≡◌, ◌∷◌, [], ◌++◌, OnSome, IfSome};
ghost use Rattle.log_text.specs.declared.form.Version.TheVariants.{Two};
ghost use Rattle.text.specs.Marks.{Lacks};
ghost use Rattle.log_text.specs.Answered.{IfFound, IfYes, IfNo};
ghost use Rattle.log_text.specs.BuildLog.{Keeps};
ghost use Rattle.log_text.specs.BuildRecord.{forms};
ghost use Rattle.log_text.specs.Keeping.{KeepsSame, PutsLine};
ghost use Rattle.log_text.specs.OneOutput.{StaysTable, IsHead, IsSaidBehind, IsDoneIn, IsActIn, IsTextIn};

use crate::done::Done;
use crate::field::field_of;
use crate::form::Version;
use crate::head_number::{behind_tab, number_in};
use crate::kept::Kept;
use crate::line::{plain_field, without_dot};
use crate::sharing::{command_in, content_in, guess_in, share};
use crate::stock::Stock;
use model::Act;
use std::alloc::{AllocError, Global};
use text::{SharedText, Text, cut};

/// The numbers of the last outputs of the last begun record and of the last done one. Outputs often come in an order in which they came
/// before, so each is guessed by the one in front of it.
#[derive(Clone, Copy, Debug)]
pub struct Last {
    pub begun: u32,
    pub done: u32,
}

impl Last {
    /// Where there was no record.
    pub(crate) fn new() -> Last {
        Last {
            begun: u32::MAX,
            done: u32::MAX,
        }
    }

    /// That of the last record of this kind.
    #[inline(always)]
    pub(crate) fn of(&self, kind: u8) -> u32 {
        if kind == b'b' { self.begun } else { self.done }
    }

    /// Notes that of a record of this kind.
    #[inline(always)]
    pub(crate) fn set(&mut self, kind: u8, number: u32) {
        if kind == b'b' {
            self.begun = number;
        } else {
            self.done = number;
        }
    }
}

/// Puts the record of a line, which is handed in without its line feed, at the end where it names one output, and says whether it
/// did. Where it did not, or memory is refused, what is kept stands for some records, and where it did not, for the same as before.
/// Of its act the command and the response content are taken over from the stock where it has them by the output.
pub(crate) fn put_short(
    kept: &mut Kept<Done>,
    last: &mut Last,
    stock: &Stock<'_>,
    version: Version,
    line: &[u8],
) -> Result<bool, AllocError>
    requires { Lacks 10 line.now }
    ensures put { IfYes result (PutsLine (forms version) Keeps line.now kept.old kept.new) }
    ensures none { IfNo result (KeepsSame Keeps kept.old kept.new) }
    ensures table { StaysTable kept.old kept.new }
{
    let Some((kind, named)) = head_of(version, line) else {
        return Ok(false);
    };
    let Some((number, told)) = kept.take_behind(stock.alloc, last.of(kind) as usize, named)? else {
        return Ok(false);
    };
    let guess = act_at(stock, kept, kind, number);
    let Some(said) = said_behind(stock.alloc, kind, told, guess)? else {
        return Ok(false);
    };
    kept.put_one(stock.alloc, number, said)?;
    last.set(kind, number);
    Ok(true)
}

/// What makes the output with this number now, as far as the stock knows it. It is asked for a done record alone.
pub(crate) fn act_at<'a>(
    stock: &Stock<'a>,
    kept: &Kept<Done>,
    kind: u8,
    number: u32,
) -> Option<&'a Act> {
    if kind != b'd' {
        return None;
    }
    let output = kept.text(number)?;
    stock.act_of(output)
}

/// The kind of a record that names one output, and what stands behind the number of its outputs and before the dot. It is told
/// of version 2 alone.
fn head_of(version: Version, line: &[u8]) -> Option<(u8, &[u8])>
    requires { Lacks 10 line.now }
    ensures version { OnSome result (version ≡ Two) }
    ensures head { IfSome result (λ head. IsHead head.0 head.1.now line.now) }
    ensures line_feed { IfSome result (λ head. Lacks 10 head.1.now) }
{
    match version {
        Version::One => None,
        Version::Two => {
            let front = without_dot(line)?;
            let (kind, named) = head_in(front)?;
            Some((kind, named))
        }
    }
}

/// The same, in what stands before the dot.
fn head_in(front: &[u8]) -> Option<(u8, &[u8])>
    requires { Lacks 10 front.now }
    ensures head { IfSome result (λ head. front.now ≡ head.0 ∷ 9 ∷ 49 ∷ 9 ∷ head.1.now) }
    ensures line_feed { IfSome result (λ head. Lacks 10 head.1.now) }
{
    let (kind, named) = behind_kind(front)?;
    Some((kind, named))
}

/// The kind of a record, and what stands behind the number of its outputs, where that is 1.
fn behind_kind(front: &[u8]) -> Option<(u8, &[u8])>
    ensures { IfSome result (λ head. front.now ≡ head.0 ∷ 9 ∷ 49 ∷ 9 ∷ head.1.now) }
{
    match front {
        [kind, b'\t', b'1', b'\t', after @ ..] => Some((*kind, after)),
        _ => None,
    }
}

/// What a record of this kind says of its output, where this stands behind the output.
pub(crate) fn said_behind(
    alloc: Global,
    kind: u8,
    told: &[u8],
    guess: Option<&Act>,
) -> Result<Option<Option<Done>>, AllocError>
    requires { Lacks 10 told.now }
    ensures { IfFound result (IsSaidBehind kind told.now) }
{
    if kind == b'd' {
        let Some(done) = done_in(alloc, told, guess)? else {
            return Ok(None);
        };
        return Ok(Some(Some(done)));
    }
    if kind == b'b' && told.is_empty() {
        return Ok(Some(None));
    }
    Ok(None)
}

/// What the fields of a start and an act tell, and nothing behind them.
fn done_in(alloc: Global, told: &[u8], guess: Option<&Act>) -> Result<Option<Done>, AllocError>
    requires { Lacks 10 told.now }
    ensures { IfFound result (IsDoneIn told.now) }
{
    let Some((start, fields)) = number_in(told) else {
        return Ok(None);
    };
    let Some(act) = act_in(alloc, fields, guess)? else {
        return Ok(None);
    };
    Ok(Some(Done { start, act }))
}

/// The act whose fields these are, and nothing behind them. Each text is copied once, but for what is taken over from the guess.
fn act_in(alloc: Global, bytes: &[u8], guess: Option<&Act>) -> Result<Option<Act>, AllocError>
    requires { Lacks 10 bytes.now }
    ensures { IfFound result (IsActIn bytes.now) }
{
    let Some((command, rest)) = shared_in(alloc, bytes, command_in(guess))? else {
        return Ok(None);
    };
    let Some((depfile, rest)) = text_in(alloc, rest)? else {
        return Ok(None);
    };
    let Some((response_path, rest)) = text_in(alloc, rest)? else {
        return Ok(None);
    };
    let Some((response_content, rest)) = shared_in(alloc, rest, content_in(guess))? else {
        return Ok(None);
    };
    if !rest.is_empty() {
        return Ok(None);
    }
    Ok(Some(Act {
        command,
        depfile,
        response_path,
        response_content,
    }))
}

/// The text whose field stands in front, by the guess where that is the same, and what stands behind its tab.
fn shared_in<'a>(
    alloc: Global,
    bytes: &'a [u8],
    guess: Option<&SharedText>,
) -> Result<Option<(SharedText, &'a [u8])>, AllocError>
    requires { Lacks 10 bytes.now }
    ensures text { IfFound result (λ parts. IsTextIn bytes.now parts.0 parts.1.now) }
    ensures line_feed { IfFound result (λ parts. Lacks 10 parts.1.now) }
{
    // as nearly all are
    if let Some((text, after)) = guess_in(bytes, guess)? {
        return Ok(Some((text, after)));
    }
    let Some((text, after)) = text_in(alloc, bytes)? else {
        return Ok(None);
    };
    let shared = share(alloc, text, guess)?;
    Ok(Some((shared, after)))
}

/// A copy of the text whose field stands in front, and what stands behind its tab.
fn text_in(alloc: Global, bytes: &[u8]) -> Result<Option<(Text, &[u8])>, AllocError>
    requires { Lacks 10 bytes.now }
    ensures text { IfFound result (λ parts. IsTextIn bytes.now parts.0 parts.1.now) }
    ensures line_feed { IfFound result (λ parts. Lacks 10 parts.1.now) }
{
    // as three in four are
    if let Some(after) = behind_tab(bytes) {
        return Ok(Some((Text::new(alloc), after)));
    }
    if let Some((text, after)) = plain_field(bytes) {
        return Ok(Some((Text::from_str(alloc, text)?, after)));
    }
    let found = escaped_in(alloc, bytes)?;
    Ok(found)
}

/// The same, where a byte of it may be written as two.
fn escaped_in(alloc: Global, bytes: &[u8]) -> Result<Option<(Text, &[u8])>, AllocError>
    requires { Lacks 10 bytes.now }
    ensures text { IfFound result (λ parts. IsTextIn bytes.now parts.0 parts.1.now) }
    ensures line_feed { IfFound result (λ parts. Lacks 10 parts.1.now) }
{
    let Some((field, after)) = cut(bytes, b'\t') else {
        return Ok(None);
    };
    let Some(text) = field_of(alloc, field, false)? else {
        return Ok(None);
    };
    Ok(Some((Text::from_str(alloc, text.as_str())?, after)))
}
