//! The records of the build log and their lines.

ghost use Rattle.std.specs.Prelude.{◌≡◌, ◌<◌, ◌++◌, IfOk, OnOk, length};
ghost use Rattle.log_text.specs.Answered.{IfFound, IfMissing};
ghost use Rattle.log_text.specs.Kept.{AreDistinct};
ghost use Rattle.log_text.specs.Found.{texts_in};
ghost use Rattle.log_text.specs.Line.{fields_text, AreTexts};
ghost use Rattle.log_text.specs.BuildRecord.{act_fields, AreDone, AreNotDone, IsNoRecord};
ghost use Rattle.log_text.specs.BuildLog.{AreSaid, Appends, done_record};

use crate::done::Done;
use crate::field::Field;
use crate::form::Version;
use crate::line::{end_line, push_list, push_number, push_shared, push_text};
use crate::number::number_of;
use crate::outputs::{are_distinct, split_outputs};
use crate::sharing::{command_in, content_in, share};
use crate::stock::Stock;
use model::{Act, Record};
use std::alloc::{AllocError, Global};
use text::{SharedText, Text};

/// The outputs that a record names, and what it says of them.
pub(crate) type Said<'f, 'a> = (&'f [Field<'a>], Option<Done>);

/// What the record of these fields says, if they are one's. Of the act the command and the response content are taken over from the stock
/// where it has them by the first of the outputs.
pub(crate) fn said_by<'f, 'a>(
    stock: &Stock<'_>,
    version: Version,
    fields: &'f [Field<'a>],
) -> Result<Option<Said<'f, 'a>>, AllocError>
    ensures found { IfFound result (λ said. AreSaid version fields.now said.0.now said.1) }
    ensures none { IfMissing result (IsNoRecord version fields.now) }
{
    let Some((kind, rest)) = fields.split_first() else {
        return Ok(None);
    };
    let Some((outputs, after)) = split_outputs(version, rest) else {
        return Ok(None);
    };
    if !are_distinct(stock.alloc, outputs)? {
        return Ok(None);
    }
    if kind.as_str() == "b" && after.is_empty() {
        return Ok(Some((outputs, None)));
    }
    if kind.as_str() != "d" {
        return Ok(None);
    }
    match done_of(stock.alloc, after, act_by(stock, outputs))? {
        Some(done) => Ok(Some((outputs, Some(done)))),
        None => Ok(None),
    }
}

/// What makes the first of these outputs now, as far as the stock knows it.
fn act_by<'a>(stock: &Stock<'a>, outputs: &[Field<'_>]) -> Option<&'a Act> {
    let output = outputs.first()?;
    stock.act_of(output.as_str())
}

/// What the fields behind the outputs tell of a command that finished well.
fn done_of(
    alloc: Global,
    fields: &[Field<'_>],
    guess: Option<&Act>,
) -> Result<Option<Done>, AllocError>
    ensures found { IfFound result (λ done. AreDone done fields.now) }
    ensures none { IfMissing result (AreNotDone fields.now) }
{
    let Some((start, act)) = fields.split_first() else {
        return Ok(None);
    };
    let Some(start) = number_of(start.as_str()) else {
        return Ok(None);
    };
    match act_of(alloc, act, guess)? {
        Some(act) => Ok(Some(Done { start, act })),
        None => Ok(None),
    }
}

/// The act of these fields, if they are four. Each text is copied once, but for what is taken over from the guess.
fn act_of(
    alloc: Global,
    fields: &[Field<'_>],
    guess: Option<&Act>,
) -> Result<Option<Act>, AllocError>
    ensures found { IfFound result (λ act. fields.now ≡ act_fields act) }
    ensures none { IfMissing result ((act : Act) → fields.now ≡ act_fields act → ⊥) }
{
    match fields {
        [command, depfile, response_path, response_content] => Ok(Some(Act {
            command: shared_text(alloc, command, command_in(guess))?,
            depfile: Text::from_str(alloc, depfile.as_str())?,
            response_path: Text::from_str(alloc, response_path.as_str())?,
            response_content: shared_text(alloc, response_content, content_in(guess))?,
        })),
        _ => Ok(None),
    }
}

/// The text of a field, by the guess where that is the same.
fn shared_text(
    alloc: Global,
    field: &Field<'_>,
    guess: Option<&SharedText>,
) -> Result<SharedText, AllocError>
    ensures { IfOk result (λ text. text ≡ field.now) }
{
    let text = Text::from_str(alloc, field.as_str())?;
    let shared = share(alloc, text, guess)?;
    Ok(shared)
}

/// Writes the line, with its line feed, of a record that says that the command of these outputs is about to start, at
/// the end of a text. Where memory is refused, a part of it may stand there.
pub fn begun_line(text: &mut Vec<u8>, outputs: &[&str]) -> Result<(), AllocError>
    requires some { 0 < length outputs.now }
    requires once { AreDistinct (texts_in outputs.now) }
    ensures { OnOk result (Appends (Record.Begun (texts_in outputs.now)) text.old.items text.new.items) }
{
    push_text(text, "b")?;
    push_list(text, outputs)?;
    end_line(text)
}

/// Writes the line, with its line feed, of a record that says that the command of these outputs finished well, at the end
/// of a text. Where memory is refused, a part of it may stand there.
pub fn done_line(text: &mut Vec<u8>, outputs: &[&str], done: &Done) -> Result<(), AllocError>
    requires some { 0 < length outputs.now }
    requires once { AreDistinct (texts_in outputs.now) }
    ensures { OnOk result (Appends (done_record (texts_in outputs.now, done.now)) text.old.items text.new.items) }
{
    made_line(text, outputs, done.start, &done.act)
}

/// The same, for a command of this act that was started under the stamp `start`.
pub fn made_line(
    text: &mut Vec<u8>,
    outputs: &[&str],
    start: u64,
    act: &Act,
) -> Result<(), AllocError>
    requires some { 0 < length outputs.now }
    requires once { AreDistinct (texts_in outputs.now) }
    ensures { OnOk result (Appends (Record.Done (texts_in outputs.now) start act.now) text.old.items text.new.items) }
{
    push_text(text, "d")?;
    push_list(text, outputs)?;
    push_number(text, start)?;
    push_act(text, act)?;
    end_line(text)
}

/// Writes the fields of an act at the end of a line. Where memory is refused, a part of them may stand there.
fn push_act(line: &mut Vec<u8>, act: &Act) -> Result<(), AllocError>
    ensures fields { OnOk result (line.new.items ≡ line.old.items ++ fields_text (act_fields act.now)) }
    ensures utf8 { OnOk result (AreTexts (act_fields act.now)) }
{
    push_shared(line, &act.command)?;
    push_text(line, act.depfile.as_str())?;
    push_text(line, act.response_path.as_str())?;
    push_shared(line, &act.response_content)
}
