//! The records of the deps log and their lines.

ghost use Rattle.std.specs.Prelude.{◌≡◌, ◌<◌, ◌^◌, ◌∷◌, [], ◌++◌, IfSome, IfNone, OnOk, OnSome, length};
ghost use Rattle.log_text.specs.declared.form.Version.TheVariants.{Two};
ghost use Rattle.text.specs.Marks.{Lacks};
ghost use Rattle.log_text.specs.Answered.{IfFound, IfMissing};
ghost use Rattle.log_text.specs.Line.{AreTexts};
ghost use Rattle.log_text.specs.Found.{texts_in};
ghost use Rattle.log_text.specs.Kept.{AreDistinct};
ghost use Rattle.log_text.specs.DepsRecordLine.{head_fields, headed, AreTold, AreNotTold, Tell, IsNoRecord, Reports};

use crate::field::Field;
use crate::form::Version;
use crate::head_number::number_in;
use crate::line::{end_line, plain_field, push_list, push_number, push_text, without_dot};
use crate::number::number_of;
use crate::outputs::{are_distinct, split_counted, split_outputs};
use std::alloc::{AllocError, Global};

/// What a record says: the outputs that it names, the start, and the paths.
pub(crate) type Said<'f, 'a> = (&'f [Field<'a>], u64, &'f [Field<'a>]);

/// What the record of these fields says, if they are one's.
pub(crate) fn said_by<'f, 'a>(
    alloc: Global,
    version: Version,
    fields: &'f [Field<'a>],
) -> Result<Option<Said<'f, 'a>>, AllocError>
    ensures found { IfFound result (λ said. Tell version fields.now said.0.now said.1 said.2.now) }
    ensures none { IfMissing result (IsNoRecord version fields.now) }
{
    let Some((kind, rest)) = fields.split_first() else {
        return Ok(None);
    };
    if kind.as_str() != "r" {
        return Ok(None);
    }
    let Some((outputs, after)) = split_outputs(version, rest) else {
        return Ok(None);
    };
    let Some((start, paths)) = told_by(after) else {
        return Ok(None);
    };
    if !are_distinct(alloc, outputs)? {
        return Ok(None);
    }
    Ok(Some((outputs, start, paths)))
}

/// The start and the paths that the fields behind the outputs tell, if they tell some.
fn told_by<'f, 'a>(fields: &'f [Field<'a>]) -> Option<(u64, &'f [Field<'a>])>
    ensures found { IfSome result (λ told. AreTold fields.now told.0 told.1.now) }
    ensures none { IfNone result (AreNotTold fields.now) }
{
    let (start, rest) = fields.split_first()?;
    let start = number_of(start.as_str())?;
    let (paths, after) = split_counted(rest)?;
    if !after.is_empty() {
        return None;
    }
    Some((start, paths))
}

/// The output, the start, and how many paths there are, in the line of a record that names one output; and what stands between
/// them and the dot. It is read where no byte of these fields is written as two, and of version 2 alone.
pub(crate) fn head_of(version: Version, line: &[u8]) -> Option<(&str, u64, u64, &[u8])>
    requires { Lacks 10 line.now }
    ensures version { OnSome result (version ≡ Two) }
    ensures head { IfSome result (λ head. line.now ≡ headed head.0.now head.1 head.2 head.3.now ++ 46 ∷ []) }
    ensures texts { IfSome result (λ head. AreTexts (head_fields head.0.now head.1 head.2)) }
    ensures start { IfSome result (λ head. head.1 < 2 ^ 64) }
    ensures count { IfSome result (λ head. head.2 < 2 ^ 64) }
    ensures line_feed { IfSome result (λ head. Lacks 10 head.3.now) }
{
    match version {
        Version::One => None,
        Version::Two => {
            let front = without_dot(line)?;
            let (output, start, count, paths) = head_in(front)?;
            Some((output, start, count, paths))
        }
    }
}

/// The same, in what stands before the dot.
fn head_in(front: &[u8]) -> Option<(&str, u64, u64, &[u8])>
    requires { Lacks 10 front.now }
    ensures head { IfSome result (λ head. front.now ≡ headed head.0.now head.1 head.2 head.3.now) }
    ensures texts { IfSome result (λ head. AreTexts (head_fields head.0.now head.1 head.2)) }
    ensures start { IfSome result (λ head. head.1 < 2 ^ 64) }
    ensures count { IfSome result (λ head. head.2 < 2 ^ 64) }
    ensures line_feed { IfSome result (λ head. Lacks 10 head.3.now) }
{
    let named = behind_kind(front)?;
    let (output, told) = plain_field(named)?;
    let (start, counted) = number_in(told)?;
    let (count, paths) = number_in(counted)?;
    Some((output, start, count, paths))
}

/// What stands behind the kind of a record and the number of its outputs, where that is 1.
fn behind_kind(front: &[u8]) -> Option<&[u8]>
    ensures { IfSome result (λ after. front.now ≡ 114 ∷ 9 ∷ 49 ∷ 9 ∷ after.now) }
{
    match front {
        [b'r', b'\t', b'1', b'\t', after @ ..] => Some(after),
        _ => None,
    }
}

/// Writes the line, with its line feed, of a record that says that the command of these outputs, which was started under
/// this stamp, read these paths, at the end of a text. Where memory is refused, a part of it may stand there.
pub fn record_line(
    text: &mut Vec<u8>,
    outputs: &[&str],
    start: u64,
    paths: &[&str],
) -> Result<(), AllocError>
    requires some { 0 < length outputs.now }
    requires once { AreDistinct (texts_in outputs.now) }
    ensures { OnOk result (Reports outputs.now start paths.now text.old.items text.new.items) }
{
    push_text(text, "r")?;
    push_list(text, outputs)?;
    push_number(text, start)?;
    push_list(text, paths)?;
    end_line(text)
}
