//! Lists of texts among the fields of a record, and the outputs that it names.

ghost use Rattle.std.specs.Prelude.{◌≡◌, ◌<◌, ◌++◌, IfSome, IfNone, IsTrue, IsFalse, length};
ghost use Rattle.model.specs.Graph.{has};
ghost use Rattle.log_text.specs.declared.form.Version.TheVariants.{Two};
ghost use Rattle.log_text.specs.Answered.{IfYes, IfNo};
ghost use Rattle.log_text.specs.Line.{HaveListFirst, HaveNoListFirst};
ghost use Rattle.log_text.specs.BuildRecord.{HaveOutputsFirst, HaveNoOutputsFirst};
ghost use Rattle.log_text.specs.Kept.{AreDistinct};

use crate::field::Field;
use crate::form::Version;
use crate::number::number_of;
use indexmap::IndexSet;
use std::alloc::{AllocError, Global};

/// Up to so many outputs are compared one with another: an index over them, in memory of its own, is dearer for few.
const FEW: usize = 8;

/// The outputs that these fields begin with, and the fields behind them.
pub fn split_outputs<'f, 'a>(
    version: Version,
    fields: &'f [Field<'a>],
) -> Option<(&'f [Field<'a>], &'f [Field<'a>])>
    ensures found { IfSome result (λ parts. HaveOutputsFirst version parts.0.now fields.now parts.1.now) }
    ensures none { IfNone result (HaveNoOutputsFirst version fields.now) }
{
    match version {
        Version::One => split_front(fields, 1),
        Version::Two => split_some(fields),
    }
}

/// The outputs that these fields begin with behind their number, which is not 0, and the fields behind them.
fn split_some<'f, 'a>(fields: &'f [Field<'a>]) -> Option<(&'f [Field<'a>], &'f [Field<'a>])>
    ensures found { IfSome result (λ parts. HaveOutputsFirst Two parts.0.now fields.now parts.1.now) }
    ensures none { IfNone result (HaveNoOutputsFirst Two fields.now) }
{
    let (outputs, after) = split_counted(fields)?;
    if outputs.is_empty() {
        return None;
    }
    Some((outputs, after))
}

/// As many fields as the first of them says, and the fields behind them.
pub fn split_counted<'f, 'a>(fields: &'f [Field<'a>]) -> Option<(&'f [Field<'a>], &'f [Field<'a>])>
    ensures found { IfSome result (λ parts. HaveListFirst parts.0.now fields.now parts.1.now) }
    ensures none { IfNone result (HaveNoListFirst fields.now) }
{
    let (first, rest) = fields.split_first()?;
    let count = number_of(first.as_str())?;
    split_front(rest, count as usize)
}

/// As many fields from the front, and those behind them.
fn split_front<'f, 'a>(
    fields: &'f [Field<'a>],
    count: usize,
) -> Option<(&'f [Field<'a>], &'f [Field<'a>])>
    ensures found { IfSome result (λ parts. (fields.now ≡ parts.0.now ++ parts.1.now) × (length parts.0.now ≡ count)) }
    ensures none { IfNone result (length fields.now < count) }
{
    if fields.len() < count {
        return None;
    }
    Some(fields.split_at(count))
}

/// Whether no output stands twice among these. A few take no memory.
pub fn are_distinct(alloc: Global, outputs: &[Field<'_>]) -> Result<bool, AllocError>
    ensures distinct { IfYes result (AreDistinct outputs.now) }
    ensures twice { IfNo result (AreDistinct outputs.now → ⊥) }
{
    if outputs.len() <= FEW {
        return Ok(few_are_distinct(outputs));
    }
    let mut seen = IndexSet::new(alloc);
    for output in outputs {
        if !seen.insert(output.as_str())? {
            return Ok(false);
        }
    }
    Ok(true)
}

/// The same, where each is compared with those in front of it: it takes a time of the order of the square of how many there are.
fn few_are_distinct(outputs: &[Field<'_>]) -> bool
    ensures distinct { IsTrue result → AreDistinct outputs.now }
    ensures twice { IsFalse result → AreDistinct outputs.now → ⊥ }
{
    for (place, output) in outputs.iter().enumerate() {
        if is_among(&outputs[..place], output.as_str()) {
            return false;
        }
    }
    true
}

/// Whether the output is one of these.
fn is_among(outputs: &[Field<'_>], output: &str) -> bool
    ensures { result ≡ has outputs.now output.now }
{
    for other in outputs {
        if other.as_str() == output {
            return true;
        }
    }
    false
}
