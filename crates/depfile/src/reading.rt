//! What a depfile says.

ghost use Rattle.std.specs.Prelude.{◌≡◌, ◌<◌, [], Ok, IfOk, IfErr, OnOk, length};
ghost use Rattle.depfile.specs.Signs.{signs};
ghost use Rattle.depfile.specs.Depfile.{IsRead, inputs};
ghost use Rattle.depfile.specs.Kept.{AddsMore, AnswersFault, SaysInputs, RefusesText};

use crate::fault::{DepFault, ReadError};
use crate::listed::Listed;
use crate::rules::{Behind, inputs_at, targets_at};
use indexmap::IndexSet;
use std::alloc::Global;
use std::borrow::CowStr;
use text::{Items, Path};

/// The inputs of all rules of a depfile, canonical, each once, in the order in which they stand first (manual:
/// "Depfile").
///
/// A depfile that is no text, or in which a rule lacks a colon, is refused ([`ReadError::Fault`]). The one other
/// error is of memory.
pub fn inputs(alloc: Global, bytes: &[u8]) -> Result<Items<Path>, ReadError>
    ensures said { IfOk result (λ paths. IsRead bytes.now (Ok paths)) }
    ensures fault { IfErr result (AnswersFault bytes.now) }
{
    let listed = borrowed_inputs(alloc, bytes)?;
    Ok(listed.into_paths(alloc)?)
}

/// The same, each path borrowed where it stands in the bytes as it is listed: memory is taken for the others, and for
/// the list. Errors are those of [`inputs`].
pub fn borrowed_inputs<'a>(alloc: Global, bytes: &'a [u8]) -> Result<Listed<'a>, ReadError>
    ensures said { IfOk result (λ paths. IsRead bytes.now (Ok paths)) }
    ensures fault { IfErr result (AnswersFault bytes.now) }
{
    let Ok(text) = str::from_utf8(bytes) else {
        return Err(ReadError::Fault(DepFault::NotUtf8));
    };
    let mut paths = IndexSet::new(alloc);
    push_inputs(alloc, text, &mut paths)?;
    Ok(Listed::from_set(paths))
}

/// Adds the inputs of all rules of a text to the paths, of which there are none yet.
fn push_inputs<'a>(
    alloc: Global,
    text: &'a str,
    paths: &mut IndexSet<CowStr<'a>>,
) -> Result<(), ReadError>
    requires { paths.old.keys ≡ [] }
    ensures said { OnOk result (SaysInputs text.now paths.new.keys) }
    ensures fault { IfErr result (RefusesText text.now) }
{
    let mut at = text;
    'rules: while !at.is_empty() {
        at = rule_at(alloc, at, paths)?;
    }
    Ok(())
}

/// Adds the inputs of the rule that stands first. Gives what stands behind it.
fn rule_at<'a>(
    alloc: Global,
    text: &'a str,
    paths: &mut IndexSet<CowStr<'a>>,
) -> Result<&'a str, ReadError>
    requires { 0 < length text.now }
    ensures adds { IfOk result (λ rest. AddsMore (inputs (signs text.entry.now)) rest.now paths.old.keys paths.new.keys) }
    ensures shorter { IfOk result (λ rest. length rest.now < length text.entry.now) }
    ensures fault { IfErr result (RefusesText text.entry.now) }
{
    match targets_at(text) {
        Ok(Behind::Inputs(rest)) => inputs_at(alloc, rest, paths),
        Ok(Behind::Rule(rest)) => Ok(rest),
        Err(fault) => Err(ReadError::Fault(fault)),
    }
}
