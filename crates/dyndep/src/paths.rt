//! Paths of a statement.

ghost use Rattle.std.specs.Prelude.{◌≡◌, [], IfOk, IfErr};
ghost use Rattle.lexer.specs.Said.{fragments_of, paths_of};
ghost use Rattle.dyndep.specs.Dyndep.{IsPath, ArePaths, text_of};
ghost use Rattle.dyndep.specs.Refused.{RefusedWhere, NoPaths};

use crate::fault::{DynFault, ReadError};
use crate::values::{only_text, text_of};
use lexer::{ReadFault, Value, canonical};
use std::alloc::Global;
use text::{Items, Path};

/// The canonical path that a value names. An empty one does not fit. Most values have one piece, whose characters are not copied twice.
pub fn path_of(alloc: Global, value: &Value<'_>) -> Result<Path, ReadError>
    ensures path { IfOk result (IsPath (text_of (fragments_of value.now))) }
    ensures fault { IfErr result (RefusedWhere (text_of (fragments_of value.now) ≡ [])) }
{
    match only_text(value) {
        Some(text) => canonical_path(alloc, text),
        None => joined_path(alloc, value),
    }
}

/// The same, of any pieces, whose text is put together first.
fn joined_path(alloc: Global, value: &Value<'_>) -> Result<Path, ReadError>
    ensures path { IfOk result (IsPath (text_of (fragments_of value.now))) }
    ensures fault { IfErr result (RefusedWhere (text_of (fragments_of value.now) ≡ [])) }
{
    let text = text_of(alloc, value)?;
    canonical_path(alloc, text.as_str())
}

/// The canonical path of a text. An empty one does not fit.
fn canonical_path(alloc: Global, text: &str) -> Result<Path, ReadError>
    ensures path { IfOk result (IsPath text.now) }
    ensures fault { IfErr result (RefusedWhere (text.now ≡ [])) }
{
    match canonical(alloc, text) {
        Ok(path) => Ok(Path::from_string(path)),
        Err(ReadFault::Memory) => Err(ReadError::Memory),
        Err(ReadFault::EmptyPath) => Err(ReadError::Fault(DynFault::BadStatement)),
    }
}

/// The canonical paths that values name. An empty one does not fit.
pub fn paths_of(alloc: Global, values: &[Value<'_>]) -> Result<Items<Path>, ReadError>
    ensures paths { IfOk result (λ paths. ArePaths (paths_of values.now) paths) }
    ensures fault { IfErr result (RefusedWhere (NoPaths (paths_of values.now))) }
{
    let mut paths = Items::from_vec(Vec::with_capacity(alloc, values.len())?);
    for value in values {
        paths.push(path_of(alloc, value)?)?;
    }
    Ok(paths)
}
