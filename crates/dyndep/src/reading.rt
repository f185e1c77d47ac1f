//! What a dyndep file says.

ghost use Rattle.std.specs.Prelude.{◌≡◌, Ok, Option, Some, None, ℕ, List, IfOk, IfErr};
ghost use Rattle.dyndep.specs.Dyndep.{IsRead, Adds};
ghost use Rattle.dyndep.specs.Refused.{AnswersFault, RefusesForms, forms_in};

use crate::addition::Addition;
use crate::fault::{DynFault, ReadError};
use crate::statements::additions_of;
use crate::values::is_version;
use lexer::{Fault, Line, Statements, statements};
use std::alloc::Global;
use text::Items;

/// What a dyndep file adds to edges, statement by statement (manual: "Dyndep Files Reference").
///
/// The bytes of the file are read as a build file is, but that names stand for nothing. Refused are a first statement
/// that is no known version ([`DynFault::BadVersion`]), and everything else that does not fit, also bytes that are no
/// text and a text past the limit of build files ([`DynFault::BadStatement`]). The one other error is of memory.
pub fn parse(alloc: Global, bytes: &[u8]) -> Result<Items<Addition>, ReadError>
    ensures said { IfOk result (λ additions. IsRead bytes.now (Ok additions)) }
    ensures fault { IfErr result (AnswersFault bytes.now) }
{
    let Ok(text) = str::from_utf8(bytes) else {
        return Err(ReadError::Fault(DynFault::BadStatement));
    };
    let Statements { lines, fault } = statements(alloc, text)?;
    additions_behind(alloc, lines.as_slice(), fault)
}

/// What the statements behind the version add.
fn additions_behind(
    alloc: Global,
    lines: &[Line<'_>],
    fault: Option<Fault>,
) -> Result<Items<Addition>, ReadError>
    ensures said { IfOk result (λ additions. (fault ≡ None) × Adds (forms_in lines.now) additions) }
    ensures fault { IfErr result (RefusesForms (forms_in lines.now) fault) }
{
    let Some((first, rest)) = lines.split_first() else {
        return Err(ReadError::Fault(match fault {
            Some(_) => DynFault::BadStatement,
            None => DynFault::BadVersion,
        }));
    };
    if !is_version(alloc, &first.statement)? {
        return Err(ReadError::Fault(DynFault::BadVersion));
    }
    let additions = additions_of(alloc, rest)?;
    match fault {
        Some(_) => Err(ReadError::Fault(DynFault::BadStatement)),
        None => Ok(additions),
    }
}
