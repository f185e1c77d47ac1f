//! Names and values, and what stands alone in the rest of a line (manual: "Variables", "Rules", "Pools").

ghost use Rattle.std.specs.Prelude.{IfOk, IfErr};
ghost use Rattle.lexer.specs.Places.{IsBehind, Breaks, Reaches};
ghost use Rattle.lexer.specs.Said.{fragments_of};
ghost use Rattle.lexer.specs.Statements.{Bound, NameAlone, LineRest, SomePath, PathAlone};

use crate::characters::Class;
use crate::cursor::Cursor;
use crate::fault::FaultKind;
use crate::statement::Value;
use crate::stop::Stop;
use crate::values::pieces_at;
use std::alloc::Global;

/// An equals sign and a value, which goes up to the line's end, and the place of the next line.
#[tactic(auto, using(crate::proofs::Places::placing))]
pub fn bound_value_at<'a>(
    alloc: Global,
    cursor: Cursor<'a>,
) -> Result<(Value<'a>, Cursor<'a>), Stop>
    ensures reads { IfOk result (λ found. Reaches Bound cursor.entry (fragments_of found.0) found.1) }
    ensures behind { IfOk result (λ found. IsBehind cursor.entry found.1) }
    ensures fault { IfErr result (Breaks Bound cursor.entry) }
{
    let equals = cursor.skip_blanks();
    let start = equals.skip_one(b'=')?.skip_blanks();
    let (value, end) = pieces_at(alloc, start, Class::Value)?;
    let next = end.end_line()?;
    Ok((value, next))
}

/// The place of the next line, where nothing but blanks stands before the line's end.
#[tactic(auto, using(crate::proofs::Places::placing))]
fn skip_line_rest<'a>(cursor: Cursor<'a>) -> Result<Cursor<'a>, Stop>
    ensures reads { IfOk result (λ after. Reaches LineRest cursor.entry tt after) }
    ensures behind { IfOk result (IsBehind cursor.entry) }
    ensures fault { IfErr result (Breaks LineRest cursor.entry) }
{
    let end = cursor.skip_blanks();
    let next = end.end_line()?;
    Ok(next)
}

/// A name and no more, and the place of the next line.
#[tactic(auto, using(crate::proofs::Places::placing))]
pub fn name_alone_at<'a>(cursor: Cursor<'a>) -> Result<(&'a str, Cursor<'a>), Stop>
    ensures reads { IfOk result (λ found. Reaches NameAlone cursor.entry found.0.now found.1) }
    ensures behind { IfOk result (λ found. IsBehind cursor.entry found.1) }
    ensures fault { IfErr result (Breaks NameAlone cursor.entry) }
{
    let start = cursor.skip_blanks();
    let (name, after) = start.split_name()?;
    let next = skip_line_rest(after)?;
    Ok((name, next))
}

/// One path and no more, and the place of the next line.
#[tactic(auto, using(crate::proofs::Places::placing))]
pub fn path_alone_at<'a>(alloc: Global, cursor: Cursor<'a>) -> Result<(Value<'a>, Cursor<'a>), Stop>
    ensures reads { IfOk result (λ found. Reaches PathAlone cursor.entry (fragments_of found.0) found.1) }
    ensures behind { IfOk result (λ found. IsBehind cursor.entry found.1) }
    ensures fault { IfErr result (Breaks PathAlone cursor.entry) }
{
    cursor.end_word()?;
    let start = cursor.skip_blanks();
    let (path, after) = some_path_at(alloc, start)?;
    let next = skip_line_rest(after)?;
    Ok((path, next))
}

/// The path that must stand here, where the end of the line is an empty one.
#[tactic(auto, using(crate::proofs::Places::placing))]
fn some_path_at<'a>(alloc: Global, cursor: Cursor<'a>) -> Result<(Value<'a>, Cursor<'a>), Stop>
    ensures reads { IfOk result (λ found. Reaches SomePath cursor.entry (fragments_of found.0) found.1) }
    ensures behind { IfOk result (λ found. IsBehind cursor.entry found.1) }
    ensures fault { IfErr result (Breaks SomePath cursor.entry) }
{
    if cursor.begins_path() {
        return pieces_at(alloc, cursor, Class::Path);
    }
    if cursor.rest.is_empty() || cursor.strip_newline().is_some() {
        return Err(cursor.fault(FaultKind::EmptyPath));
    }
    Err(cursor.unexpected())
}
