//! Paths.

ghost use Rattle.std.specs.Prelude.{◌≡◌, [], true, ◌<◌, length, IfOk, IfErr};
ghost use Rattle.lexer.specs.Places.{IsBehind, Breaks, Reaches};
ghost use Rattle.lexer.specs.Said.{fragments_of, paths_of};
ghost use Rattle.lexer.specs.Tokens.{begins_path};
ghost use Rattle.lexer.specs.Values.{Paths, PathAndBlanks};

use crate::characters::Class;
use crate::cursor::Cursor;
use crate::statement::Value;
use crate::stop::Stop;
use crate::values::pieces_at;
use std::alloc::{AllocError, Global};
use text::Items;

/// All paths that stand here, of which there may be none, and the place behind them and their blanks.
#[tactic(auto, using(crate::proofs::Places::placing))]
pub fn paths_at<'a>(
    alloc: Global,
    cursor: Cursor<'a>,
) -> Result<(Items<Value<'a>>, Cursor<'a>), Stop>
    ensures reads { IfOk result (λ found. Reaches Paths cursor.entry (paths_of found.0) found.1) }
    ensures behind { IfOk result (λ found. IsBehind cursor.entry found.1) }
    ensures fault { IfErr result (Breaks Paths cursor.entry) }
{
    let mut at = cursor.skip_blanks();
    let mut paths = room_for_paths(alloc, at.begins_path())?;
    'paths: while at.begins_path() {
        let (path, after) = path_and_blanks_at(alloc, at)?;
        paths.push(path)?;
        at = after;
    }
    Ok((paths, at))
}

/// No paths, and room for one if there are some: most lists have one path.
fn room_for_paths<'a>(alloc: Global, some: bool) -> Result<Items<Value<'a>>, AllocError>
    ensures { IfOk result (λ paths. paths ≡ []) }
{
    if some {
        return Ok(Items::from_vec(Vec::with_capacity(alloc, 1)?));
    }
    Ok(Items::new(alloc))
}

/// The path that stands here, and the place behind it and its blanks.
#[tactic(auto, using(crate::proofs::Places::placing))]
fn path_and_blanks_at<'a>(
    alloc: Global,
    cursor: Cursor<'a>,
) -> Result<(Value<'a>, Cursor<'a>), Stop>
    requires { begins_path cursor.rest.now ≡ true }
    ensures reads { IfOk result (λ found. Reaches PathAndBlanks cursor.entry (fragments_of found.0) found.1) }
    ensures behind { IfOk result (λ found. IsBehind cursor.entry found.1) }
    ensures shorter { IfOk result (λ found. length found.1.rest.now < length cursor.entry.rest.now) }
    ensures fault { IfErr result (Breaks PathAndBlanks cursor.entry) }
{
    let (path, end) = pieces_at(alloc, cursor, Class::Path)?;
    Ok((path, end.skip_blanks()))
}
