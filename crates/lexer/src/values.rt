//! Values, and the pieces of values and paths.

ghost use Rattle.std.specs.Prelude.{◌≡◌, ◌<◌, false, length, option_map, IfOk, IfErr};
ghost use Rattle.lexer.specs.Grammar.{Is};
ghost use Rattle.lexer.specs.Places.{IsBehind, Breaks, Reaches};
ghost use Rattle.lexer.specs.Said.{fragment_of, fragments_of};
ghost use Rattle.lexer.specs.Tokens.{piece, ends};
ghost use Rattle.lexer.specs.Values.{Pieces};

use crate::characters::Class;
use crate::cursor::Cursor;
use crate::escapes::escape_at;
use crate::statement::{FewPieces, Piece, Value};
use crate::stop::Stop;
use crate::tokens::ends;
use std::alloc::Global;

/// The value or path of this class that stands here, and the place behind it.
#[tactic(auto, using(crate::proofs::Places::placing))]
pub fn pieces_at<'a>(
    alloc: Global,
    cursor: Cursor<'a>,
    class: Class,
) -> Result<(Value<'a>, Cursor<'a>), Stop>
    ensures reads { IfOk result (λ found. Reaches (Pieces class) cursor.entry (fragments_of found.0) found.1) }
    ensures behind { IfOk result (λ found. IsBehind cursor.entry found.1) }
    ensures shorter { ends class cursor.entry.rest.now ≡ false → IfOk result (λ found. length found.1.rest.now < length cursor.entry.rest.now) }
    ensures fault { IfErr result (Breaks (Pieces class) cursor.entry) }
{
    let mut pieces = FewPieces::new(alloc);
    let mut at = cursor;
    'pieces: while !ends(at.rest, class) {
        let (found, after) = piece_at(at, class)?;
        if let Some(piece) = found {
            pieces.push(piece)?;
        }
        at = after;
    }
    Ok((Value { pieces }, at))
}

/// The next piece, or none where two lines are joined.
#[tactic(auto, using(crate::proofs::Places::placing))]
fn piece_at<'a>(cursor: Cursor<'a>, class: Class) -> Result<(Option<Piece<'a>>, Cursor<'a>), Stop>
    ensures reads { IfOk result (λ found. Reaches (Is (piece class)) cursor.entry (option_map fragment_of found.0) found.1) }
    ensures behind { IfOk result (λ found. IsBehind cursor.entry found.1) }
    ensures shorter { IfOk result (λ found. length found.1.rest.now < length cursor.entry.rest.now) }
    ensures fault { IfErr result (Breaks (Is (piece class)) cursor.entry) }
{
    let (text, after) = cursor.split_run(class);
    if !text.is_empty() {
        return Ok((Some(Piece::Text(text)), after));
    }
    match cursor.strip_one(b'$') {
        Some(more) => match escape_at(cursor, more) {
            Ok(found) => Ok(found),
            Err(fault) => Err(Stop::Found(fault)),
        },
        None => Err(cursor.unexpected()),
    }
}
