//! What stands behind a dollar (manual: "Lexical syntax").

ghost use Rattle.std.specs.Prelude.{◌≡◌, IfOk, IfErr};
ghost use Rattle.lexer.specs.Escapes.{escape_from, braced_from, bare_from, IsPiece, IsBadEscape};
ghost use Rattle.lexer.specs.Places.{IsBehind};
ghost use Rattle.lexer.specs.Tokens.{is_bad};

use crate::characters::{Class, split_quoted};
use crate::cursor::Cursor;
use crate::fault::{Fault, FaultKind};
use crate::statement::Piece;

/// The escape whose dollar stands at `whole`, with `more` behind it: its piece, or none where it joins two
/// lines, and the place behind it; or the fault at its dollar.
#[tactic(auto, using(crate::proofs::Places::placing))]
pub fn escape_at<'a>(
    whole: Cursor<'a>,
    more: Cursor<'a>,
) -> Result<(Option<Piece<'a>>, Cursor<'a>), Fault>
    ensures reads { IfOk result (λ found. IsPiece (escape_from whole.entry more.entry) found.0 found.1) }
    ensures behind { IfOk result (λ found. IsBehind more.entry found.1) }
    ensures fault { IfErr result (IsBadEscape (escape_from whole.entry more.entry) whole.entry) }
{
    if let Some(next) = more.strip_newline() {
        return Ok((None, next.skip_spaces()));
    }
    if let Some((sign, rest)) = split_quoted(more.rest) {
        let line = more.line;
        return Ok((Some(Piece::Text(sign)), Cursor { rest, line }));
    }
    if let Some(inside) = more.strip_one(b'{') {
        return braced_at(whole, inside);
    }
    bare_at(whole, more)
}

/// The name in braces, behind the first of them.
#[tactic(auto, using(crate::proofs::Places::placing))]
fn braced_at<'a>(
    whole: Cursor<'a>,
    inside: Cursor<'a>,
) -> Result<(Option<Piece<'a>>, Cursor<'a>), Fault>
    ensures reads { IfOk result (λ found. IsPiece (braced_from whole.entry inside.entry) found.0 found.1) }
    ensures behind { IfOk result (λ found. IsBehind inside.entry found.1) }
    ensures fault { IfErr result (IsBadEscape (braced_from whole.entry inside.entry) whole.entry) }
{
    let (name, end) = inside.split_run(Class::Name);
    let fault = bad_escape(whole);
    if name.is_empty() {
        return Err(fault);
    }
    match end.strip_one(b'}') {
        Some(after) => Ok((Some(Piece::Name(name)), after)),
        None => Err(fault),
    }
}

/// The name without braces.
#[tactic(auto, using(crate::proofs::Places::placing))]
fn bare_at<'a>(
    whole: Cursor<'a>,
    more: Cursor<'a>,
) -> Result<(Option<Piece<'a>>, Cursor<'a>), Fault>
    ensures reads { IfOk result (λ found. IsPiece (bare_from whole.entry more.entry) found.0 found.1) }
    ensures behind { IfOk result (λ found. IsBehind more.entry found.1) }
    ensures fault { IfErr result (IsBadEscape (bare_from whole.entry more.entry) whole.entry) }
{
    let (name, after) = more.split_run(Class::BareName);
    if name.is_empty() {
        return Err(bad_escape(whole));
    }
    Ok((Some(Piece::Name(name)), after))
}

/// The fault at the dollar.
fn bad_escape(whole: Cursor<'_>) -> Fault
    ensures { result ≡ record { line = whole.entry.line; kind = FaultKind.Escape } }
{
    Fault {
        line: whole.line,
        kind: FaultKind::Escape,
    }
}

/// Whether a dollar stands here with what may not stand behind it.
pub fn is_bad_escape(cursor: Cursor<'_>) -> bool
    ensures { result ≡ is_bad cursor.entry.rest.now }
{
    match cursor.strip_one(b'$') {
        Some(more) => escape_at(cursor, more).is_err(),
        None => false,
    }
}
