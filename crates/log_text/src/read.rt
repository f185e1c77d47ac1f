//! Reading the text of a log.

ghost use Rattle.std.specs.Prelude.{◌≡◌, IfOk, IfSome, IfNone};
ghost use Rattle.text.specs.Marks.{Lacks};
ghost use Rattle.log_text.specs.Answered.{IfYes, IfNo};
ghost use Rattle.log_text.specs.Form.{IsNoLineOf, AreNoLinesOf};
ghost use Rattle.log_text.specs.Keeping.{IsParsed, PutsLine, PutsLines};

use crate::field::Field;
use crate::form::{Records, Version};
use crate::line::{room_for_fields, take_fields};
use crate::pieces::Pieces;
use crate::stock::Stock;
use crate::tail::Tail;
use std::alloc::{AllocError, Global};
use text::{Takes, cut};

/// What is kept of the text of a log, and how the text ends. A damaged one tells nothing.
///
/// Each byte is looked at a few times. Beside that texts are looked up, by a hash whose seed is fixed: texts that somebody made so
/// that their hashes fall together take longer.
pub fn parse<L: Records>(alloc: Global, bytes: &[u8]) -> Result<(L, Tail), AllocError>
    ensures { IfOk result (λ read. IsParsed L.forms L.Keeps bytes.now read.0 read.1) }
{
    parse_from::<L>(&Stock::new(alloc), bytes)
}

/// The same, with what may be taken over from a stock of texts, which changes nothing of what is kept.
pub fn parse_from<L: Records>(stock: &Stock<'_>, bytes: &[u8]) -> Result<(L, Tail), AllocError>
    ensures { IfOk result (λ read. IsParsed L.forms L.Keeps bytes.now read.0 read.1) }
{
    let mut pieces = Pieces::<L>::new(*stock);
    pieces.take(bytes)?;
    Ok(pieces.finish())
}

/// The version that a first line tells.
pub(crate) fn version_of<L: Records>(first: &[u8]) -> Option<Version>
    ensures found { IfSome result (λ version. first.now ≡ (L.forms version).first) }
    ensures none { IfNone result ((version : Version) → first.now ≡ (L.forms version).first → ⊥) }
{
    if first == L::first_line(Version::Two) {
        Some(Version::Two)
    } else if first == L::first_line(Version::One) {
        Some(Version::One)
    } else {
        None
    }
}

/// Puts the records of these lines at the end, if each is a record's, and says whether they are.
pub(crate) fn put_lines<L: Records>(
    stock: &Stock<'_>,
    version: Version,
    lines: &[u8],
    log: &mut L,
) -> Result<bool, AllocError>
    ensures put { IfYes result (PutsLines (L.forms version) L.Keeps lines.now log.old log.new) }
    ensures none { IfNo result (AreNoLinesOf (L.forms version) lines.now) }
{
    L::are_readable();
    let mut fields = room_for_fields(stock.alloc)?;
    let mut rest = lines;
    'lines: while let Some((line, after)) = cut(rest, b'\n') {
        if !put_line(stock, version, line, &mut fields, log)? {
            return Ok(false);
        }
        rest = after;
    }
    Ok(rest.is_empty())
}

/// Puts the record of a line, which is handed in without its line feed, at the end, if it is one's. What the list of
/// fields holds before and after is nothing that counts: it lends its room.
fn put_line<'a, L: Records>(
    stock: &Stock<'_>,
    version: Version,
    line: &'a [u8],
    fields: &mut Vec<Field<'a>>,
    log: &mut L,
) -> Result<bool, AllocError>
    requires { Lacks 10 line.now }
    ensures put { IfYes result (PutsLine (L.forms version) L.Keeps line.now log.old log.new) }
    ensures none { IfNo result (IsNoLineOf (L.forms version) line.now) }
{
    if log.put_plain(stock, version, line)? {
        return Ok(true);
    }
    if !take_fields(stock.alloc, line, fields)? {
        return Ok(false);
    }
    log.put_fields(stock, version, fields.as_slice())
}
