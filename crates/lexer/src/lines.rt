//! The lines of a text.

ghost use Rattle.std.specs.Prelude.{ℕ, List, ◌≡◌, ◌<◌, ◌≤◌, false, [], length, map, option_map, Option, None, Some, IfOk, IfErr, OnOk};
ghost use Rattle.lexer.specs.Places.{IsBehind, Breaks, Reaches};
ghost use Rattle.lexer.specs.Said.{Said, form_of, said_of};
ghost use Rattle.lexer.specs.Lines.{IsRead, AreLines, OfLine, Content, begins_with_space, says_nothing, opens, Nothing, StopsReading};

use crate::characters::Class;
use crate::cursor::{Cursor, LIMIT};
use crate::fault::{Fault, FaultKind};
use crate::forms::{block_binding_at, statement_at};
use crate::statement::{Line, Statement, Statements};
use crate::stop::Stop;
use std::alloc::{AllocError, Global};
use text::Items;

/// About so many bytes a line has at least that says something.
const LINE: usize = 32;

/// For more lines than these, room is made as they come.
const MOST_LINES: usize = 64;

/// The statements of a build file up to its first fault, and that fault (manual: "Lexical syntax").
///
/// A text past the limit has the fault `TooLarge` in line 1, and no statements. The one error is a
/// growth of memory that was refused.
pub fn statements(alloc: Global, text: &str) -> Result<Statements<'_>, AllocError>
    ensures { IfOk result (λ found. IsRead text.now (map said_of found.lines) found.fault) }
{
    let mut lines = Items::from_vec(Vec::with_capacity(alloc, usual_lines(text.len()))?);
    if text.len() > LIMIT {
        let fault = Some(Fault {
            line: 1,
            kind: FaultKind::TooLarge,
        });
        return Ok(Statements { lines, fault });
    }
    match push_lines(alloc, text, &mut lines) {
        Ok(()) => Ok(Statements { lines, fault: None }),
        Err(stop) => {
            let fault = stop.into_fault()?;
            Ok(Statements {
                lines,
                fault: Some(fault),
            })
        }
    }
}

/// For how many lines room is made at once: as many as stand in a short text, and a few for a long one.
fn usual_lines(bytes: usize) -> usize {
    (bytes / LINE).min(MOST_LINES)
}

/// A law, which runs nothing: a text says one thing, and has at most one first fault. So a text with a
/// fault cannot be read whole, and the fault that is answered is the first one.
pub fn one_reading()
    ensures { (text : List ℕ) (a b : List Said) (f g : Option Fault) → IsRead text a f → IsRead text b g → (a ≡ b) × (f ≡ g) }
{}

/// Adds what the lines of a text say, up to the first that has a fault.
fn push_lines<'a>(alloc: Global, text: &'a str, lines: &mut Items<Line<'a>>) -> Result<(), Stop>
    requires fits { length text.now ≤ LIMIT }
    requires none { lines.old ≡ [] }
    ensures whole { OnOk result (AreLines text.now (map said_of lines.new) None) }
    ensures fault { IfErr result (StopsReading text.now (map said_of lines.new)) }
{
    let mut at = Cursor::start(text);
    let mut inside = false;
    'lines: while !at.rest.is_empty() {
        let (found, after) = line_at(alloc, at, inside)?;
        if let Some(statement) = found {
            inside = opens_block(&statement);
            let number = at.line;
            lines.push(Line { number, statement })?;
        }
        at = after;
    }
    Ok(())
}

/// Whether lines of a block may stand behind it.
fn opens_block(statement: &Statement<'_>) -> bool
    ensures { result ≡ opens (form_of statement.now) }
{
    matches!(
        statement,
        Statement::Rule { .. }
            | Statement::Build(_)
            | Statement::Pool { .. }
            | Statement::BlockBinding { .. }
    )
}

/// What the line says that begins here, if anything, and the place of the next line.
#[tactic(auto, using(crate::proofs::Places::placing))]
fn line_at<'a>(
    alloc: Global,
    cursor: Cursor<'a>,
    inside: bool,
) -> Result<(Option<Statement<'a>>, Cursor<'a>), Stop>
    requires { 0 < length cursor.rest.now }
    ensures reads { IfOk result (λ found. Reaches (OfLine inside) cursor.entry (option_map form_of found.0) found.1) }
    ensures behind { IfOk result (λ found. IsBehind cursor.entry found.1) }
    ensures shorter { IfOk result (λ found. length found.1.rest.now < length cursor.entry.rest.now) }
    ensures fault { IfErr result (Breaks (OfLine inside) cursor.entry) }
{
    let start = cursor.skip_blanks();
    let indented = begins_with_space(cursor.rest);
    let (said, next) = content_at(alloc, start, inside, indented)?;
    Ok((said, next))
}

/// Whether a space stands here.
fn begins_with_space(rest: &str) -> bool
    ensures { result ≡ begins_with_space rest.now }
{
    matches!(rest.as_bytes().first(), Some(b' '))
}

/// Whether a line that goes on so, behind its blanks, is blank or a comment.
fn says_nothing(rest: &str) -> bool
    ensures { result ≡ says_nothing rest.now }
{
    matches!(rest.as_bytes().first(), None | Some(b'\n' | b'\r' | b'#'))
}

/// What a line says behind its blanks, if anything, and the place of the next line.
#[tactic(auto, using(crate::proofs::Places::placing))]
fn content_at<'a>(
    alloc: Global,
    start: Cursor<'a>,
    inside: bool,
    indented: bool,
) -> Result<(Option<Statement<'a>>, Cursor<'a>), Stop>
    ensures reads { IfOk result (λ found. Reaches (Content inside indented) start.entry (option_map form_of found.0) found.1) }
    ensures behind { IfOk result (λ found. IsBehind start.entry found.1) }
    ensures shorter { IfOk result (λ found. 0 < length start.entry.rest.now → length found.1.rest.now < length start.entry.rest.now) }
    ensures fault { IfErr result (Breaks (Content inside indented) start.entry) }
{
    if says_nothing(start.rest) {
        let next = skip_comment(start)?;
        return Ok((None, next));
    }
    if !indented {
        let (statement, next) = statement_at(alloc, start)?;
        return Ok((Some(statement), next));
    }
    if !inside {
        return Err(start.fault(FaultKind::Unexpected));
    }
    let (statement, next) = block_binding_at(alloc, start)?;
    Ok((Some(statement), next))
}

/// The place behind a comment, of which there may be none, and the end of its line.
#[tactic(auto, using(crate::proofs::Places::placing))]
fn skip_comment<'a>(start: Cursor<'a>) -> Result<Cursor<'a>, Stop>
    ensures reads { IfOk result (λ after. Reaches Nothing start.entry None after) }
    ensures behind { IfOk result (IsBehind start.entry) }
    ensures shorter { IfOk result (λ after. 0 < length start.entry.rest.now → length after.rest.now < length start.entry.rest.now) }
    ensures fault { IfErr result (Breaks Nothing start.entry) }
{
    let (_, end) = start.split_run(Class::Comment);
    let next = end.end_line()?;
    Ok(next)
}
