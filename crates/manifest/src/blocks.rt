//! Statements and the lines of their blocks.

ghost use Rattle.std.specs.Prelude.{◌≡◌, map};
ghost use Rattle.lexer.specs.Said.{said_of, form_of};
ghost use Rattle.manifest.specs.Blocks.{IsBlockLineOf, IsSplit, lines_in_front};

use crate::place::Place;
use lexer::{Fault, Line, Statement, Value};

/// A statement with its block.
#[derive(Clone, Copy)]
pub struct Group<'file, 'lines, 'text> {
    pub place: Place<'file>,
    pub statement: &'lines Statement<'text>,
    pub block: &'lines [Line<'text>],
    /// The fault at which the text stops, where nothing else stands between.
    pub behind: Option<Fault>,
}

/// A binding in the block of a statement.
#[derive(Clone, Copy)]
pub struct BlockLine<'a> {
    pub line: usize,
    pub name: &'a str,
    pub value: &'a Value<'a>,
}

/// The binding that a line of a block says.
pub fn block_line<'a>(line: &'a Line<'a>) -> Option<BlockLine<'a>>
    ensures { IsBlockLineOf line.now.number (form_of line.now.statement) result }
{
    match &line.statement {
        Statement::BlockBinding { name, value } => Some(BlockLine {
            line: line.number,
            name,
            value,
        }),
        _ => None,
    }
}

/// The lines of a block in front, and the statements behind them.
pub fn split_block<'lines, 'text>(
    lines: &'lines [Line<'text>],
) -> (&'lines [Line<'text>], &'lines [Line<'text>])
    ensures { IsSplit (map said_of lines.now) (map said_of result.0.now) (map said_of result.1.now) }
{
    let count = block_length(lines);
    lines.split_at(count)
}

/// How many lines in front belong to a block.
fn block_length(lines: &[Line<'_>]) -> usize
    ensures { result ≡ lines_in_front (map said_of lines.now) }
{
    for (count, line) in lines.iter().enumerate() {
        if block_line(line).is_none() {
            return count;
        }
    }
    lines.len()
}
