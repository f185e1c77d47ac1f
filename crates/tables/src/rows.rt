//! Rows and their answers.

use crate::escapes::push_escaped;
use std::alloc::{AllocError, Global};
use std::io::{self, Read, Write};

/// What answers the rows of a table, one after another.
pub trait Table {
    /// Puts the answer to a row behind an empty text. `false` says that the row has none, since it only says something for
    /// the rows behind it.
    fn answer(&mut self, alloc: Global, row: &str, answer: &mut String) -> Result<bool, AllocError>;
}

/// Reads the rows, a line each, and prints each with ` => ` and its answer behind it. Empty lines and those that begin with
/// `#` are printed alone.
pub fn run<T: Table, R: Read, W: Write>(
    alloc: Global,
    table: &mut T,
    reader: &mut R,
    writer: &mut W,
) -> io::Result<()> {
    let text = io::read_to_string(alloc, reader)?;
    let mut told = String::new(alloc);
    for row in text.as_str().lines() {
        tell(alloc, table, row, &mut told)?;
    }
    writer.write_all(told.as_bytes())?;
    writer.flush()
}

fn tell<T: Table>(
    alloc: Global,
    table: &mut T,
    row: &str,
    told: &mut String,
) -> Result<(), AllocError> {
    told.push_str(row)?;
    if !row.is_empty() && !row.starts_with('#') {
        tell_answer(alloc, table, row, told)?;
    }
    told.push('\n')
}

fn tell_answer<T: Table>(
    alloc: Global,
    table: &mut T,
    row: &str,
    told: &mut String,
) -> Result<(), AllocError> {
    let mut answer = String::new(alloc);
    if table.answer(alloc, row, &mut answer)? {
        told.push_str(" =>")?;
        push_answer(told, answer.as_str())?;
    }
    Ok(())
}

fn push_answer(told: &mut String, answer: &str) -> Result<(), AllocError> {
    if !answer.is_empty() {
        told.push(' ')?;
    }
    push_escaped(told, answer)
}

/// The first word of a row, and what stands behind the space behind it.
pub fn word(row: &str) -> (&str, &str) {
    row.split_once(' ').unwrap_or((row, ""))
}

/// Puts a word behind a text, with a space between.
pub fn push_word(text: &mut String, word: &str) -> Result<(), AllocError> {
    if !text.is_empty() {
        text.push(' ')?;
    }
    text.push_str(word)
}
