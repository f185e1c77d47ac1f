//! The rows of the table.

use crate::small::Small;
use crate::steps::{Steps, written};
use std::alloc::{AllocError, Global};
use tables::{Table, word};

/// The rows of the table, each of which stands alone.
#[derive(Drop)]
pub struct Rows;

impl Table for Rows {
    fn answer(
        &mut self,
        alloc: Global,
        row: &str,
        answer: &mut String,
    ) -> Result<bool, AllocError> {
        let (kind, rest) = word(row);
        match kind {
            "live" => push_live(alloc, rest, answer)?,
            "screen" => push_screen(alloc, rest, answer)?,
            _ => answer.push_str("no such row")?,
        }
        Ok(true)
    }
}

/// `live`.
fn push_live(alloc: Global, row: &str, answer: &mut String) -> Result<(), AllocError> {
    let mut steps = Steps::new(alloc)?;
    let mut is_first = true;
    for step in row.split('|') {
        let bytes = written(alloc, &mut steps, step)?;
        if !bytes.is_empty() {
            if !is_first {
                answer.push('~')?;
            }
            is_first = false;
            push_bytes(alloc, bytes.as_slice(), answer)?;
        }
    }
    Ok(())
}

/// Puts bytes behind a text, with `^[` for ESC.
fn push_bytes(alloc: Global, bytes: &[u8], answer: &mut String) -> Result<(), AllocError> {
    let text = String::from_utf8_lossy(alloc, bytes)?;
    for character in text.as_str().chars() {
        if character == '\u{1b}' {
            answer.push_str("^[")?;
        } else {
            answer.push(character)?;
        }
    }
    Ok(())
}

/// `screen`.
fn push_screen(alloc: Global, row: &str, answer: &mut String) -> Result<(), AllocError> {
    let (width, rest) = word(row);
    let mut steps = Steps::new(alloc)?;
    let mut small = Small::new(alloc, width.parse::<usize>().unwrap_or(80))?;
    for step in rest.split('|') {
        let bytes = written(alloc, &mut steps, step)?;
        small.take(bytes.as_slice())?;
    }
    small.tell(answer)
}
