//! Scripts, and what they print.
//!
//! A row `new` begins a script. `file PATH TEXT` puts a file behind it with the lines of this text, and `rules TEXT` the file `build.ninja`
//! with `RULES` and this text. `bytes LINE` and `last LINE` put a line with escapes, and one that no line feed ends. `each COUNT LINES`
//! puts so many times these lines, in which `%` stands for their number from 0, and `&` for the next one. The rows that `push_asked`
//! names ask of the script as far as it has come. Every other row is a line of the script as it is.

use crate::answers::number;
use crate::script_asked::{
    push_last_lines, push_log_lines, push_same, push_told, push_unreadable, push_unwritable,
};
use crate::script_sweeps::{push_beginnings, push_changed, push_made_up};
use std::alloc::{AllocError, Global};
use tables::{unescaped, word};

/// Rules, of which a build file need not use any.
const RULES: &[u8] = b"rule cat
  command = cat $out $in
rule keep
  command = keep $out $in
  restat = 1
rule fail
  command = fail $out $in
rule scan
  command = scan $out $out.d $in
  depfile = $out.d
  deps = gcc
rule args
  command = args $out
  rspfile = $out.rsp
  rspfile_content = $in $flags
";

/// A script, as far as it has come.
#[derive(Drop)]
pub struct Scripts {
    text: Vec<u8>,
}

impl Scripts {
    pub fn new(alloc: Global) -> Scripts {
        Scripts {
            text: Vec::new(alloc),
        }
    }

    pub fn answer(
        &mut self,
        alloc: Global,
        row: &str,
        told: &mut String,
    ) -> Result<bool, AllocError> {
        let (first, rest) = word(row);
        if first == "new" {
            self.text.clear();
            return Ok(false);
        }
        if push_asked(alloc, &self.text, first, rest, told)? {
            return Ok(true);
        }
        push_put(alloc, &mut self.text, row)?;
        Ok(false)
    }
}

/// Whether the row asks, which is answered then.
fn push_asked(
    alloc: Global,
    text: &[u8],
    first: &str,
    rest: &str,
    told: &mut String,
) -> Result<bool, AllocError> {
    match first {
        "told" => push_told(alloc, text, told)?,
        "told_each" => push_told_each(alloc, text, rest, told)?,
        "last_lines" => push_last_lines(alloc, text, number(rest), told)?,
        "log_lines" => push_log_lines(alloc, text, told)?,
        "unreadable" => push_unreadable(alloc, text, told)?,
        "room" => push_unwritable(alloc, text, told)?,
        "beginnings" => push_beginnings(alloc, text, told)?,
        "other_bytes" => push_changed(alloc, text, told)?,
        "made_up" => push_made_up(alloc, rest, told)?,
        _ => return Ok(false),
    }
    Ok(true)
}

/// `told_each COUNT LINES`, as `each` has them.
fn push_told_each(
    alloc: Global,
    text: &[u8],
    row: &str,
    told: &mut String,
) -> Result<(), AllocError> {
    let mut wanted = Vec::new(alloc);
    push_each(alloc, &mut wanted, row)?;
    push_same(alloc, text, wanted.as_slice(), told)
}

/// Puts what a row stands for behind the script.
fn push_put(alloc: Global, text: &mut Vec<u8>, row: &str) -> Result<(), AllocError> {
    let (first, rest) = word(row);
    match first {
        "file" => push_file(alloc, text, rest),
        "rules" => push_rules(alloc, text, rest),
        "each" => push_each(alloc, text, rest),
        "last" => text.extend_from_slice(&unescaped(alloc, rest)?),
        "bytes" => push_line(text, &unescaped(alloc, rest)?),
        _ => push_line(text, row.as_bytes()),
    }
}

fn push_line(text: &mut Vec<u8>, line: &[u8]) -> Result<(), AllocError> {
    text.extend_from_slice(line)?;
    text.extend_from_slice(b"\n")
}

fn push_file(alloc: Global, text: &mut Vec<u8>, row: &str) -> Result<(), AllocError> {
    let (path, content) = word(row);
    text.extend_from_slice(b"file ")?;
    push_line(text, path.as_bytes())?;
    push_content(text, &unescaped(alloc, content)?)
}

fn push_rules(alloc: Global, text: &mut Vec<u8>, content: &str) -> Result<(), AllocError> {
    push_line(text, b"file build.ninja")?;
    push_content(text, RULES)?;
    push_content(text, &unescaped(alloc, content)?)
}

/// Puts lines of a file behind the script, as it has them.
fn push_content(text: &mut Vec<u8>, content: &[u8]) -> Result<(), AllocError> {
    let mut begins = true;
    for byte in content {
        if begins {
            text.push(b'|')?;
        }
        text.push(*byte)?;
        begins = *byte == b'\n';
    }
    Ok(())
}

fn push_each(alloc: Global, text: &mut Vec<u8>, row: &str) -> Result<(), AllocError> {
    let (count, lines) = word(row);
    let lines = unescaped(alloc, lines)?;
    for place in 0..number(count) {
        push_numbered(alloc, text, &lines, place)?;
    }
    Ok(())
}

fn push_numbered(
    alloc: Global,
    text: &mut Vec<u8>,
    lines: &[u8],
    place: usize,
) -> Result<(), AllocError> {
    let number = format!(in alloc; "{place}")?;
    let next = format!(in alloc; "{}", place.saturating_add(1))?;
    for byte in lines {
        match *byte {
            b'%' => text.extend_from_slice(number.as_bytes())?,
            b'&' => text.extend_from_slice(next.as_bytes())?,
            other => text.push(other)?,
        }
    }
    Ok(())
}
