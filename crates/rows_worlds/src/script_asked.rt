//! What is asked of scripts.

use scripts::{ScriptFault, script};
use std::alloc::{AllocError, Global};
use std::io::{self, ErrorKind, Read};

/// `told`: the status of the script, and what it prints.
pub fn push_told(alloc: Global, text: &[u8], told: &mut String) -> Result<(), AllocError> {
    let mut printed = Vec::new(alloc);
    let mut reader = text;
    let answer = script(alloc, &mut reader, &mut printed);
    push_answer(alloc, &answer, told)?;
    push_printed(alloc, printed.as_slice(), told)
}

fn push_answer(
    alloc: Global,
    answer: &Result<u8, ScriptFault>,
    told: &mut String,
) -> Result<(), AllocError> {
    let answer = match answer {
        Ok(status) => format!(in alloc; "{status}")?,
        Err(fault) => format!(in alloc; "{fault}")?,
    };
    told.push_str(answer.as_str())
}

/// The text, or the bytes of what is none.
fn push_printed(alloc: Global, printed: &[u8], told: &mut String) -> Result<(), AllocError> {
    if printed.is_empty() {
        return Ok(());
    }
    told.push(' ')?;
    match str::from_utf8(printed) {
        Ok(text) => told.push_str(text),
        Err(_) => push_bytes(alloc, printed, told),
    }
}

fn push_bytes(alloc: Global, bytes: &[u8], told: &mut String) -> Result<(), AllocError> {
    told.push_str("bytes")?;
    for byte in bytes {
        let number = format!(in alloc; " {byte}")?;
        told.push_str(number.as_str())?;
    }
    Ok(())
}

/// `told_each COUNT LINE`: whether the script ends well, and prints just these lines.
pub fn push_same(
    alloc: Global,
    text: &[u8],
    wanted: &[u8],
    told: &mut String,
) -> Result<(), AllocError> {
    let mut printed = Vec::new(alloc);
    let mut reader = text;
    let answer = script(alloc, &mut reader, &mut printed);
    let is_same = matches!(answer, Ok(0)) && printed.as_slice() == wanted;
    told.push_str(if is_same { "just this" } else { "other lines" })
}

/// `last_lines COUNT`: the status of the script, and the last so many of the lines that it prints.
pub fn push_last_lines(
    alloc: Global,
    text: &[u8],
    count: usize,
    told: &mut String,
) -> Result<(), AllocError> {
    let mut printed = Vec::new(alloc);
    let mut reader = text;
    let answer = script(alloc, &mut reader, &mut printed);
    push_answer(alloc, &answer, told)?;
    push_printed(alloc, last_lines(&printed, count), told)
}

/// The last so many lines of a text, each of which ends.
fn last_lines(text: &[u8], count: usize) -> &[u8] {
    let mut wanted = count;
    for place in (0..text.len().saturating_sub(1)).rev() {
        if text.get(place) == Some(&b'\n') {
            wanted = wanted.saturating_sub(1);
            if wanted == 0 {
                return text.get(place.saturating_add(1)..).unwrap_or(text);
            }
        }
    }
    text
}

/// `log_lines`: how many line feeds the log has behind the script.
pub fn push_log_lines(alloc: Global, text: &[u8], told: &mut String) -> Result<(), AllocError> {
    let mut printed = Vec::new(alloc);
    let mut reader = text.chain(b"show .nj_log\n".as_slice());
    let answer = script(alloc, &mut reader, &mut printed);
    push_answer(alloc, &answer, told)?;
    let lines = match str::from_utf8(printed.as_slice()) {
        Ok(text) => text.matches("\\n").count(),
        Err(_) => 0,
    };
    let lines = format!(in alloc; ", {lines} lines")?;
    told.push_str(lines.as_str())
}

/// A reader that gives nothing.
#[derive(Drop)]
struct Unreadable;

impl Read for Unreadable {
    fn read(&mut self, _buffer: &mut [u8]) -> io::Result<usize> {
        Err(io::Error::from(ErrorKind::PermissionDenied))
    }
}

/// `unreadable`: what comes of the script where it cannot be read further.
pub fn push_unreadable(alloc: Global, text: &[u8], told: &mut String) -> Result<(), AllocError> {
    let mut printed = Vec::new(alloc);
    let mut reader = text.chain(Unreadable);
    let answer = script(alloc, &mut reader, &mut printed);
    push_answer(alloc, &answer, told)
}

/// `room`: what comes of the script where there is room for four bytes of what it prints.
pub fn push_unwritable(alloc: Global, text: &[u8], told: &mut String) -> Result<(), AllocError> {
    let mut room = [0u8; 4];
    let mut writer = room.as_mut_slice();
    let mut reader = text;
    let answer = script(alloc, &mut reader, &mut writer);
    push_answer(alloc, &answer, told)
}
