//! What a trace tells.

use std::alloc::{AllocError, Global};
use std::str::from_utf8;
use tables::{push_word, unescaped, word};
use text::Bytes;
use trace::{Deed, Fact, Told, read};

/// `trace FOLDER TEXT`: what the trace tells.
pub fn push_trace(alloc: Global, row: &str, told: &mut String) -> Result<(), AllocError> {
    let (folder, text) = word(row);
    let trace = trace_in(alloc, text)?;
    match read(alloc, folder.as_bytes(), trace.as_slice())? {
        Told::Facts(facts) => {
            for fact in facts.as_slice() {
                push_fact(alloc, fact, told)?;
            }
            Ok(())
        }
        Told::NotUnderstood => told.push_str("not understood"),
    }
}

/// The trace that a row writes.
pub fn trace_in(alloc: Global, text: &str) -> Result<Vec<u8>, AllocError> {
    let text = unescaped(alloc, text)?;
    with_names(alloc, text.as_slice())
}

/// The text with each name between two `^` in hexadecimal digits.
fn with_names(alloc: Global, text: &[u8]) -> Result<Vec<u8>, AllocError> {
    let mut trace = Vec::new(alloc);
    let mut is_name = false;
    for byte in text {
        if *byte == b'^' {
            is_name = !is_name;
        } else if is_name {
            push_hex(&mut trace, *byte)?;
        } else {
            trace.push(*byte)?;
        }
    }
    Ok(trace)
}

fn push_hex(trace: &mut Vec<u8>, byte: u8) -> Result<(), AllocError> {
    trace.extend_from_slice(b"\\x")?;
    trace.push(digit(byte >> 4))?;
    trace.push(digit(byte & 15))?;
    Ok(())
}

fn digit(value: u8) -> u8 {
    match value {
        0..=9 => b'0'.wrapping_add(value),
        _ => b'a'.wrapping_add(value.wrapping_sub(10)),
    }
}

fn push_fact(alloc: Global, fact: &Fact, told: &mut String) -> Result<(), AllocError> {
    push_word(told, name_of(fact.deed))?;
    push_word(told, shown(&fact.path))?;
    if let Some(real) = &fact.real {
        if real != &fact.path {
            let real = format!(in alloc; "={}", shown(real))?;
            told.push_str(real.as_str())?;
        }
    }
    if let Some(other) = &fact.other {
        let other = format!(in alloc; "<{}", shown(other))?;
        told.push_str(other.as_str())?;
    }
    if fact.follows {
        told.push('*')?;
    }
    told.push(';')
}

fn shown(path: &Bytes) -> &str {
    from_utf8(path.as_slice()).unwrap_or("?")
}

fn name_of(deed: Deed) -> &'static str {
    match deed {
        Deed::Read => "read",
        Deed::Wrote => "wrote",
        Deed::Into => "into",
        Deed::Stamped => "stamped",
        Deed::Linked => "linked",
        Deed::Moved => "moved",
        Deed::Led => "led",
        Deed::Emptied => "emptied",
        Deed::Removed => "removed",
        Deed::Left => "left",
        Deed::Listed => "listed",
        Deed::Asked => "asked",
        Deed::Missed => "missed",
        Deed::Sought => "sought",
        Deed::Folder => "folder",
        Deed::Made => "made",
        Deed::Connected => "connected",
    }
}
