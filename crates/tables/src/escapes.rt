//! Texts in one line.

use std::alloc::{AllocError, Global};

/// How far an escape has come.
#[derive(Clone, Copy)]
enum Escape {
    /// Outside of one.
    Outside,
    /// Behind a backslash.
    Opened,
    /// Behind `\x`.
    Hex,
    /// Behind the first digit of `\x`, with its value.
    Digit(u8),
}

/// The bytes that a text stands for: in it `\n`, `\r`, `\t`, `\0`, `\\` and `\x7F` are as in Rust.
pub fn unescaped(alloc: Global, text: &str) -> Result<Vec<u8>, AllocError> {
    let mut bytes = Vec::with_capacity(alloc, text.len())?;
    let mut escape = Escape::Outside;
    for byte in text.as_bytes() {
        escape = push_byte(&mut bytes, escape, *byte)?;
    }
    Ok(bytes)
}

fn push_byte(bytes: &mut Vec<u8>, escape: Escape, byte: u8) -> Result<Escape, AllocError> {
    match escape {
        Escape::Outside if byte == b'\\' => return Ok(Escape::Opened),
        Escape::Opened if byte == b'x' => return Ok(Escape::Hex),
        Escape::Hex => return Ok(Escape::Digit(digit(byte))),
        Escape::Outside => bytes.push(byte)?,
        Escape::Opened => bytes.push(meant_by(byte))?,
        Escape::Digit(first) => bytes.push(first.wrapping_mul(16).wrapping_add(digit(byte)))?,
    }
    Ok(Escape::Outside)
}

/// What a backslash before this byte stands for.
fn meant_by(byte: u8) -> u8 {
    match byte {
        b'n' => b'\n',
        b'r' => b'\r',
        b't' => b'\t',
        b'0' => 0,
        other => other,
    }
}

/// The value of a hexadecimal digit.
fn digit(byte: u8) -> u8 {
    match byte {
        b'0'..=b'9' => byte.wrapping_sub(b'0'),
        b'a'..=b'f' => byte.wrapping_sub(b'a').wrapping_add(10),
        _ => byte.wrapping_sub(b'A').wrapping_add(10),
    }
}

/// Puts a text behind another, with escapes for what would end a line or not be seen in it.
pub fn push_escaped(line: &mut String, text: &str) -> Result<(), AllocError> {
    for character in text.chars() {
        match character {
            '\n' => line.push_str("\\n")?,
            '\r' => line.push_str("\\r")?,
            '\t' => line.push_str("\\t")?,
            '\0' => line.push_str("\\0")?,
            '\\' => line.push_str("\\\\")?,
            other => line.push(other)?,
        }
    }
    Ok(())
}
