//! Limits of values, files and depths.

use crate::asked::Kind;
use crate::files::Files;
use crate::said::push_said;
use std::alloc::{AllocError, Global};
use tables::{unescaped, word};

/// The most bytes that a build file may have.
const LARGEST_FILE: usize = 64 * 1024 * 1024;

/// `doubled TEXT`: the text behind values of which each is twice the one before, up to `v24` with 16 MiB, in lines 1 to 25.
pub fn push_doubled(alloc: Global, more: &str, told: &mut String) -> Result<(), AllocError> {
    let mut text = Vec::from_slice(alloc, b"v0 = x\n")?;
    let mut last = 0;
    for number in 1..25 {
        let line = format!(in alloc; "v{number} = $v{last}$v{last}\n")?;
        text.extend_from_slice(line.as_bytes())?;
        last = number;
    }
    text.extend_from_slice(unescaped(alloc, more)?.as_slice())?;
    Files::one(alloc, text.as_slice()).push_told(told)
}

/// `filled TEXT`, `filled_said TEXT`: what a build file declares, or its lines say, with the text behind a comment of as many
/// bytes as a file may have.
pub fn push_filled(
    alloc: Global,
    kind: Kind,
    more: &str,
    told: &mut String,
) -> Result<(), AllocError> {
    let mut text = Vec::new(alloc);
    text.resize(LARGEST_FILE, b'#')?;
    text.extend_from_slice(unescaped(alloc, more)?.as_slice())?;
    match kind {
        Kind::Said => push_said(alloc, text.as_slice(), told),
        _ => Files::one(alloc, text.as_slice()).push_told(told),
    }
}

/// `nested DEPTH KEYWORD TEXT`: so many files in each other, `build.ninja` the outermost, which name each other in these
/// statements. The innermost has the text.
pub fn push_nested(alloc: Global, row: &str, told: &mut String) -> Result<(), AllocError> {
    let (depth, rest) = word(row);
    let (keyword, text) = word(rest);
    let innermost = unescaped(alloc, text)?;
    let outermost = format!(in alloc; "{keyword} 2\n")?;
    let last = depth.parse::<u32>().unwrap_or(0);
    Files::nested(
        alloc,
        outermost.as_bytes(),
        keyword,
        last,
        innermost.as_slice(),
    )
    .push_told(told)
}
