//! What rows of both parts have in common.

use std::alloc::{AllocError, Global};
use tables::unescaped;

/// The number that a word of a row is, or else 0.
pub fn number(word: &str) -> usize {
    word.parse::<usize>().unwrap_or(0)
}

/// The text without escapes.
pub fn plain(alloc: Global, text: &str) -> Result<String, AllocError> {
    let bytes = unescaped(alloc, text)?;
    String::from_utf8_lossy(alloc, bytes.as_slice())
}
