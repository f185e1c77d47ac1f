//! Paths as words of a shell command.

ghost use Rattle.std.specs.Prelude.{◌≡◌, IfOk, map, string_bytes};
ghost use Rattle.std.specs.List.{list_all};
ghost use Rattle.std.specs.Simd.Lanes.{mask_l};
ghost use Rattle.lexer.specs.Bare.{wants_quotes};
ghost use Rattle.lexer.specs.Quote.{is_bare, is_bare_path, in_quotes, quoted, QuotedIsOneWord};

use std::alloc::{AllocError, Global};
use std::simd::prelude::*;

/// The path as one word of a shell command. A path of ASCII letters, ASCII digits and `_ + - . /` stands as it is. Any
/// other, the empty one too, stands in single quotes, and each single quote in it is written `'\''`.
pub fn quote(alloc: Global, path: &str) -> Result<String, AllocError>
    ensures { IfOk result (λ word. string_bytes word ≡ quoted path.now) }
{
    if is_bare_path(path) {
        String::from_str(alloc, path)
    } else {
        in_quotes(alloc, path)
    }
}

/// A law, which runs nothing: what a shell reads of a quoted path is one word, and that word is the path.
pub fn quoted_is_one_word()
    ensures { QuotedIsOneWord }
{}

/// Whether the path stands in a command as it is, without quotes.
pub fn is_bare_path(path: &str) -> bool
    ensures { result ≡ is_bare_path path.now }
{
    !path.is_empty() && are_bare(path.as_bytes())
}

/// Whether each of these bytes stands in a command as it is: 16 at a time, as long as there are so many.
fn are_bare(bytes: &[u8]) -> bool
    ensures { result ≡ list_all is_bare bytes.now }
{
    let mut i = 0;
    while bytes.len() - i >= 16 {
        if quoted_bits(u8x16::from_slice(&bytes[i..])) != 0 {
            return false;
        }
        i += 16;
    }
    are_few_bare(&bytes[i..])
}

/// The same, byte by byte.
fn are_few_bare(bytes: &[u8]) -> bool
    ensures { result ≡ list_all is_bare bytes.now }
{
    bytes.iter().all(|byte| is_bare(*byte))
}

/// A bit for each byte: whether it wants quotes. The signs `-`, `.` and `/` stand right before the digits.
#[inline(always)]
fn quoted_bits(v: u8x16) -> u64
    ensures { result ≡ mask_l (map wants_quotes v) }
{
    let is_no_letter = ((v | u8x16::splat(0x20)) - u8x16::splat(b'a')).simd_ge(u8x16::splat(26));
    let is_no_digit = (v - u8x16::splat(b'-')).simd_ge(u8x16::splat(13));
    let is_no_sign = v.simd_ne(u8x16::splat(b'_')) & v.simd_ne(u8x16::splat(b'+'));
    (is_no_letter & is_no_digit & is_no_sign).to_bitmask()
}

fn is_bare(byte: u8) -> bool
    ensures { result ≡ is_bare byte }
{
    byte.is_ascii_alphanumeric() || matches!(byte, b'_' | b'+' | b'-' | b'.' | b'/')
}

/// The path in single quotes. One in the path itself ends them, is escaped, and begins them again.
fn in_quotes(alloc: Global, path: &str) -> Result<String, AllocError>
    ensures { IfOk result (λ word. string_bytes word ≡ in_quotes path.now) }
{
    let within = path.replace(alloc, '\'', r"'\''")?;
    format!(in alloc; "'{within}'")
}
