//! How far characters of a class go.

ghost use Rattle.std.specs.Prelude.{◌≡◌, ◌+◌, ◌≤◌, length, drop, map};
ghost use Rattle.std.specs.List.{prefix_len};
ghost use Rattle.std.specs.Simd.Lanes.{mask_l};
ghost use Rattle.lexer.specs.Characters.{is_of, is_stop};

use crate::characters::{Class, is_of};
use std::simd::prelude::*;

/// How many bytes of the class stand in front.
///
/// Each class is named in a call of its own, so that each gets a search of its own, in which nothing asks for the
/// class. Spaces are few where they stand at all, and are looked at one by one.
pub fn run_len(bytes: &[u8], class: Class) -> usize
    ensures { result ≡ prefix_len (is_of class) bytes.now }
{
    match class {
        Class::Space => run_end(bytes, 0, Class::Space),
        Class::Name => run_len_of(bytes, Class::Name),
        Class::BareName => run_len_of(bytes, Class::BareName),
        Class::Path => run_len_of(bytes, Class::Path),
        Class::Value => run_len_of(bytes, Class::Value),
        Class::Comment => run_len_of(bytes, Class::Comment),
    }
}

/// The same, 16 bytes at a time as long as there are so many.
#[inline(always)]
fn run_len_of(bytes: &[u8], class: Class) -> usize
    ensures { result ≡ prefix_len (is_of class) bytes.now }
{
    let mut i = 0;
    while bytes.len() - i >= 16 {
        let found = stops(class, u8x16::from_slice(&bytes[i..]));
        if found != 0 {
            return i + found.trailing_zeros() as usize;
        }
        i += 16;
    }
    run_end(bytes, i, class)
}

/// Where the run of the class ends that begins here, byte by byte.
#[inline(always)]
fn run_end(bytes: &[u8], from: usize, class: Class) -> usize
    requires { from ≤ length bytes.now }
    ensures { result ≡ from + prefix_len (is_of class) (drop from bytes.now) }
{
    let mut i = from;
    while i < bytes.len() && is_of(class, bytes[i]) {
        i += 1;
    }
    i
}

/// A bit for each byte: whether it is not of the class.
#[inline(always)]
fn stops(class: Class, v: u8x16) -> u64
    ensures { result ≡ mask_l (map (is_stop class) v) }
{
    match class {
        Class::Space => v.simd_ne(u8x16::splat(b' ')).to_bitmask(),
        Class::Name => name_stops(v),
        Class::BareName => bare_name_stops(v),
        Class::Path => path_stops(v),
        Class::Value => value_stops(v),
        Class::Comment => comment_stops(v),
    }
}

#[inline(always)]
fn name_stops(v: u8x16) -> u64
    ensures { result ≡ mask_l (map (is_stop Class.Name) v) }
{
    let is_no_letter = ((v | u8x16::splat(0x20)) - u8x16::splat(b'a')).simd_ge(u8x16::splat(26));
    let is_no_digit = (v - u8x16::splat(b'0')).simd_ge(u8x16::splat(10));
    let is_no_sign = v.simd_ne(u8x16::splat(b'_'))
        & v.simd_ne(u8x16::splat(b'-'))
        & v.simd_ne(u8x16::splat(b'.'));
    (is_no_letter & is_no_digit & is_no_sign).to_bitmask()
}

#[inline(always)]
fn bare_name_stops(v: u8x16) -> u64
    ensures { result ≡ mask_l (map (is_stop Class.BareName) v) }
{
    let is_no_letter = ((v | u8x16::splat(0x20)) - u8x16::splat(b'a')).simd_ge(u8x16::splat(26));
    let is_no_digit = (v - u8x16::splat(b'0')).simd_ge(u8x16::splat(10));
    let is_no_sign = v.simd_ne(u8x16::splat(b'_')) & v.simd_ne(u8x16::splat(b'-'));
    (is_no_letter & is_no_digit & is_no_sign).to_bitmask()
}

/// A tab and a carriage return differ in one bit alone, and so do a space and a dollar.
#[inline(always)]
fn path_stops(v: u8x16) -> u64
    ensures { result ≡ mask_l (map (is_stop Class.Path) v) }
{
    let paired = v | u8x16::splat(4);
    (paired.simd_eq(u8x16::splat(b'$'))
        | paired.simd_eq(u8x16::splat(b'\r'))
        | v.simd_eq(u8x16::splat(b'\n'))
        | v.simd_eq(u8x16::splat(b':'))
        | v.simd_eq(u8x16::splat(b'|'))
        | v.simd_eq(u8x16::splat(0))).to_bitmask()
}

#[inline(always)]
fn value_stops(v: u8x16) -> u64
    ensures { result ≡ mask_l (map (is_stop Class.Value) v) }
{
    (v.simd_eq(u8x16::splat(b'$'))
        | v.simd_eq(u8x16::splat(b'\n'))
        | v.simd_eq(u8x16::splat(b'\r'))
        | v.simd_eq(u8x16::splat(0))).to_bitmask()
}

#[inline(always)]
fn comment_stops(v: u8x16) -> u64
    ensures { result ≡ mask_l (map (is_stop Class.Comment) v) }
{
    (v.simd_eq(u8x16::splat(b'\n'))
        | v.simd_eq(u8x16::splat(b'\r'))
        | v.simd_eq(u8x16::splat(0))).to_bitmask()
}
