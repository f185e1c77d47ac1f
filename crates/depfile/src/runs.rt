//! Where runs of characters end.

ghost use Rattle.std.specs.Prelude.{◌≡◌, ◌≤◌, length, map};
ghost use Rattle.std.specs.Simd.Lanes.{mask_l};
ghost use Rattle.depfile.specs.Runs.{IsRunEnd, is_stop};

use crate::characters::{Class, is_of};
use std::simd::prelude::*;

/// How many bytes are looked at in one step.
const LANES: usize = 16;

/// Where the run of the class ends that stands first.
#[inline(always)]
pub fn end_of(bytes: &[u8], class: Class) -> usize
    ensures { IsRunEnd class bytes.now 0 result }
{
    match class {
        Class::Plain => plain_end(bytes),
        Class::Backslash => run_end(bytes, class, 0),
    }
}

/// Where the run of plain characters ends that stands first: most of a depfile are such runs, of dozens of bytes.
#[inline(always)]
fn plain_end(bytes: &[u8]) -> usize
    ensures { IsRunEnd Class.Plain bytes.now 0 result }
{
    let mut at = 0;
    while LANES <= bytes.len() - at {
        let stops = stops_of(u8x16::from_slice(&bytes[at..]));
        if stops != 0 {
            return at + stops.trailing_zeros() as usize;
        }
        at += LANES;
    }
    run_end(bytes, Class::Plain, at)
}

/// Bit k is set where a run of plain characters ends at byte k.
#[inline(always)]
fn stops_of(bytes: u8x16) -> u64
    ensures { result ≡ mask_l (map is_stop bytes) }
{
    // with this bit a tab is a CR, and a blank is a dollar: two comparisons less
    let joined = bytes | u8x16::splat(4);
    (joined.simd_eq(u8x16::splat(b'\r'))
        | joined.simd_eq(u8x16::splat(b'$'))
        | bytes.simd_eq(u8x16::splat(b'\n'))
        | bytes.simd_eq(u8x16::splat(b':'))
        | bytes.simd_eq(u8x16::splat(b'\\'))).to_bitmask()
}

/// Where the run ends that goes on at this place, byte by byte.
#[inline(always)]
fn run_end(bytes: &[u8], class: Class, from: usize) -> usize
    requires { from ≤ length bytes.now }
    ensures { IsRunEnd class bytes.now from result }
{
    let mut at = from;
    while at < bytes.len() && is_of(class, bytes[at]) {
        at += 1;
    }
    at
}
