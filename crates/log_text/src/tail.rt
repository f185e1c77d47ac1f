//! How the text of a log ends.

ghost use Rattle.std.specs.Prelude.{◌≡◌, ◌++◌, [], ℕ, List, IsTrue, IsFalse};
ghost use Rattle.text.specs.Marks.{Lacks};
ghost use Rattle.log_text.specs.Text.{EndsLine, EndsBehind, IsRead, header};

use crate::form::{Records, Version};
use bstr::ByteSlice;

/// How the text of a log ends.
#[derive(Clone, Copy, Debug, PartialEq, Eq)]
pub enum Tail {
    /// It is empty, or each of its lines is whole and a record of version 2.
    Whole,
    /// Each of its lines is whole and a record of version 1.
    Old,
    /// Behind its whole lines, or in place of the first one, stands the beginning of a line, which counts for nothing.
    Torn,
    /// One of its whole lines is not what it has to be. Nothing of it counts.
    Damaged,
}

/// The whole lines, and what stands behind them.
pub(crate) fn split_tail(bytes: &[u8]) -> (&[u8], &[u8])
    ensures parts { bytes.now ≡ result.0.now ++ result.1.now }
    ensures lacks { Lacks 10 result.1.now }
    ensures ends { EndsLine result.0.now }
{
    match bytes.rfind_byte(b'\n') {
        Some(place) => bytes.split_at(place + 1),
        None => bytes.split_at(0),
    }
}

/// How bytes without a line feed end.
pub(crate) fn tail_of_header<L: Records>(bytes: &[u8]) -> Tail
    requires { Lacks 10 bytes.now }
    ensures { IsRead L.forms bytes.now [] result }
{
    if bytes.is_empty() {
        Tail::Whole
    } else if begins_header::<L>(Version::Two, bytes) || begins_header::<L>(Version::One, bytes) {
        Tail::Torn
    } else {
        Tail::Damaged
    }
}

/// Whether bytes without a line feed begin the first line of this version.
fn begins_header<L: Records>(version: Version, bytes: &[u8]) -> bool
    requires { Lacks 10 bytes.now }
    ensures begins { IsTrue result → (rest : List ℕ) × (header (L.forms version) ≡ bytes.now ++ rest) }
    ensures other { IsFalse result → (rest : List ℕ) → header (L.forms version) ≡ bytes.now ++ rest → ⊥ }
{
    L::first_line(version).starts_with(bytes)
}

/// How a log of this version ends, with these bytes behind its whole lines.
pub(crate) fn tail_behind<L: Records>(version: Version, rest: &[u8]) -> Tail
    requires { Lacks 10 rest.now }
    ensures { EndsBehind L.forms version rest.now result }
{
    if !rest.is_empty() {
        return Tail::Torn;
    }
    match version {
        Version::One => Tail::Old,
        Version::Two => Tail::Whole,
    }
}
