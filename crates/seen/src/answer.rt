//! What is answered of what is found.

ghost use Rattle.std.specs.Prelude.{◌≡◌, ◌<◌, ℕ, IfOk};
ghost use Rattle.std.specs.Option.{option_map};
ghost use Rattle.model.specs.Graph.{has};
ghost use Rattle.seen_law.specs.Retold.{late, stamp_told};
ghost use Rattle.seen.specs.Answered.{own_stamp, placed_by};
ghost use Rattle.seen.specs.Judged.{already, already_away, plainly};
ghost use Rattle.seen.specs.Reading.{content_counted, measure_in};

use crate::judging::{Judged, is_as_noted, is_turned, plainly};
use measure::Measure;
use seen_log::{Last, Noted, counts_of};
use std::alloc::AllocError;
use text::Bytes;

/// What was seen of a path.
#[derive(Clone, Copy)]
pub struct Looked {
    /// The stamp that counts for it, or nothing where it counts as absent.
    pub counts: Option<u64>,
    /// What was found there.
    pub found: Option<Measure>,
    /// What was noted of it when the build began.
    pub last: Option<Last>,
    /// How what was found is judged, and as what it is to be noted.
    pub how: Judged,
}

impl Looked {
    ghost use Rattle.std.specs.Prelude.{◌≡◌, None};

    /// Of one of the program's own files.
    pub fn own(found: Option<Measure>) -> Looked
        ensures { result ≡ record { counts = own_stamp found; found = found; last = None; how = plainly (own_stamp found) } }
    {
        let counts = own_stamp(found);
        Looked {
            counts,
            found,
            last: None,
            how: plainly(counts),
        }
    }
}

/// The stamp of what was found.
pub fn own_stamp(found: Option<Measure>) -> Option<u64>
    ensures { result ≡ own_stamp found }
{
    match found {
        Some(Measure { stamp, .. }) => Some(stamp),
        None => None,
    }
}

/// What was found, where a command of this build made it: nobody else put it there.
pub fn placed_by(is_made: bool, found: Option<Measure>) -> Option<Measure>
    ensures { result ≡ placed_by is_made found }
{
    let Some(measure) = found else {
        return None;
    };
    if is_made {
        Some(Measure {
            placed: measure.stamp,
            ..measure
        })
    } else {
        Some(measure)
    }
}

/// The stamp that counts where this one does, or none, for a file of this stamp whose command was started under that one, or was not.
pub fn stamp_told(
    counts: Option<u64>,
    started: Option<u64>,
    stamp: u64,
) -> Result<Option<u64>, AllocError>
    ensures { IfOk result (λ told. told ≡ stamp_told counts started stamp) }
{
    if counts.is_some() {
        return Ok(counts);
    }
    match started {
        Some(start) => Ok(Some(late(start, stamp)?)),
        None => Ok(None),
    }
}

/// What did not count before a command was started counts as written by it, and so later than the start.
fn late(start: u64, stamp: u64) -> Result<u64, AllocError>
    ensures { IfOk result (λ told. told ≡ late start stamp) }
{
    if start < stamp {
        return Ok(stamp);
    }
    start.checked_add(1).ok_or(AllocError)
}

/// The measure of what was read.
pub fn measure_in(found: &Option<(Bytes, Measure)>) -> Option<Measure>
    ensures { result ≡ measure_in found.now }
{
    match found {
        Some((_, measure)) => Some(*measure),
        None => None,
    }
}

/// What was read, where it counts.
pub fn content_counted(counts: Option<u64>, found: Option<(Bytes, Measure)>) -> Option<Bytes>
    ensures { result ≡ content_counted counts found }
{
    let Some((content, _)) = found else {
        return None;
    };
    match counts {
        Some(_) => Some(content),
        None => None,
    }
}

/// What is noted by the last record of a path.
pub fn noted_in(last: Option<Last>) -> Option<Noted>
    ensures { result ≡ option_map (λ it. it.noted) last }
{
    match last {
        Some(last) => Some(last.noted),
        None => None,
    }
}

/// How what is absent counts of which this is noted.
fn already_away(noted: Option<Noted>) -> Option<Judged>
    ensures { result ≡ already_away noted }
{
    match noted {
        Some(_) => Some(plainly(None)),
        None => None,
    }
}

/// How what was found counts where nothing else is asked: it is noted and absent, a folder, or as noted, and nothing that somebody wrote where a
/// command had made the path.
pub fn already(noted: Option<Noted>, found: Option<Measure>) -> Option<Judged>
    ensures { result ≡ already noted found }
{
    let Some(Measure { stamp, size, .. }) = found else {
        return already_away(noted);
    };
    let Some(size) = size else {
        return Some(plainly(Some(stamp)));
    };
    let Some(noted) = noted else {
        return None;
    };
    if is_as_noted(noted, stamp, size) && !is_turned(noted.kind) {
        Some(plainly(Some(counts_of(noted))))
    } else {
        None
    }
}
