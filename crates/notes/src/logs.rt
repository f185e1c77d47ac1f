//! Whether another ninja has built since the last record.

ghost use Rattle.std.specs.Prelude.{IfSome, IsTrue};
ghost use Rattle.notes.specs.Found.{FindsOnly, IsOfAnotherNinja};
ghost use Rattle.notes.specs.OtherLog.{IsOfAnother, IsOutputIn, TellsOfAnother};

use crate::note::{AnotherNinja, Note};
use crate::own::{InFolder, LOG, OTHER_LOG};
use crate::stamps::stamp;
use std::alloc::{AllocError, Global};
use std::fs;
use std::str::from_utf8;
use text::{Path, cut};

/// That another ninja has built, where its log in this folder was written after the build log of this program, and tells of an output that
/// was made after that. What it tells of the build file alone is no build: CMake has ninja write that after each run of its own. The
/// empty folder is the working folder.
pub fn other_ninja(
    alloc: Global,
    rt: &HostRuntime,
    folder: &str,
    file: &str,
) -> Result<Option<Note>, AllocError>
    ensures { FindsOnly (IsOfAnotherNinja folder.now) result }
{
    let ours = format!(in alloc; "{}", InFolder { folder, name: LOG })?;
    let theirs = format!(in alloc;
        "{}",
        InFolder {
            folder,
            name: OTHER_LOG
        }
    )?;
    if !has_built_since(rt, ours.as_str(), theirs.as_str(), file) {
        return Ok(None);
    }
    let folder = Path::from_str(alloc, folder)?;
    Ok(Some(Note::AnotherNinja(AnotherNinja { folder })))
}

/// Whether the second log is later than the first, and tells of a later output.
fn has_built_since(rt: &HostRuntime, ours: &str, theirs: &str, file: &str) -> bool {
    let (Some(recorded), Some(written)) = (stamp(rt, ours), stamp(rt, theirs)) else {
        return false;
    };
    if written <= recorded {
        return false;
    }
    match fs::read(rt, theirs) {
        Ok(log) => tells_later(log.as_slice(), recorded, file.as_bytes()),
        Err(_) => false,
    }
}

/// Whether a line of ninja's log tells of an output, other than this one, that has a later stamp. A line without an end tells nothing.
fn tells_later(log: &[u8], than: u64, other: &[u8]) -> bool
    ensures { IsTrue result → TellsOfAnother log.now other.now }
{
    let mut rest = log;
    while let Some((line, after)) = cut(rest, b'\n') {
        if is_later(line, than, other) {
            return true;
        }
        rest = after;
    }
    false
}

/// Whether the line tells so. Its fields, with a tab between, are when the command started and when it ended, the stamp of the output in
/// nanoseconds, the output's path, and more.
fn is_later(line: &[u8], than: u64, other: &[u8]) -> bool
    ensures { IsTrue result → IsOfAnother line.now other.now }
{
    match told_by(line) {
        Some((stamp, output)) => stamp > than && output != other,
        None => false,
    }
}

/// The stamp and the path that the line tells of.
fn told_by(line: &[u8]) -> Option<(u64, &[u8])>
    ensures { IfSome result (λ told. IsOutputIn line.now told.1.now) }
{
    let (_, after_start) = cut(line, b'\t')?;
    let (_, after_stop) = cut(after_start, b'\t')?;
    let (stamp, after_stamp) = cut(after_stop, b'\t')?;
    let (output, _) = cut(after_stamp, b'\t')?;
    let stamp = from_utf8(stamp).ok()?.parse::<u64>().ok()?;
    Some((stamp, output))
}
