//! The rows that are drawn below what stays.

use crate::names::Names;
use crate::times::{push_number, push_time};
use crate::work::Work;
use std::alloc::{AllocError, Global};

/// Of so many commands it is told that they run, those that run longest.
const FEW: usize = 4;

/// What is known of a build that runs.
#[derive(Clone, Copy)]
pub struct Known<'a> {
    /// The line that passes, without its end; empty where there is none.
    pub line: &'a [u8],
    pub work: &'a Work,
    pub names: &'a Names,
    /// How many commands there are, where it is known.
    pub total: Option<u64>,
}

/// The rows at a time, in milliseconds, each with its end: the line that passes, and while commands run how far the build is and those that
/// run longest. One of which no name is known is left out.
pub fn rows(alloc: Global, known: Known<'_>, now: u64) -> Result<Vec<u8>, AllocError> {
    let mut rows = Vec::new(alloc);
    if !known.line.is_empty() {
        rows.extend_from_slice(known.line)?;
        rows.push(b'\n')?;
    }
    if !known.work.running.is_empty() {
        push_summary(&mut rows, known, now)?;
        push_running(&mut rows, known, now)?;
    }
    Ok(rows)
}

/// How far the build is: `[12/40 done, 3 running, 8s left]`.
fn push_summary(rows: &mut Vec<u8>, known: Known<'_>, now: u64) -> Result<(), AllocError> {
    rows.push(b'[')?;
    push_number(rows, known.work.done)?;
    if let Some(total) = known.total {
        rows.push(b'/')?;
        push_number(rows, total)?;
    }
    rows.extend_from_slice(b" done, ")?;
    push_number(rows, known.work.running.len() as u64)?;
    rows.extend_from_slice(b" running")?;
    if let Some(left) = time_left(known, now) {
        rows.extend_from_slice(b", ")?;
        push_time(rows, left)?;
        rows.extend_from_slice(b" left")?;
    }
    rows.extend_from_slice(b"]\n")
}

fn time_left(known: Known<'_>, now: u64) -> Option<u64> {
    known.work.left(known.total?, now)
}

/// The commands that run longest, each with its time: `41s Linking app`.
fn push_running(rows: &mut Vec<u8>, known: Known<'_>, now: u64) -> Result<(), AllocError> {
    for run in known.work.running.iter().take(FEW) {
        let name = known.names.name(run.job);
        if !name.is_empty() {
            push_time(rows, now.saturating_sub(run.since))?;
            rows.push(b' ')?;
            rows.extend_from_slice(name)?;
            rows.push(b'\n')?;
        }
    }
    Ok(())
}
