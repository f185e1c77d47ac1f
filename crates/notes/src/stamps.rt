//! When files were written, and what time it is.

use std::fs;
use std::fs::Files;
use std::time::{Clock, Duration, SystemTime, UNIX_EPOCH};

/// A second, in nanoseconds.
pub const SECOND: u64 = 1_000_000_000;

/// When the file at the path was written last, in nanoseconds since 1970; none where there is no file, or where that cannot be told.
pub fn stamp<F: Files>(files: &F, path: &str) -> Option<u64> {
    let written = fs::metadata(files, path).ok()?.modified().ok()?;
    Some(nanos(written.duration_since(UNIX_EPOCH).ok()?))
}

/// What time it is, in nanoseconds since 1970, if the clock tells it.
pub fn now<C: Clock>(clock: &C) -> Option<u64> {
    let now = SystemTime::now(clock).ok()?;
    Some(nanos(now.duration_since(UNIX_EPOCH).ok()?))
}

/// How long it is, in nanoseconds; the greatest number where it is longer.
fn nanos(time: Duration) -> u64 {
    let seconds = time.as_secs().saturating_mul(SECOND);
    seconds.saturating_add(u64::from(time.subsec_nanos()))
}
