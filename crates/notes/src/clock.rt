//! Whether the clock went back.

ghost use Rattle.std.specs.Prelude.{◌≡◌};
ghost use Rattle.notes.specs.Clock.{seconds_ahead};
ghost use Rattle.notes.specs.Found.{FindsOnly, IsOfClock};

use crate::note::{Later, Note};
use crate::own::{InFolder, TICK};
use crate::stamps::{SECOND, now, stamp};
use std::alloc::{AllocError, Global};
use std::fs::Files;
use std::time::Clock;
use text::Path;

/// So much later than now may a stamp be: clocks of other machines, on whose disks a build may lie, are not so exact.
const MARGIN: u64 = 2 * SECOND;

/// That the clock went back, where the file of the last tick in this folder is stamped more than two seconds later than now. The empty
/// folder is the working folder.
pub fn clock_went_back<R: Files + Clock>(
    alloc: Global,
    rt: &R,
    folder: &str,
) -> Result<Option<Note>, AllocError>
    ensures { FindsOnly (IsOfClock folder.now) result }
{
    let path = format!(in alloc; "{}", InFolder { folder, name: TICK })?;
    let (Some(tick), Some(now)) = (stamp(rt, path.as_str()), now(rt)) else {
        return Ok(None);
    };
    let Some(seconds) = ahead_by(tick, now) else {
        return Ok(None);
    };
    let folder = Path::from_str(alloc, folder)?;
    Ok(Some(Note::ClockWentBack(Later { folder, seconds })))
}

/// By how many whole seconds the tick is later than now, where that is more than two.
fn ahead_by(tick: u64, now: u64) -> Option<u64>
    ensures { result ≡ seconds_ahead tick now }
{
    let ahead = tick.saturating_sub(now);
    if ahead > MARGIN {
        Some(ahead / SECOND)
    } else {
        None
    }
}
