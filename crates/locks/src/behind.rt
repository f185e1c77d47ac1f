//! What commands of this build left behind: processes that have the output of a command open whose own process has ended.

use crate::identity::Identity;
use crate::lines::{Line, tell};
use crate::pace::is_behind_due;
use crate::sight::Sight;
use std::alloc::Global;
use std::time::{Duration, Instant};

/// What a build told of it.
#[derive(Drop)]
pub struct Behind {
    /// When it was told last.
    told: Option<Instant>,
}

impl Behind {
    /// Nothing was told.
    pub fn new() -> Behind {
        Behind { told: None }
    }

    /// Whether it is due to tell it now, where the process of a command that is still held ended at that time: half a second later, and not
    /// before a minute has passed since the last line. Then it counts as told.
    pub fn is_due(&mut self, ended: Instant, now: Instant) -> bool {
        let told = self.told.map(|told| millis(now.duration_since(told)));
        let is_due = is_behind_due(millis(now.duration_since(ended)), told);
        if is_due {
            self.told = Some(now);
        }
        is_due
    }

    /// Tells it on standard error, by one line for all the held files: which processes are seen that have one open.
    pub fn tell(&self, alloc: Global, rt: &HostRuntime, held: &[Identity]) {
        let holders = (Sight { alloc, rt }).holders(held);
        tell(alloc, rt, Line::Behind(holders));
    }
}

fn millis(time: Duration) -> u64 {
    u64::try_from(time.as_millis()).unwrap_or(u64::MAX)
}
