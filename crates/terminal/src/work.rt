//! Which commands run, since when, and how many have ended.

use std::alloc::{AllocError, Global};

/// So long a build has to run before it is told how long it may take, in milliseconds.
const EARLY: u64 = 500;

/// Less than this is not told.
const SECOND: u64 = 1000;

/// A command that runs.
#[derive(Clone, Copy)]
pub struct Run {
    pub job: usize,
    /// When it was started.
    pub since: u64,
}

/// The commands of a build. Times are milliseconds, of a clock that does not go back.
#[derive(Drop)]
pub struct Work {
    /// Those that run, in the order of their starts.
    pub running: Vec<Run>,
    /// How many have ended.
    pub done: u64,
    /// When the first was started.
    begun: Option<u64>,
    /// When the last end was.
    ended: u64,
}

impl Work {
    /// Nothing was started. This takes no memory.
    pub fn new(alloc: Global) -> Work {
        Work {
            running: Vec::new(alloc),
            done: 0,
            begun: None,
            ended: 0,
        }
    }

    /// The command of a job was started. Where memory is refused, it is left out.
    pub fn start(&mut self, job: usize, now: u64) -> Result<(), AllocError> {
        if self.begun.is_none() {
            self.begun = Some(now);
        }
        self.running.push(Run { job, since: now })?;
        Ok(())
    }

    /// The command of a job has ended. This takes a time of the order of those that run.
    pub fn end(&mut self, job: usize, now: u64) {
        self.running.retain(|run| run.job != job);
        self.done = self.done.saturating_add(1);
        self.ended = now;
    }

    /// How long the rest of so many commands may take, by the time that those took which have ended. Nothing is said before one has ended
    /// half a second behind the first start, nor where it is less than a second.
    pub fn left(&self, total: u64, now: u64) -> Option<u64> {
        let elapsed = self.ended.saturating_sub(self.begun?);
        if elapsed < EARLY {
            return None;
        }
        let rest = total.saturating_sub(self.done);
        let whole = elapsed.checked_mul(rest)?.checked_div(self.done)?;
        let left = whole.saturating_sub(now.saturating_sub(self.ended));
        if left < SECOND { None } else { Some(left) }
    }
}
