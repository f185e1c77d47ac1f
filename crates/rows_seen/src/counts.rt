//! What was seen of builds.

use std::io::{self, Write};

/// What builds came to.
#[derive(Drop)]
pub struct Counts {
    pub histories: u64,
    /// Builds beside which something may go wrong or be written, and how many of them succeeded.
    pub beside: u64,
    pub succeeded: u64,
    /// Builds beside which nobody writes, and how many commands they started.
    pub quiet: u64,
    pub started: u64,
    /// Files that were put there under old stamps, and those of them that a command makes.
    pub old: u64,
    pub outputs: u64,
    /// Builds that left something else than the clean build gives.
    pub stale: u64,
    /// The seed of the first history in which something was wrong, and what.
    pub wrong: Option<(u64, &'static str)>,
}

impl Counts {
    pub fn new() -> Counts {
        Counts {
            histories: 0,
            beside: 0,
            succeeded: 0,
            quiet: 0,
            started: 0,
            old: 0,
            outputs: 0,
            stale: 0,
            wrong: None,
        }
    }

    pub fn note_wrong(&mut self, seed: u64, what: &'static str) {
        if self.wrong.is_none() {
            self.wrong = Some((seed, what));
        }
    }

    pub fn tell(&self, told: &mut Vec<u8>) -> io::Result<()> {
        let (histories, quiet, started) = (self.histories, self.quiet, self.started);
        write!(
            told,
            "{histories} histories, {quiet} builds, {started} started, "
        )?;
        let (succeeded, beside) = (self.succeeded, self.beside);
        write!(told, "{succeeded} of {beside} beside which something was, ")?;
        let (old, outputs, stale) = (self.old, self.outputs, self.stale);
        write!(
            told,
            "{old} under old stamps, {outputs} of them outputs, {stale} stale, "
        )?;
        match self.wrong {
            None => write!(told, "ok"),
            Some((seed, what)) => write!(told, "wrong in {seed}: {what}"),
        }
    }
}

/// One more.
pub fn add(count: &mut u64) {
    *count = count.saturating_add(1);
}
