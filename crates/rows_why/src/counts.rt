//! What was seen of builds, and of what was told before them.

use std::io::{self, Write};

/// What builds came to, and what was told before them.
#[derive(Drop)]
pub struct Counts {
    pub histories: u64,
    /// Histories in which a build started something.
    pub busy: u64,
    pub builds: u64,
    pub started: u64,
    /// Commands that were told to be due, and those that might turn out not to be needed.
    pub told: u64,
    pub unsure: u64,
    /// Those that were told and that a build which succeeded did not start.
    pub spared: u64,
    /// Builds before which a dyndep file was yet to be loaded.
    pub unloaded: u64,
    /// Builds that were refused as it was told.
    pub refused: u64,
    /// The seed of the first history in which something was wrong, and what.
    pub wrong: Option<(u64, &'static str)>,
}

impl Counts {
    pub fn new() -> Counts {
        Counts {
            histories: 0,
            busy: 0,
            builds: 0,
            started: 0,
            told: 0,
            unsure: 0,
            spared: 0,
            unloaded: 0,
            refused: 0,
            wrong: None,
        }
    }

    pub fn note_wrong(&mut self, seed: u64, what: &'static str) {
        if self.wrong.is_none() {
            self.wrong = Some((seed, what));
        }
    }

    pub fn tell(&self, told: &mut Vec<u8>) -> io::Result<()> {
        let (busy, histories, builds) = (self.busy, self.histories, self.builds);
        write!(told, "{busy} of {histories} started something; ")?;
        let (due, unsure, spared) = (self.told, self.unsure, self.spared);
        write!(told, "{builds} builds, {due} told, {unsure} unsure, ")?;
        let (started, unloaded, refused) = (self.started, self.unloaded, self.refused);
        write!(told, "{started} started, {spared} told and not started, ")?;
        write!(told, "{unloaded} unloaded, {refused} refused, ")?;
        match self.wrong {
            None => write!(told, "ok"),
            Some((seed, what)) => write!(told, "wrong in {seed}: {what}"),
        }
    }
}

/// One more.
pub fn add(count: &mut u64) {
    *count = count.saturating_add(1);
}
