//! What the builds of histories came to.

use builder::Report;
use std::alloc::{AllocError, Global};
use std::io::{self, Write};

/// What the builds of all histories came to.
#[derive(Drop)]
pub struct Counts {
    /// How many builds ended so beside which somebody wrote.
    well: u64,
    failed: u64,
    refused: u64,
    faults: u64,
    /// Sources and scratch files that somebody wrote while a command ran.
    pub sources: u64,
    pub scratch: u64,
    /// Files that were told to have the stamp of the last tick.
    pub equal: u64,
    /// Outputs that a build which succeeded left otherwise than the clean build, and that the next one put right.
    pub mended: u64,
    /// Builds behind these, beside which nobody wrote, that succeeded; and builds behind those, which had nothing to do.
    pub quiet: u64,
    pub done: u64,
    /// The seed of the first history in which something was wrong, and what.
    wrong: Option<(u64, Vec<u8>)>,
}

impl Counts {
    pub fn new() -> Counts {
        Counts {
            well: 0,
            failed: 0,
            refused: 0,
            faults: 0,
            sources: 0,
            scratch: 0,
            equal: 0,
            mended: 0,
            quiet: 0,
            done: 0,
            wrong: None,
        }
    }

    /// One build more, beside which somebody wrote, that ended so.
    pub fn add(&mut self, report: &Report) {
        let count = match report {
            Report::Success { .. } => &mut self.well,
            Report::Failed { .. } => &mut self.failed,
            Report::Refused(_) => &mut self.refused,
            Report::Fault(_) => &mut self.faults,
        };
        *count = count.saturating_add(1);
    }

    /// Something is wrong in the history of this seed, at a build that ended so.
    pub fn note_wrong(
        &mut self,
        alloc: Global,
        seed: u64,
        what: &str,
        report: &Report,
    ) -> io::Result<()> {
        if self.wrong.is_none() {
            let mut told = Vec::new(alloc);
            write!(&mut told, "{what}, {report:?}")?;
            self.wrong = Some((seed, told));
        }
        Ok(())
    }

    /// All counts, and `ok` or what was wrong first.
    pub fn tell(&self, told: &mut Vec<u8>) -> io::Result<()> {
        self.tell_builds(told)?;
        self.tell_files(told)?;
        match &self.wrong {
            None => told.write_all(b"ok"),
            Some((seed, what)) => {
                write!(told, "wrong in {seed}: ")?;
                told.write_all(what.as_slice())
            }
        }
    }

    fn tell_builds(&self, told: &mut Vec<u8>) -> io::Result<()> {
        let (well, failed) = (self.well, self.failed);
        let (refused, faults) = (self.refused, self.faults);
        let (quiet, done) = (self.quiet, self.done);
        write!(told, "{well} well, {failed} failed, {refused} refused, ")?;
        write!(told, "{faults} faults, then {quiet} well, ")?;
        write!(told, "{done} with nothing to do; ")
    }

    fn tell_files(&self, told: &mut Vec<u8>) -> io::Result<()> {
        let (sources, scratch) = (self.sources, self.scratch);
        let (equal, mended) = (self.equal, self.mended);
        write!(told, "while commands ran {sources} sources and ")?;
        write!(told, "{scratch} scratch files written, ")?;
        write!(told, "{equal} stamps of a tick, {mended} outputs mended, ")
    }
}
