//! The parts, and which of them a row belongs to.

use crate::folder::Folder;
use crate::host_calls::Calls;
use crate::nj_rows::{Rows, is_told};
use std::alloc::{AllocError, Global};
use std::{env, io};
use tables::{Table, word};

#[derive(Clone, Copy)]
enum Part {
    /// `part host`: calls of a site of real files, and real commands, as `host_calls` says.
    Host,
    /// `part nj`: runs of the program in folders, as `nj_rows` says.
    Nj,
}

/// What the rows of each part have said so far.
#[derive(Drop)]
pub struct Places<'a> {
    part: Part,
    calls: Calls<'a>,
    runs: Rows<'a>,
}

impl<'a> Places<'a> {
    pub fn new(rt: &'a HostRuntime) -> io::Result<Places<'a>> {
        let pages = env::current_dir(rt)?;
        let folder = Folder::new(rt)?;
        Ok(Places {
            part: Part::Host,
            calls: Calls::new(rt),
            runs: Rows::new(folder, pages),
        })
    }

    /// Begins a part, that of calls in an empty folder.
    fn begin(&mut self, name: &str, told: &mut String) -> Result<bool, AllocError> {
        self.part = match name {
            "host" => Part::Host,
            _ => Part::Nj,
        };
        match self.part {
            Part::Host => is_told(self.runs.folder.enter(), told),
            Part::Nj => Ok(false),
        }
    }

    /// Removes the folder, if a part was in one.
    pub fn leave(&self) {
        self.runs.folder.leave();
    }
}

impl Table for Places<'_> {
    fn answer(&mut self, alloc: Global, row: &str, told: &mut String) -> Result<bool, AllocError> {
        let (first, rest) = word(row);
        if first == "part" {
            return self.begin(rest, told);
        }
        match self.part {
            Part::Host => self.calls.answer(alloc, first, rest, told),
            Part::Nj => self.runs.answer(alloc, first, rest, told),
        }
    }
}
