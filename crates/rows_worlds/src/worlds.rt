//! The parts, and which of them a row belongs to.

use crate::graphs::Graphs;
use crate::histories::Histories;
use crate::script_rows::Scripts;
use crate::toy_calls::Toys;
use std::alloc::{AllocError, Global};
use tables::{Table, word};

#[derive(Clone, Copy)]
enum Part {
    /// `part links`: graphs of build files, as `graphs` says.
    Links,
    /// `part sim`: calls of a site in memory, as `toy_calls` says.
    Sim,
    /// `part scripts`: scripts with what they print, as `script_rows` says.
    Scripts,
    /// `part histories`: edits and builds in memory, in which something goes wrong, as `histories` says.
    Histories,
}

/// What the rows of each part have said so far.
#[derive(Drop)]
pub struct Worlds {
    part: Part,
    graphs: Graphs,
    toys: Toys,
    scripts: Scripts,
    histories: Histories,
}

impl Worlds {
    pub fn new(alloc: Global) -> Worlds {
        Worlds {
            part: Part::Links,
            graphs: Graphs::new(alloc),
            toys: Toys::new(alloc),
            scripts: Scripts::new(alloc),
            histories: Histories::new(alloc),
        }
    }

    fn begin(&mut self, name: &str) {
        self.part = match name {
            "sim" => Part::Sim,
            "scripts" => Part::Scripts,
            "histories" => Part::Histories,
            _ => Part::Links,
        };
    }
}

impl Table for Worlds {
    fn answer(&mut self, alloc: Global, row: &str, told: &mut String) -> Result<bool, AllocError> {
        let (first, rest) = word(row);
        if first == "part" {
            self.begin(rest);
            return Ok(false);
        }
        match self.part {
            Part::Links => self.graphs.answer(alloc, first, rest, told),
            Part::Sim => self.toys.answer(alloc, first, rest, told),
            Part::Scripts => self.scripts.answer(alloc, row, told),
            Part::Histories => self.histories.answer(alloc, row, told),
        }
    }
}
