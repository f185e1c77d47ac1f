//! What histories are made up of, and scenarios.

use crate::driven::push_driven;
use crate::ended::push_ended;
use crate::scenario::push_built;
use crate::trial::push_tried;
use meanwhile::Source;
use std::alloc::{AllocError, Global};
use std::io;
use tables::{Table, word};

/// The paths, and the build files or the lines of a scenario so far.
#[derive(Drop)]
pub struct Histories {
    outputs: String,
    sources: String,
    lines: String,
}

impl Histories {
    pub fn new(alloc: Global) -> Histories {
        Histories {
            outputs: String::new(alloc),
            sources: String::new(alloc),
            lines: String::new(alloc),
        }
    }

    fn begin(&mut self, outputs: &str) -> Result<(), AllocError> {
        self.sources.clear();
        self.lines.clear();
        self.outputs.clear();
        self.outputs.push_str(outputs)
    }

    fn push_line(&mut self, row: &str) -> Result<(), AllocError> {
        if !self.lines.is_empty() {
            self.lines.push('\n')?;
        }
        self.lines.push_str(row)
    }

    fn source<'a>(&'a self, row: &str) -> Source<'a> {
        let (count, seed) = word(row);
        Source {
            count: count.parse::<u64>().unwrap_or(0),
            seed: seed.parse::<u64>().unwrap_or(0),
            sources: self.sources.as_str(),
            outputs: self.outputs.as_str(),
            graphs: self.lines.as_str(),
        }
    }

    fn push_asked(
        &self,
        alloc: Global,
        first: &str,
        rest: &str,
        told: &mut String,
    ) -> Result<(), AllocError> {
        let mut bytes = Vec::new(alloc);
        if push_answer(alloc, first, self.source(rest), &mut bytes).is_err() {
            return Err(AllocError);
        }
        let text = String::from_utf8_lossy(alloc, &bytes)?;
        told.push_str(text.as_str())
    }
}

/// What a row asks whose first word this is.
fn push_answer(
    alloc: Global,
    first: &str,
    source: Source<'_>,
    told: &mut Vec<u8>,
) -> io::Result<()> {
    match first {
        "build" => push_built(alloc, source, false, told),
        "trusting" => push_built(alloc, source, true, told),
        "ended" => push_ended(alloc, source, told),
        "driven" => push_driven(alloc, source, told),
        "trusted" => push_tried(alloc, source, true, told),
        _ => push_tried(alloc, source, false, told),
    }
}

impl Table for Histories {
    fn answer(&mut self, alloc: Global, row: &str, told: &mut String) -> Result<bool, AllocError> {
        let (first, rest) = word(row);
        match first {
            "outputs" => self.begin(rest)?,
            "sources" => self.sources.push_str(rest)?,
            "build" => {
                self.push_line(row)?;
                self.push_asked(alloc, first, rest, told)?;
                return Ok(true);
            }
            "ended" | "driven" | "trusting" | "seen" | "trusted" => {
                self.push_asked(alloc, first, rest, told)?;
                return Ok(true);
            }
            _ => self.push_line(row)?,
        }
        Ok(false)
    }
}
