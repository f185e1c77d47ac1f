//! Histories of edits and builds in memory, in which something goes wrong.
//!
//! A row `outputs PATH..` begins one, and says whose files are looked at in its end; each row behind it is a move, as `lines` says.
//! `stop_in_wait N` and `refuse_remove N` name what goes wrong on a site on which these are carried out as one list, and `sources PATH..` what is
//! written beside outputs in histories that are made up. The rows that `push_asked` names ask of the history as far as it has come.

use crate::clean_site::push_clean;
use crate::driven::{push_calls, push_driven};
use crate::each_call::push_swept;
use crate::lines::Row;
use crate::places::{ALONE, MANNERS};
use crate::trial::push_tried;
use meanwhile::{Source, push_meanwhile};
use std::alloc::{AllocError, Global};
use std::io;
use tables::word;

/// A history, as far as it has come.
#[derive(Drop)]
pub struct Histories {
    outputs: String,
    sources: String,
    moves: String,
    stop_in_wait: u64,
    refuse_remove: u64,
}

/// The number of a call that no history comes to.
const NEVER: u64 = u64::MAX;

impl Histories {
    pub fn new(alloc: Global) -> Histories {
        Histories {
            outputs: String::new(alloc),
            sources: String::new(alloc),
            moves: String::new(alloc),
            stop_in_wait: NEVER,
            refuse_remove: NEVER,
        }
    }

    pub fn answer(
        &mut self,
        alloc: Global,
        row: &str,
        told: &mut String,
    ) -> Result<bool, AllocError> {
        let (first, rest) = word(row);
        match first {
            "each_call"
            | "each_call_alone"
            | "drive"
            | "calls"
            | "clean"
            | "made_up"
            | "meanwhile" => {
                self.push_answer(alloc, first, rest, told)?;
                return Ok(true);
            }
            "outputs" => self.begin(rest)?,
            "sources" => self.sources.push_str(rest)?,
            "stop_in_wait" => self.stop_in_wait = rest.parse().unwrap_or(NEVER),
            "refuse_remove" => self.refuse_remove = rest.parse().unwrap_or(NEVER),
            _ => self.push_move(row)?,
        }
        Ok(false)
    }

    fn begin(&mut self, outputs: &str) -> Result<(), AllocError> {
        self.stop_in_wait = NEVER;
        self.refuse_remove = NEVER;
        self.sources.clear();
        self.moves.clear();
        self.outputs.clear();
        self.outputs.push_str(outputs)
    }

    fn push_move(&mut self, row: &str) -> Result<(), AllocError> {
        if !self.moves.is_empty() {
            self.moves.push('\n')?;
        }
        self.moves.push_str(row)
    }

    fn push_answer(
        &self,
        alloc: Global,
        first: &str,
        rest: &str,
        told: &mut String,
    ) -> Result<(), AllocError> {
        let mut bytes = Vec::new(alloc);
        if push_asked(alloc, self.row(), self.source(rest), first, &mut bytes).is_err() {
            return Err(AllocError);
        }
        let text = String::from_utf8_lossy(alloc, &bytes)?;
        told.push_str(text.as_str())
    }

    fn row(&self) -> Row<'_> {
        Row {
            outputs: self.outputs.as_str(),
            moves: self.moves.as_str(),
            stop_in_wait: self.stop_in_wait,
            refuse_remove: self.refuse_remove,
        }
    }

    fn source<'a>(&'a self, row: &str) -> Source<'a> {
        let (count, seed) = word(row);
        Source {
            count: count.parse::<u64>().unwrap_or(0),
            seed: seed.parse::<u64>().unwrap_or(0),
            sources: self.sources.as_str(),
            outputs: self.outputs.as_str(),
            graphs: self.moves.as_str(),
        }
    }
}

/// `each_call`: the history, in which each call goes wrong in turn, in each manner; `each_call_alone`: where one command runs at a time. `drive`: the history as one list of moves. `calls`: which calls of a site
/// that list makes. `clean`: what a clean build leaves behind the edits. `made_up COUNT SEED`: so many histories that are made up, whose
/// build files are the moves of this one. `meanwhile COUNT SEED`: the same, in which somebody writes while commands run; each build file
/// makes all outputs, and commands may write `tmp`.
fn push_asked(
    alloc: Global,
    row: Row<'_>,
    source: Source<'_>,
    first: &str,
    told: &mut Vec<u8>,
) -> io::Result<()> {
    match first {
        "each_call" => push_swept(alloc, row, &MANNERS, told),
        "each_call_alone" => push_swept(alloc, row, &ALONE, told),
        "drive" => push_driven(alloc, row, told),
        "calls" => push_calls(alloc, row, told),
        "clean" => push_clean(alloc, source, row.moves, told),
        "meanwhile" => push_meanwhile(alloc, source, told),
        _ => push_tried(alloc, source, told),
    }
}
