//! Reading the text of a log that comes in pieces.

ghost use Rattle.std.specs.Prelude.{◌≡◌, ◌↔◌, [], List, ℕ, OnOk, IsTrue, IsFalse};
ghost use Rattle.text.specs.Handed.{TakesOn};
ghost use Rattle.log_text.specs.Text.{EndsLine};
ghost use Rattle.log_text.specs.Keeping.{IsParsed};
ghost use Rattle.log_text.specs.Pieces.{HasRead, PassesFirst, ReadsTo, ReadsSome};

use crate::form::{Records, Version};
use crate::read::{put_lines, version_of};
use crate::stock::Stock;
use crate::tail::{Tail, split_tail, tail_behind, tail_of_header};
use std::alloc::{AllocError, Global};
use text::{Takes, cut};

/// How far the lines of a log were read.
#[derive(Clone, Copy, Debug, PartialEq, Eq)]
pub enum Stage {
    /// There was none yet.
    First,
    /// The first one told the version, and each one behind it was a record's.
    Lines(Version),
    /// No log begins with them: nothing counts any more.
    Broken,
}

/// What was kept of the lines of a log that were read.
#[derive(Drop)]
pub struct SoFar<L> {
    pub log: L,
    pub stage: Stage,
}

/// The reading of a log whose text comes in pieces, one behind another. Beside what is kept of the log, it holds what stands behind the
/// last line feed, and a line that began in an earlier piece. All other lines are read where they stand.
#[derive(Drop)]
pub struct Pieces<'a, L> {
    stock: Stock<'a>,
    so_far: SoFar<L>,
    rest: Vec<u8>,
}

impl<L: Records> SoFar<L> {
    /// Nothing was read yet. It takes no memory.
    fn new(alloc: Global) -> SoFar<L>
        ensures { HasRead L.forms L.Keeps [] result }
    {
        SoFar {
            log: L::new(alloc),
            stage: Stage::First,
        }
    }

    /// Reads these lines, each with its line feed, behind those that were read. Where memory is refused, nothing is said of what was read.
    fn add(&mut self, stock: &Stock<'_>, lines: &[u8]) -> Result<(), AllocError>
        requires { EndsLine lines.now }
        ensures { OnOk result (TakesOn (HasRead L.forms L.Keeps) lines.now self.old self.new) }
    {
        L::are_readable();
        let records = self.pass_first(lines);
        let Stage::Lines(version) = self.stage else {
            return Ok(());
        };
        if put_lines(stock, version, records, &mut self.log)? {
            return Ok(());
        }
        self.stage = Stage::Broken;
        Ok(())
    }

    /// Reads the first line, if none was read yet and there is one, and gives the lines behind it; else all of them.
    fn pass_first<'a>(&mut self, lines: &'a [u8]) -> &'a [u8]
        requires { EndsLine lines.now }
        ensures { PassesFirst L.forms L.Keeps lines.now result.now self.old self.new }
    {
        L::are_readable();
        if !is_first(self.stage) {
            return lines;
        }
        let Some((first, records)) = cut(lines, b'\n') else {
            return lines;
        };
        let Some(version) = version_of::<L>(first) else {
            self.stage = Stage::Broken;
            return records;
        };
        self.stage = Stage::Lines(version);
        records
    }
}

/// Whether no line was read yet.
fn is_first(stage: Stage) -> bool
    ensures yes { IsTrue result → stage ≡ Stage.First }
    ensures no { IsFalse result → stage ≡ Stage.First → ⊥ }
{
    matches!(stage, Stage::First)
}

impl<'a, L: Records> Pieces<'a, L> {
    /// Nothing was taken yet, and what is read may take texts over from the stock. It takes no memory.
    pub fn new(stock: Stock<'a>) -> Pieces<'a, L>
        ensures { ReadsTo L.forms L.Keeps [] result }
    {
        let alloc = stock.alloc;
        Pieces {
            stock,
            so_far: SoFar::new(alloc),
            rest: Vec::new(alloc),
        }
    }

    /// Whether the text that was taken is empty.
    pub fn is_empty(&self) -> bool
        ensures { (text : List ℕ) → ReadsTo L.forms L.Keeps text self.now → IsTrue result ↔ (text ≡ []) }
    {
        if !is_first(self.so_far.stage) {
            return false;
        }
        self.rest.as_slice().is_empty()
    }

    /// What is kept of the text that was taken, and how it ends. A damaged one tells nothing.
    pub fn finish(self) -> (L, Tail)
        requires { ReadsSome L.forms L.Keeps self }
        ensures { (text : List ℕ) → ReadsTo L.forms L.Keeps text self.entry → IsParsed L.forms L.Keeps text result.0 result.1 }
    {
        let Pieces {
            stock,
            so_far,
            rest,
        } = self;
        let SoFar { log, stage } = so_far;
        match stage {
            Stage::First => (log, tail_of_header::<L>(rest.as_slice())),
            Stage::Lines(version) => (log, tail_behind::<L>(version, rest.as_slice())),
            Stage::Broken => (L::new(stock.alloc), Tail::Damaged),
        }
    }
}

impl<'a, L: Records> Takes for Pieces<'a, L> {
    ghost use Rattle.log_text.specs.Pieces.{ReadsTo};

    ghost Took = { λ text pieces. ReadsTo L.forms L.Keeps text pieces };

    fn take(&mut self, piece: &[u8]) -> Result<(), AllocError> {
        let Some((front, behind)) = cut(piece, b'\n') else {
            self.rest.extend_from_slice(piece)?;
            return Ok(());
        };
        self.rest.extend_from_slice(front)?;
        self.rest.push(b'\n')?;
        self.so_far.add(&self.stock, self.rest.as_slice())?;
        let (lines, rest) = split_tail(behind);
        self.so_far.add(&self.stock, lines)?;
        self.rest.clear();
        self.rest.extend_from_slice(rest)?;
        Ok(())
    }
}
