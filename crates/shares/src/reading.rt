//! A trace that comes in pieces, read line by line.

ghost use Rattle.std.specs.Prelude.{◌≡◌, ◌∷◌, ◌++◌, [], List, ℕ, OnOk};
ghost use Rattle.text.specs.Marks.{Lacks};
ghost use Rattle.shares.specs.Reading.{HasRead, ReadsOn, ReadsTo, ReadsWhole};

use std::alloc::{AllocError, Global};
use text::{Takes, cut};

/// Whoever is handed lines, one behind another.
pub trait TakesLines {
    ghost use Rattle.std.specs.Prelude.{List, ℕ};

    /// These lines were taken so far.
    ghost Read: { List (List ℕ) → Self → Type 0 };

    /// Takes the line that comes next, without its line feed. Where memory is refused, nothing is said of what was taken.
    fn take_line(&mut self, alloc: Global, line: &[u8]) -> Result<(), AllocError>
        ensures { OnOk result (ReadsOn Read line.now self.old self.new) };
}

/// Hands lines on, of a text that comes in pieces, one behind another. What stands behind the last line feed is no line yet; it holds that.
#[derive(Drop)]
pub struct Lines<T> {
    alloc: Global,
    pub taker: T,
    pub rest: Vec<u8>,
}

impl<T: TakesLines> Lines<T> {
    /// Nothing was taken yet. This takes no memory.
    pub fn new(alloc: Global, taker: T) -> Lines<T>
        ensures { T.Read [] taker → ReadsTo T.Read [] result }
    {
        Lines {
            alloc,
            taker,
            rest: Vec::new(alloc),
        }
    }

    /// Who took the lines. What stands behind the last line feed is let go.
    pub fn into_taker(self) -> T
        ensures { HasRead T.Read self result }
    {
        let Lines { taker, .. } = self;
        taker
    }

    /// Takes what stands in front of the next line feed.
    fn end_line(&mut self, front: &[u8]) -> Result<(), AllocError>
        requires { Lacks 10 front.now }
        ensures { OnOk result (ReadsWhole T.Read front.now self.old self.new) }
    {
        self.rest.extend_from_slice(front)?;
        self.taker.take_line(self.alloc, self.rest.as_slice())?;
        self.rest.clear();
        Ok(())
    }
}

impl<T: TakesLines> Takes for Lines<T> {
    ghost use Rattle.shares.specs.Reading.{ReadsTo};

    ghost Took = { λ text lines. ReadsTo T.Read text lines };

    fn take(&mut self, piece: &[u8]) -> Result<(), AllocError> {
        let mut left = piece;
        'lines: while let Some((front, behind)) = cut(left, b'\n') {
            self.end_line(front)?;
            left = behind;
        }
        self.rest.extend_from_slice(left)?;
        Ok(())
    }
}
