//! Paths, each once.

ghost use Rattle.std.specs.Prelude.{◌≡◌, ◌<◌, [], ℕ, OnOk, length, get_or};
ghost use Rattle.graph.specs.Held.{HasPut, StandOnce};

use paths::PathId;
use std::alloc::{AllocError, Global};
use std::marker::Model;

/// Paths, each once, in the order in which they came: contracts see their list.
///
/// For each path that ever stood in it 4 bytes are kept, so that a path is looked up in one place, and to empty it touches
/// none.
#[derive(Drop)]
pub struct PathSet {
    paths: Vec<PathId>,
    /// For each path the last round in which it was put in, or 0.
    rounds: Vec<u32>,
    /// The present round, from 1 on.
    round: u32,
}

impl Model for PathSet {
    ghost use Rattle.std.specs.Prelude.{ℕ, List};
    ghost use Rattle.graph.specs.Marked.{AreOfRound};

    ghost Value = { List ℕ };

    ghost view = { λ set. set.paths.items };

    ghost invariant = { λ set. AreOfRound set.paths.items set.rounds.items set.round };
}

impl PathSet {
    /// No paths, which takes no memory.
    pub(crate) fn new(alloc: Global) -> PathSet
        ensures { result ≡ [] }
    {
        PathSet {
            paths: Vec::new(alloc),
            rounds: Vec::new(alloc),
            round: 1,
        }
    }

    /// Lets all paths go, and keeps the room.
    pub(crate) fn clear(&mut self)
        ensures { self.new ≡ [] }
    {
        self.paths.clear();
        match self.round.checked_add(1) {
            Some(next) => self.round = next,
            None => {
                self.rounds.clear();
                self.round = 1;
            }
        }
    }

    /// How many paths there are.
    pub(crate) fn len(&self) -> usize
        ensures { result ≡ length self.now }
    {
        self.paths.len()
    }

    /// The paths.
    pub(crate) fn as_slice(&self) -> &[PathId]
        ensures paths { result.now ≡ self.now }
        ensures once { StandOnce self.now }
    {
        self.paths.as_slice()
    }

    /// Puts a path in, where it is not in.
    #[inline(always)]
    pub fn insert(&mut self, path: PathId) -> Result<(), AllocError>
        ensures { OnOk result (HasPut self.old path self.new) }
    {
        let place = path.index();
        reach(&mut self.rounds, place)?;
        if self.rounds[place] != self.round {
            self.paths.push(path)?;
            self.rounds[place] = self.round;
        }
        Ok(())
    }
}

/// Makes a list so long that it has an entry at this place.
fn reach(rounds: &mut Vec<u32>, place: usize) -> Result<(), AllocError>
    ensures reached { OnOk result (place < length rounds.new.items) }
    ensures same { (k : ℕ) → get_or rounds.new.items k 0 ≡ get_or rounds.old.items k 0 }
{
    if rounds.len() <= place {
        lengthen(rounds, place)?;
    }
    Ok(())
}

/// The same, where it has none.
#[inline(never)]
fn lengthen(rounds: &mut Vec<u32>, place: usize) -> Result<(), AllocError>
    ensures reached { OnOk result (place < length rounds.new.items) }
    ensures same { (k : ℕ) → get_or rounds.new.items k 0 ≡ get_or rounds.old.items k 0 }
{
    while rounds.len() <= place {
        rounds.push(0)?;
    }
    Ok(())
}
