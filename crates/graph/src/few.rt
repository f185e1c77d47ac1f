//! A list of paths that is short mostly.

ghost use Rattle.std.specs.Prelude.{◌≡◌, ◌++◌, ◌∷◌, [], length, OnOk, OnErr};

use paths::PathId;
use smallvec::SmallVec;
use std::alloc::{AllocFailed, Global};
use std::marker::Model;

/// Some paths, which contracts see as a list. Up to four take no memory of their own.
#[derive(Drop)]
pub struct Few {
    paths: SmallVec<PathId, 4>,
}

impl Model for Few {
    ghost use Rattle.std.specs.Prelude.{ℕ, List};

    ghost Value = { List ℕ };

    ghost view = { λ few. few.paths.items };
}

impl Few {
    /// None, which takes no memory.
    pub(crate) fn new(alloc: Global) -> Few
        ensures { result ≡ [] }
    {
        Few {
            paths: SmallVec::new(alloc),
        }
    }

    /// How many there are.
    pub fn len(&self) -> usize
        ensures { result ≡ length self.now }
    {
        self.as_slice().len()
    }

    /// The paths, borrowed.
    pub fn as_slice(&self) -> &[PathId]
        ensures { result.now ≡ self.now }
    {
        self.paths.as_slice()
    }

    /// Puts a path at the end. Where memory is refused, the list stays as it was and the path comes back.
    pub(crate) fn push(&mut self, path: PathId) -> Result<(), AllocFailed<PathId>>
        ensures ok { OnOk result (self.new ≡ self.old ++ path ∷ []) }
        ensures err { OnErr result (self.new ≡ self.old) }
    {
        self.paths.push(path)
    }
}
