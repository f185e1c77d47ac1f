//! The table of paths.

ghost use Rattle.std.specs.Prelude.{◌≡◌, ◌<◌, ◌≤◌, ◌^◌, [], false, length, slice_get, take, Some, MatchOption, IfOk, OnErr};
ghost use Rattle.std.specs.Option.{option_map};
ghost use Rattle.std.specs.Map.Iter.{deref};
ghost use Rattle.model.specs.Graph.{has};
ghost use Rattle.paths.specs.Numbers.{IsAdded, HaveOnePlace};

use crate::id::PathId;
use indexmap::IndexSet;
use std::alloc::{AllocError, Global};
use std::marker::Model;

/// The texts of paths, each once, which contracts see as the list of these texts. The number of a path is its place, so
/// paths are numbered in the order in which they were added. Texts are only added, and none changes its number.
#[derive(Drop)]
pub struct Paths {
    texts: IndexSet<String>,
}

impl Model for Paths {
    ghost use Rattle.std.specs.Prelude.{ℕ, List, map, string_bytes};
    ghost use Rattle.paths.specs.Numbers.{HaveOnePlace, IsSmall};

    ghost Value = { List (List ℕ) };

    ghost view = { λ paths. map string_bytes paths.texts.keys };

    ghost invariant = { λ paths. HaveOnePlace (map string_bytes paths.texts.keys) × IsSmall (map string_bytes paths.texts.keys) };
}

impl Paths {
    /// A table without paths, which takes no memory.
    pub fn new(alloc: Global) -> Paths
        ensures { result ≡ [] }
    {
        Paths {
            texts: IndexSet::new(alloc),
        }
    }

    /// How many paths there are.
    pub fn len(&self) -> usize
        ensures count { result ≡ length self.now }
        ensures once { HaveOnePlace self.now }
        ensures small { result ≤ 2 ^ 32 }
    {
        self.texts.len()
    }

    /// The number of a path; none where it was not added. It takes no memory.
    pub fn number_of(&self, path: &str) -> Option<PathId>
        ensures place { MatchOption result (has self.now path.now ≡ false) (λ number. slice_get self.now number ≡ Some path.now) }
        ensures once { HaveOnePlace self.now }
    {
        PathId::at(self.texts.get_index_of(path)?)
    }

    /// The text of a path.
    pub fn text(&self, number: PathId) -> &str
        requires { number < length self.now }
        ensures { slice_get self.now number ≡ Some result.now }
    {
        self.texts.as_slice()[number.index()].as_str()
    }

    /// The text of a path; none for a number that no path of this table has.
    pub fn get(&self, number: PathId) -> Option<&str>
        ensures { option_map deref result ≡ slice_get self.now number }
    {
        if number.index() < self.texts.len() {
            Some(self.text(number))
        } else {
            None
        }
    }

    /// The number of a path, which is added where it was not. One that is known takes no memory.
    ///
    /// Where memory is refused, the table stays as it was. A path past the first 2 to the 32 is refused so.
    pub fn add(&mut self, alloc: Global, path: &str) -> Result<PathId, AllocError>
        ensures added { IfOk result (IsAdded self.old self.new path.now) }
        ensures err { OnErr result (self.new ≡ self.old) }
    {
        if let Some(number) = self.number_of(path) {
            return Ok(number);
        }
        let Some(number) = PathId::at(self.texts.len()) else {
            return Err(AllocError);
        };
        self.texts.insert(String::from_str(alloc, path)?)?;
        Ok(number)
    }

    /// Takes back the paths past the first so many, which takes no memory.
    pub fn truncate(&mut self, count: usize)
        ensures { self.new ≡ take count self.old }
    {
        self.texts.truncate(count);
    }
}
