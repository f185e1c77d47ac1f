//! The paths that a depfile lists.

ghost use Rattle.std.specs.Prelude.{◌≡◌, [], IfOk, map};
ghost use Rattle.std.specs.Cow.{cow_str_bytes};

use indexmap::IndexSet;
use std::alloc::{AllocError, Global};
use std::borrow::CowStr;
use std::marker::Model;
use text::{Items, Path};

/// Paths that a depfile lists, each once, in the order in which they stand first, which contracts see as a list.
///
/// A path is borrowed where the depfile spells it as it is listed, as nearly all do, and owned else.
#[derive(Drop)]
pub struct Listed<'a> {
    paths: IndexSet<CowStr<'a>>,
}

impl<'a> Model for Listed<'a> {
    ghost use Rattle.std.specs.Prelude.{ℕ, List, map};
    ghost use Rattle.std.specs.Cow.{cow_str_bytes};

    ghost Value = { List (List ℕ) };

    ghost view = { λ listed. map cow_str_bytes listed.paths.keys };
}

impl<'a> Listed<'a> {
    /// No paths, which takes no memory.
    pub fn new(alloc: Global) -> Listed<'a>
        ensures { result ≡ [] }
    {
        Listed {
            paths: IndexSet::new(alloc),
        }
    }

    /// The paths of a set, which takes no memory.
    pub(crate) fn from_set(paths: IndexSet<CowStr<'a>>) -> Listed<'a>
        ensures { result ≡ map cow_str_bytes paths.entry.keys }
    {
        Listed { paths }
    }

    /// The paths, each where it stands.
    pub fn texts(&self, alloc: Global) -> Result<Vec<&str>, AllocError>
        ensures { IfOk result (λ texts. map (λ text. text.now) texts.items ≡ self.now) }
    {
        let mut texts = Vec::with_capacity(alloc, self.paths.len())?;
        for path in self.paths.as_slice() {
            texts.push(path.as_str())?;
        }
        Ok(texts)
    }

    /// The paths as a list that borrows nothing.
    pub fn into_paths(self, alloc: Global) -> Result<Items<Path>, AllocError>
        ensures { IfOk result (λ paths. paths ≡ self.entry) }
    {
        let Listed { paths } = self;
        let mut list = Vec::with_capacity(alloc, paths.len())?;
        for path in paths {
            list.push(Path::from_string(path.into_owned(alloc)?))?;
        }
        Ok(Items::from_vec(list))
    }
}
