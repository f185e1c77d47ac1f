//! Paths of build lines that lead to one file.

use crate::around::Names;
use indexmap::IndexMap;
use std::alloc::{AllocError, Global};
use text::Path;

/// For each file that build lines spell in two ways or more, each pair of the first spelling and another one; and for each path, from the root,
/// the pairs in which it is. All of it takes a room and a time of the order of the paths, also where they all lead to one file.
#[derive(Drop)]
pub struct Twins {
    /// The first spelling of each file, by what tells it from others.
    first: IndexMap<String, String>,
    /// Each pair, as it is told.
    pairs: Vec<String>,
    members: Vec<Member>,
    /// Where the members begin and end of the path.
    paths: IndexMap<String, Members>,
}

/// A pair in which a path is, and the next member of that path.
#[derive(Clone, Copy)]
struct Member {
    pair: usize,
    next: Option<usize>,
}

/// The first and the last member of a path.
#[derive(Clone, Copy)]
struct Members {
    first: usize,
    last: usize,
}

impl Twins {
    /// None. This takes no memory.
    pub fn new(alloc: Global) -> Twins {
        Twins {
            first: IndexMap::new(alloc),
            pairs: Vec::new(alloc),
            members: Vec::new(alloc),
            paths: IndexMap::new(alloc),
        }
    }

    /// Takes in that a path, as build lines spell it, leads to this file.
    pub fn add(
        &mut self,
        alloc: Global,
        names: &Names,
        path: &str,
        file: String,
    ) -> Result<(), AllocError> {
        let Some(first) = self.first_of(alloc, file.as_str())? else {
            let _ = self.first.insert(file, String::from_str(alloc, path)?)?;
            return Ok(());
        };
        let pair = self.pairs.len();
        self.pairs
            .push(format!(in alloc; "{first}, and as {path}")?)?;
        self.put(names.whole(alloc, first.as_str())?, pair)?;
        self.put(names.whole(alloc, path)?, pair)
    }

    /// The first spelling of a file, if it was seen before.
    fn first_of(&self, alloc: Global, file: &str) -> Result<Option<String>, AllocError> {
        match self.first.get(file) {
            Some(first) => Ok(Some(String::from_str(alloc, first.as_str())?)),
            None => Ok(None),
        }
    }

    /// Takes in that the path is in this pair, behind those in which it is.
    fn put(&mut self, path: Path, pair: usize) -> Result<(), AllocError> {
        let place = self.members.len();
        self.members.push(Member { pair, next: None })?;
        let first = match self.paths.get(path.as_str()).copied() {
            Some(members) => {
                self.follow(members.last, place);
                members.first
            }
            None => place,
        };
        let members = Members { first, last: place };
        let _ = self.paths.insert(path.into_string(), members)?;
        Ok(())
    }

    /// Puts the second member behind the first one.
    fn follow(&mut self, place: usize, next: usize) {
        if place < self.members.len() {
            self.members[place].next = Some(next);
        }
    }

    /// How many members all paths have.
    pub fn len(&self) -> usize {
        self.members.len()
    }

    /// The first member of this path, if build lines spell its file in two ways or more.
    pub fn at(&self, path: &str) -> Option<usize> {
        let members = self.paths.get(path).copied()?;
        Some(members.first)
    }

    /// The member that comes behind this one.
    pub fn next(&self, place: usize) -> Option<usize> {
        let member = self.members.get(place).copied()?;
        member.next
    }

    /// How build lines spell a file in two ways, by this member of a path.
    pub fn both(&self, place: usize) -> &str {
        let Some(member) = self.members.get(place).copied() else {
            return "";
        };
        match self.pairs.get(member.pair) {
            Some(both) => both.as_str(),
            None => "",
        }
    }
}
