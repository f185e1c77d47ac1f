//! Which files of one name were read after another one was looked for.

use audit::{Lists, Use, Uses};
use paths::Paths;
use std::alloc::{AllocError, Global};

/// For each path that a command came to the first one from there on that is reported, was read and has the same last part: their places, that of
/// the last path first.
#[derive(Drop)]
pub struct Later {
    places: Vec<Option<usize>>,
}

/// Names, and for each the place that was found last.
#[derive(Drop)]
struct Nearest {
    names: Paths,
    places: Vec<Option<usize>>,
}

impl Later {
    /// Each path is looked at once.
    pub fn of(alloc: Global, lists: &Lists, uses: &Uses) -> Result<Later, AllocError> {
        let mut places = Vec::with_capacity(alloc, uses.len())?;
        let mut nearest = Nearest {
            names: Paths::new(alloc),
            places: Vec::new(alloc),
        };
        for back in 0..uses.len() {
            let place = place_from_last(uses, back);
            let path = uses.path(place).unwrap_or("");
            let found = found_at(lists, uses, place);
            places.push(nearest.take(alloc, name_in(path), found)?)?;
        }
        Ok(Later { places })
    }

    /// The path that belongs to the one in this place, if there is one.
    pub fn at<'u>(&self, uses: &'u Uses, place: usize) -> Option<&'u str> {
        let found = self
            .places
            .get(place_from_last(uses, place))
            .copied()
            .flatten()?;
        uses.path(found)
    }
}

impl Nearest {
    /// Takes in what was found for a name, if something was; what was found for it last.
    fn take(
        &mut self,
        alloc: Global,
        name: &str,
        found: Option<usize>,
    ) -> Result<Option<usize>, AllocError> {
        let number = self.names.add(alloc, name)?.index();
        if number >= self.places.len() {
            self.places.push(found)?;
            return Ok(found);
        }
        if found.is_some() {
            self.places[number] = found;
        }
        Ok(self.places[number])
    }
}

/// The place that is as far from the last one as this one is from the first, and the other way round.
fn place_from_last(uses: &Uses, place: usize) -> usize {
    uses.len().saturating_sub(place.saturating_add(1))
}

/// The place, if its path is reported and was read.
fn found_at(lists: &Lists, uses: &Uses, place: usize) -> Option<usize> {
    let path = uses.path(place)?;
    if is_read(uses.used(place)) && lists.reported.number_of(path).is_some() {
        return Some(place);
    }
    None
}

fn is_read(used: Option<Use>) -> bool {
    match used {
        Some(used) => used.reads,
        None => false,
    }
}

/// The last part of a path.
fn name_in(path: &str) -> &str {
    match path.rsplit_once('/') {
        Some((_, name)) => name,
        None => path,
    }
}
