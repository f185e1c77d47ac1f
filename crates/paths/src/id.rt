//! The numbers of paths and of edges.

ghost use Rattle.std.specs.Prelude.{◌≡◌, ◌<◌, ◌^◌, suc, nat_lt, None, Some, if◌then◌else◌};

use std::marker::Model;

/// The number of a path: its place in the table of paths, from 0.
#[derive(Clone, Copy, Debug, PartialEq, Eq, Hash)]
pub struct PathId {
    place: u32,
}

impl Model for PathId {
    ghost use Rattle.std.specs.Prelude.{ℕ};

    ghost Value = { ℕ };

    ghost view = { λ id. id.place };

    ghost inverse = { λ place. record { place = place } };
}

/// The first path, where a list that is lent without memory wants something in its places.
impl Default for PathId {
    fn default() -> PathId {
        PathId { place: 0 }
    }
}

impl PathId {
    /// The path at this place; none for a place that no number has, from 2 to the 32 on.
    pub fn at(place: usize) -> Option<PathId>
        ensures { result ≡ (if nat_lt place (2 ^ 32) then Some place else None) }
    {
        let place = u32::try_from(place).ok()?;
        Some(PathId { place })
    }

    /// Its place in the table, from 0.
    pub fn index(self) -> usize
        ensures place { result ≡ self }
        ensures small { result < 2 ^ 32 }
    {
        self.place as usize
    }
}

/// The number of an edge: its place in reading order, from 0.
#[derive(Clone, Copy, Debug, PartialEq, Eq, Hash)]
pub struct EdgeId {
    place: u32,
}

impl Model for EdgeId {
    ghost use Rattle.std.specs.Prelude.{ℕ};

    ghost Value = { ℕ };

    ghost view = { λ id. id.place };

    ghost inverse = { λ place. record { place = place } };
}

impl EdgeId {
    /// The edge at a place that a number has.
    pub fn at_below(place: usize) -> EdgeId
        requires { place < 2 ^ 32 }
        ensures { result ≡ place }
    {
        EdgeId {
            place: place as u32,
        }
    }

    /// The edge at this place; none for a place that no number has, from 2 to the 32 on.
    pub fn at(place: usize) -> Option<EdgeId>
        ensures { result ≡ (if nat_lt place (2 ^ 32) then Some place else None) }
    {
        let place = u32::try_from(place).ok()?;
        Some(EdgeId { place })
    }

    /// Its place in lists of edges, from 0.
    pub fn index(self) -> usize
        ensures place { result ≡ self }
        ensures small { result < 2 ^ 32 }
    {
        self.place as usize
    }

    /// The number by which messages and events name the edge and its command, from 1.
    pub fn job(self) -> usize
        ensures { result ≡ suc self }
    {
        self.index() + 1
    }
}
