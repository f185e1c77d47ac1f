//! The recorded inputs of each edge, in flat memory.

ghost use Rattle.std.specs.Prelude.{◌≡◌, ◌<◌, [], length, slice_set, IfOk, OnOk, OnErr};
ghost use Rattle.std.proofs.Math.ListN.{replicate};
ghost use Rattle.graph.specs.Held.{list_at, OthersStay};
ghost use Rattle.graph.specs.LoadedEdges.{numbers_in, EachLoaded};

use crate::back::LoadedEdge;
use crate::path_set::PathSet;
use paths::{EdgeId, PathId};
use std::alloc::{AllocError, Global};
use std::marker::Model;
use std::mem;

/// Where the recorded inputs of an edge stand.
#[derive(Clone, Copy)]
pub struct Span {
    pub start: usize,
    pub stop: usize,
}

/// The recorded inputs of edges, which contracts see as one list for each edge. An edge takes 16 bytes, and 4 for each
/// of its recorded inputs. What an edge gains moves no other one.
#[derive(Drop)]
pub struct Recorded {
    numbers: Vec<PathId>,
    spans: Vec<Span>,
    /// Lends its room to what gains inputs. What it holds counts for nothing.
    room: PathSet,
}

impl Model for Recorded {
    ghost use Rattle.std.specs.Prelude.{ℕ, List, map, length};

    ghost Value = { List (List ℕ) };

    ghost use Rattle.graph.specs.Spans.{span_of, AreSpansIn};

    ghost view = { λ recorded. map (span_of recorded.numbers.items) recorded.spans.items };

    ghost invariant = { λ recorded. AreSpansIn (length recorded.numbers.items) recorded.spans.items };
}

impl Recorded {
    /// So many edges without recorded inputs.
    pub fn none(alloc: Global, edges: usize) -> Result<Recorded, AllocError>
        ensures { IfOk result (λ recorded. recorded ≡ replicate edges []) }
    {
        Ok(Recorded {
            numbers: Vec::new(alloc),
            spans: vec![in alloc; Span { start: 0, stop: 0 }; edges]?,
            room: PathSet::new(alloc),
        })
    }

    /// The recorded inputs of the edge, in the order in which they came.
    pub fn at(&self, edge: EdgeId) -> &[PathId]
        requires { edge < length self.now }
        ensures { result.now ≡ list_at self.now edge }
    {
        let span = self.spans[edge.index()];
        &self.numbers[span.start..span.stop]
    }

    /// Room for so many more recorded inputs.
    pub(crate) fn reserve(&mut self, inputs: usize) -> Result<(), AllocError>
        ensures { self.new ≡ self.old }
    {
        self.numbers.reserve(inputs)
    }

    /// Gives the edge these recorded inputs in place of those that it had. Where memory is refused, it keeps them.
    pub fn set(&mut self, edge: EdgeId, inputs: &[PathId]) -> Result<(), AllocError>
        requires { edge < length self.old }
        ensures ok { OnOk result (self.new ≡ slice_set self.old edge inputs.now) }
        ensures err { OnErr result (self.new ≡ self.old) }
    {
        let start = self.numbers.len();
        self.numbers.extend_from_slice(inputs)?;
        self.spans[edge.index()] = Span {
            start,
            stop: self.numbers.len(),
        };
        Ok(())
    }

    /// Lets the recorded inputs of these edges go, which takes no memory.
    pub(crate) fn forget(&mut self, edges: &[LoadedEdge])
        requires { EachLoaded edges.now (λ edge. edge < length self.old) }
        ensures fits { length self.new ≡ length self.old }
        ensures gone { EachLoaded edges.now (λ edge. list_at self.new edge ≡ []) }
        ensures others { OthersStay (numbers_in edges.now) self.old self.new }
    {
        for loaded in edges {
            self.forget_one(loaded.edge);
        }
    }

    fn forget_one(&mut self, edge: EdgeId)
        requires { edge < length self.old }
        ensures { self.new ≡ slice_set self.old edge [] }
    {
        self.spans[edge.index()] = Span { start: 0, stop: 0 };
    }

    /// A set without paths, with the room that is lent.
    pub(crate) fn take_room(&mut self, alloc: Global) -> PathSet
        ensures room { result ≡ [] }
        ensures same { self.new ≡ self.old }
    {
        let mut room = mem::replace(&mut self.room, PathSet::new(alloc));
        room.clear();
        room
    }

    /// Gives the room back.
    pub(crate) fn put_room(&mut self, room: PathSet)
        ensures { self.new ≡ self.old }
    {
        self.room = room;
    }
}
