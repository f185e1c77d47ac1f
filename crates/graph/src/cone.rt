//! The edges that a build needs.

ghost use Rattle.std.specs.Prelude.{◌≡◌, vec_len};
ghost use Rattle.graph.specs.Places.{ArePlaces};

use crate::graph::Graph;
use crate::placed::places_of;
use crate::walk::Walk;
use paths::{EdgeId, PathId};
use std::alloc::{AllocError, AllocFailed, Global};
use text::Items;

/// Why targets have no cone.
#[derive(Debug, Drop)]
pub enum ConeFault {
    /// A growth of memory was refused.
    Memory,
    /// A target that no build line names: its place among the targets.
    Unknown(usize),
    /// Edges need one another in a circle. The numbers of paths lead round it: each path is made by an edge that needs
    /// the next one. They begin and end with the path of the lowest edge.
    Cycle(Items<PathId>),
}

impl From<AllocError> for ConeFault {
    ghost use Rattle.std.specs.Prelude.{◌≡◌};
    ghost use Rattle.graph.specs.declared.cone.ConeFault.TheVariants.{Memory};

    ghost from_gives = { λ _ fault. fault ≡ Memory };

    fn from(_: AllocError) -> ConeFault {
        ConeFault::Memory
    }
}

impl<T: Drop> From<AllocFailed<T>> for ConeFault {
    ghost use Rattle.std.specs.Prelude.{◌≡◌};
    ghost use Rattle.graph.specs.declared.cone.ConeFault.TheVariants.{Memory};

    ghost from_gives = { λ _ fault. fault ≡ Memory };

    fn from(_: AllocFailed<T>) -> ConeFault {
        ConeFault::Memory
    }
}

/// How far a walk has come with an edge.
#[derive(Clone, Copy, Debug, PartialEq, Eq)]
pub enum Mark {
    Unseen,
    /// Some of its inputs are still looked at.
    Open,
    /// It is in the cone, after the makers of all its inputs.
    Listed,
}

impl Mark {
    ghost use Rattle.std.specs.Prelude.{◌≡◌};
    ghost use Rattle.graph.specs.Cone.{is_listed};

    pub fn is_listed(self) -> bool
        ensures { result ≡ is_listed self }
    {
        matches!(self, Mark::Listed)
    }
}

/// The edges that are needed, each once and after the makers of its inputs and recorded inputs. It takes 4 bytes for each
/// of them and for each target, and nine for each edge of the graph.
#[derive(Drop)]
pub struct Cone {
    pub order: Vec<EdgeId>,
    /// For each edge of the graph, whether it is listed.
    pub marks: Vec<Mark>,
    /// For each edge of the graph its place in the order, if it is listed.
    pub places: Vec<usize>,
    /// What is built: the targets that were asked for, or what is built where there are none.
    pub targets: Vec<PathId>,
    ghost sized: { vec_len places ≡ vec_len marks },
    ghost placed: { ArePlaces order.items places.items },
}

impl Cone {
    ghost use Rattle.std.specs.Prelude.{◌≡◌, ◌<◌, IfOk, IfErr, true, vec_len, length};
    ghost use Rattle.graph.specs.Cone.{is_listed, mark_at, IsConeFrom, IsConeFault};
    ghost use Rattle.graph.specs.Links.{links_of, AllEdges, EachIsEdge};
    ghost use Rattle.graph.specs.ConeOf.{IsConeForAll, IsFaultForEach};
    ghost use Rattle.graph.specs.Placed.{StandsBefore};
    ghost use Rattle.graph.specs.Places.{place_in};

    /// These edges, those that make what they need, those that make what they name for validation, and so on. A circle
    /// of edges that need one another is refused; validations make none.
    #[inline(always)]
    pub fn of(
        alloc: Global,
        graph: &Graph,
        targets: Vec<PathId>,
        requested: &[EdgeId],
    ) -> Result<Cone, ConeFault>
        requires { EachIsEdge graph.now requested.now }
        ensures cone { IfOk result (λ cone. IsConeFrom graph.now requested.now cone) }
        ensures marks { IfOk result (λ cone. vec_len cone.marks ≡ length graph.now.manifest.lines) }
        ensures within { IfOk result (λ cone. AllEdges graph.now cone.order.items) }
        ensures targets { IfOk result (λ cone. cone.targets ≡ targets) }
        ensures cone_of { IfOk result (λ cone. IsConeForAll graph.now requested.now cone) }
        ensures fault { IfErr result (IsConeFault (links_of graph.now) requested.now) }
        ensures shown { IfErr result (IsFaultForEach (links_of graph.now) requested.now) }
    {
        let mut walk = Walk::new(alloc, graph, requested)?;
        walk.list_requested()?;
        walk.list_validators()?;
        let Walk { order, marks, .. } = walk;
        let places = places_of(alloc, &order, graph.edges())?;
        Ok(Cone {
            order,
            marks,
            places,
            targets,
        })
    }

    /// Whether the edge is in the cone.
    pub fn has(&self, edge: EdgeId) -> bool
        requires { edge < vec_len self.now.marks }
        ensures { result ≡ is_listed (mark_at self.now.marks.items edge) }
    {
        self.marks[edge.index()].is_listed()
    }

    /// Whether the first edge is listed, and stands in front of the second.
    pub(crate) fn is_before(&self, first: EdgeId, second: EdgeId) -> bool
        requires first { first < vec_len self.now.marks }
        requires second { second < vec_len self.now.marks }
        ensures { result ≡ true → StandsBefore self.now first second }
    {
        if !self.has(first) {
            return false;
        }
        self.place(first) < self.place(second)
    }

    /// Whether the first edge is listed, and stands in front of the second, if that is listed.
    pub(crate) fn is_before_listed(&self, first: EdgeId, second: EdgeId) -> bool
        requires first { first < vec_len self.now.marks }
        requires second { second < vec_len self.now.marks }
        ensures { result ≡ true → is_listed (mark_at self.now.marks.items second) ≡ true → StandsBefore self.now first second }
    {
        if !self.has(second) {
            return true;
        }
        self.is_before(first, second)
    }

    /// The place of the edge in the order, if it is listed.
    fn place(&self, edge: EdgeId) -> usize
        requires { edge < vec_len self.now.marks }
        ensures { result ≡ place_in self.now.places.items edge }
    {
        self.places[edge.index()]
    }
}
