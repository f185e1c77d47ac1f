//! A plan goes on over a graph that has grown.

ghost use Rattle.std.specs.Prelude.{◌≡◌, ◌<◌, ◌≤◌, ℕ, length, vec_len, IfOk};
ghost use Rattle.plan.specs.Flags.{has};
ghost use Rattle.graph.specs.Links.{links_of};
ghost use Rattle.plan.specs.Standing.{is_settled, maker_settled};
ghost use Rattle.plan.specs.First.{first_at};
ghost use Rattle.plan.specs.Growing.{grown_of, AreGrown, AreThereIn};

use crate::coming::coming_of;
use crate::first::{first_counts, first_ready, first_standing, maker_of};
use crate::loads::loads_of;
use crate::lowest::Lowest;
use crate::plan::Plan;
use crate::step::Standing;
use graph::{Cone, Graph};
use paths::{EdgeId, PathId};
use std::alloc::{AllocError, Global};

impl Plan {
    ghost use Rattle.std.specs.Prelude.{◌≡◌, ℕ, length, vec_len, OnOk, OnErr};
    ghost use Rattle.plan.specs.Flags.{has};
    ghost use Rattle.plan.specs.Planned.{IsPlanOver};
    ghost use Rattle.plan.specs.Extended.{MayGoOn, GoesOn};

    /// A dyndep file was loaded, and this is the cone of the same targets then. Each command stands as before, and those that are
    /// new in the cone are not judged. `AllocError` where memory is refused; nothing is changed then.
    pub fn extend(&mut self, alloc: Global, graph: &Graph, cone: &Cone) -> Result<(), AllocError>
        requires marks { vec_len cone.now.marks ≡ length graph.now.manifest.lines }
        requires may { MayGoOn graph.now self.old }
        ensures over { OnOk result (IsPlanOver graph.now self.new) }
        ensures flags { OnOk result ((p : ℕ) → has self.new.changed.items p ≡ has self.old.changed.items p) }
        ensures planned { OnOk result (GoesOn graph.now cone.now self.old self.new) }
        ensures err { OnErr result (self.new ≡ self.old) }
    {
        let edges = graph.edges();
        let standings = grown_standings(alloc, graph, cone, &self.standings)?;
        let there = settled_paths(alloc, graph, &standings)?;
        let left = first_counts(alloc, graph, &standings, &there)?;
        let mut ready = Lowest::new(alloc, edges)?;
        let mut pending = Lowest::new(alloc, edges)?;
        first_ready(&standings, &left, &mut ready, &mut pending);
        let changed = grown_flags(alloc, &self.changed, graph.paths())?;
        let loads = loads_of(alloc, graph, &standings)?;
        let coming = coming_of(alloc, &loads, &there)?;
        self.standings = standings;
        self.there = there;
        self.left = left;
        self.ready = ready;
        self.pending = pending;
        self.changed = changed;
        self.loads = loads;
        self.coming = coming;
        self.settle_pending(graph);
        Ok(())
    }
}

/// Where each edge stands: a command of the cone as before, each other edge as at the beginning.
fn grown_standings(
    alloc: Global,
    graph: &Graph,
    cone: &Cone,
    before: &[Standing],
) -> Result<Vec<Standing>, AllocError>
    requires edges { length before.now ≡ length graph.now.manifest.lines }
    requires marks { vec_len cone.now.marks ≡ length graph.now.manifest.lines }
    ensures { IfOk result (λ standings. AreGrown (links_of graph.now) cone.now.marks.items before.now standings.items) }
{
    let mut standings = Vec::with_capacity(alloc, before.len())?;
    for (place, standing) in before.iter().enumerate() {
        standings.push(grown_standing(graph, cone, *standing, graph.manifest.edge(place)))?;
    }
    Ok(standings)
}

/// Where the edge stands that stood so before.
fn grown_standing(graph: &Graph, cone: &Cone, before: Standing, edge: EdgeId) -> Standing
    requires edge { edge < length graph.now.manifest.lines }
    requires marks { vec_len cone.now.marks ≡ length graph.now.manifest.lines }
    ensures { result ≡ grown_of before (first_at (links_of graph.now) cone.now.marks.items edge) }
{
    match before {
        Standing::Outside | Standing::Alias | Standing::Known => first_standing(graph, cone, edge),
        _ => before,
    }
}

/// For each path, whether it is a source or its maker is settled.
fn settled_paths(
    alloc: Global,
    graph: &Graph,
    standings: &[Standing],
) -> Result<Vec<bool>, AllocError>
    requires { length standings.now ≡ length graph.now.manifest.lines }
    ensures { IfOk result (λ there. AreThereIn graph.now standings.now there.items) }
{
    let mut there = Vec::with_capacity(alloc, graph.paths())?;
    for place in 0..graph.paths() {
        there.push(is_settled_path(graph, standings, place))?;
    }
    Ok(there)
}

/// Whether the path is a source or its maker is settled.
fn is_settled_path(graph: &Graph, standings: &[Standing], place: usize) -> bool
    requires { length standings.now ≡ length graph.now.manifest.lines }
    ensures { result ≡ maker_settled standings.now ((links_of graph.now).maker place) }
{
    match maker_of(graph, place) {
        None => true,
        Some(maker) => is_settled(standings[maker.index()]),
    }
}

/// Whether what the edge makes is there.
fn is_settled(standing: Standing) -> bool
    ensures { result ≡ is_settled standing }
{
    matches!(standing, Standing::Clean | Standing::Well | Standing::Known)
}

/// These flags, and false for each place behind them up to a count.
pub fn grown_flags(alloc: Global, flags: &[bool], count: usize) -> Result<Vec<bool>, AllocError>
    requires { length flags.now ≤ count }
    ensures fits { IfOk result (λ grown. vec_len grown ≡ count) }
    ensures same { IfOk result (λ grown. (p : ℕ) → has grown.items p ≡ has flags.now p) }
{
    let mut grown = Vec::with_capacity(alloc, count)?;
    grown.extend_from_slice(flags)?;
    grown.resize(count, false)?;
    Ok(grown)
}
