//! How a plan begins.

ghost use Rattle.std.specs.Prelude.{◌≡◌, ◌<◌, ◌≤◌, IfOk, length, vec_len, is_none, count_by, true, slice_set, if◌then◌else◌};
ghost use Rattle.plan.specs.Flags.{has, AreNone};
ghost use Rattle.graph.specs.Links.{links_of, needs_at};
ghost use Rattle.plan.specs.Standing.{is_unjudged, is_alias};
ghost use Rattle.plan.specs.Plan.{is_missing, IsReady};
ghost use Rattle.plan.specs.First.{first_at, AreFirst, AreSources, AreCounts};

use crate::lowest::Lowest;
use crate::step::Standing;
use graph::{Cone, Graph};
use paths::{EdgeId, PathId};
use std::alloc::{AllocError, Global};

/// Where each edge stands before the first judgement.
pub fn first_standings(
    alloc: Global,
    graph: &Graph,
    cone: &Cone,
) -> Result<Vec<Standing>, AllocError>
    requires { vec_len cone.now.marks ≡ length graph.now.manifest.lines }
    ensures { IfOk result (λ standings. AreFirst (links_of graph.now) cone.now.marks.items standings.items) }
{
    let mut standings = Vec::with_capacity(alloc, graph.edges())?;
    for place in 0..graph.edges() {
        standings.push(first_standing(graph, cone, graph.manifest.edge(place)))?;
    }
    Ok(standings)
}

pub fn first_standing(graph: &Graph, cone: &Cone, edge: EdgeId) -> Standing
    requires edge { edge < length graph.now.manifest.lines }
    requires marks { vec_len cone.now.marks ≡ length graph.now.manifest.lines }
    ensures { result ≡ first_at (links_of graph.now) cone.now.marks.items edge }
{
    if !cone.has(edge) {
        return Standing::Outside;
    }
    if graph.is_phony(edge) {
        return Standing::Alias;
    }
    Standing::Unjudged
}

/// For each path, whether it is a source.
pub fn sources(alloc: Global, graph: &Graph) -> Result<Vec<bool>, AllocError>
    ensures { IfOk result (λ there. AreSources (links_of graph.now) (length graph.now.manifest.paths) there.items) }
{
    let mut there = Vec::with_capacity(alloc, graph.paths())?;
    for place in 0..graph.paths() {
        there.push(is_source(graph, place))?;
    }
    Ok(there)
}

/// Whether no edge makes the path with this number.
pub fn is_source(graph: &Graph, place: usize) -> bool
    ensures { result ≡ is_none ((links_of graph.now).maker place) }
{
    maker_of(graph, place).is_none()
}

/// The edge that makes the path with this number; none for a source.
pub fn maker_of(graph: &Graph, place: usize) -> Option<EdgeId>
    ensures { result ≡ (links_of graph.now).maker place }
{
    graph.makers.as_slice().get(place).copied().flatten()
}

/// For each edge of the cone, how many of its inputs and recorded inputs are not there.
#[inline(always)]
pub fn first_counts(
    alloc: Global,
    graph: &Graph,
    standings: &[Standing],
    there: &[bool],
) -> Result<Vec<usize>, AllocError>
    requires { length standings.now ≡ length graph.now.manifest.lines }
    ensures { IfOk result (λ left. AreCounts (links_of graph.now) standings.now there.now left.items) }
{
    let mut left = Vec::with_capacity(alloc, standings.len())?;
    for (place, standing) in standings.iter().enumerate() {
        left.push(match standing {
            Standing::Outside => 0,
            _ => missing_inputs(graph, there, graph.manifest.edge(place)),
        })?;
    }
    Ok(left)
}

/// How many inputs and recorded inputs of the edge are not there.
pub fn missing_inputs(graph: &Graph, there: &[bool], edge: EdgeId) -> usize
    requires { edge < length graph.now.manifest.lines }
    ensures { result ≡ count_by (is_missing there.now) (needs_at (links_of graph.now) edge) }
{
    let mut count = 0;
    for place in 0..graph.need_count(edge) {
        if !is_there(there, graph.need(edge, place)) {
            count += 1;
        }
    }
    count
}

pub fn is_there(there: &[bool], path: PathId) -> bool
    ensures { result ≡ has there.now path }
{
    matches!(there.get(path.index()), Some(true))
}

/// Puts each edge that waits for nothing among the commands or the aliases that do.
pub fn first_ready(standings: &[Standing], left: &[usize], ready: &mut Lowest, pending: &mut Lowest)
    requires fits { length left.now ≡ length standings.now }
    requires room { length standings.now ≤ length ready.old }
    requires rest { length standings.now ≤ length pending.old }
    requires none { AreNone ready.old }
    requires nothing { AreNone pending.old }
    ensures sets { IsReady standings.now left.now ready.new pending.new }
    ensures room { length ready.new ≡ length ready.old }
    ensures rest { length pending.new ≡ length pending.old }
{
    for (place, standing) in standings.iter().enumerate() {
        if left[place] == 0 {
            insert(place, *standing, ready, pending);
        }
    }
}

/// Puts an edge that waits for nothing among the commands or the aliases that do.
fn insert(place: usize, standing: Standing, ready: &mut Lowest, pending: &mut Lowest)
    requires room { place < length ready.old }
    requires rest { place < length pending.old }
    ensures ready { ready.new ≡ (if is_unjudged standing then slice_set ready.old place true else ready.old) }
    ensures pending { pending.new ≡ (if is_alias standing then slice_set pending.old place true else pending.old) }
{
    match standing {
        Standing::Unjudged => ready.insert(place),
        Standing::Alias => pending.insert(place),
        _ => {}
    }
}
