//! The edges of a cone, makers first and else by number.

ghost use Rattle.std.specs.Prelude.{◌≡◌, [], IfOk, OnOk, length};
ghost use Rattle.graph.specs.Cone.{is_listed, mark_at, IsOrder};
ghost use Rattle.graph.specs.Links.{links_of, AllEdges};
ghost use Rattle.reasons.specs.Order.{IsSameCone, ListsIfMarked, listed_below};

use graph::{Cone, Graph, Mark};
use paths::EdgeId;
use std::alloc::{AllocError, Global};

/// The edges of the cone, each once and after the makers of what it needs. The walk begins at the lowest numbers: an edge stands behind those
/// with lower numbers, and behind what these need.
pub(crate) fn in_order(alloc: Global, graph: &Graph, cone: &Cone) -> Result<Vec<EdgeId>, AllocError>
    ensures ordered { IfOk result (λ order. IsOrder (links_of graph.now) [] order.items) }
    ensures within { IfOk result (λ order. AllEdges graph.now order.items) }
    ensures same { IfOk result (λ order. IsSameCone graph.now cone.now order.items) }
{
    let requested = listed_edges(alloc, graph, cone)?;
    match Cone::of(alloc, graph, Vec::new(alloc), &requested) {
        Ok(sorted) => {
            let Cone { order, .. } = sorted;
            Ok(order)
        }
        // edges that have a cone need one another in no circle, so memory was wanting
        Err(_) => Err(AllocError),
    }
}

/// The edges of the cone by number.
fn listed_edges(alloc: Global, graph: &Graph, cone: &Cone) -> Result<Vec<EdgeId>, AllocError>
    ensures { IfOk result (λ edges. edges.items ≡ listed_below cone.now.marks.items (length graph.now.manifest.lines)) }
{
    let mut edges = Vec::new(alloc);
    for place in 0..graph.edges() {
        push_listed(cone, graph.manifest.edge(place), &mut edges)?;
    }
    Ok(edges)
}

/// Puts the edge behind the others, if it is in the cone.
fn push_listed(cone: &Cone, edge: EdgeId, edges: &mut Vec<EdgeId>) -> Result<(), AllocError>
    ensures { OnOk result (ListsIfMarked cone.now edge edges.old.items edges.new.items) }
{
    if is_listed(cone, edge) {
        edges.push(edge)?;
    }
    Ok(())
}

/// Whether the edge is in the cone.
fn is_listed(cone: &Cone, edge: EdgeId) -> bool
    ensures { result ≡ is_listed (mark_at cone.now.marks.items edge) }
{
    let mark = cone.marks.get(edge.index()).copied();
    mark.unwrap_or(Mark::Unseen).is_listed()
}
