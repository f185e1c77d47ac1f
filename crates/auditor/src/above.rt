//! Which edges are above one.

use crate::graphs::inputs_of;
use graph::Graph;
use paths::EdgeId;
use std::alloc::{AllocError, Global};

/// For each edge whether it is above this one: it makes what this one needs, or what one needs that is above it. It takes a time of the order
/// of the graph.
pub fn above(alloc: Global, graph: &Graph, edge: EdgeId) -> Result<Vec<bool>, AllocError> {
    let mut is_above = vec![in alloc; false; graph.edges()]?;
    let mut open = Vec::with_capacity(alloc, 1)?;
    open.push(edge)?;
    for _ in 0..usize::MAX {
        let Some(edge) = open.pop() else {
            return Ok(is_above);
        };
        push_makers(graph, edge, &mut is_above, &mut open)?;
    }
    Ok(is_above)
}

/// Marks the edges that make what this one needs, and puts those at the end that were not marked before.
fn push_makers(
    graph: &Graph,
    edge: EdgeId,
    is_above: &mut Vec<bool>,
    open: &mut Vec<EdgeId>,
) -> Result<(), AllocError> {
    for input in inputs_of(graph, edge) {
        if let Some(maker) = graph.maker(*input) {
            if marks(is_above, maker.index()) {
                open.push(maker)?;
            }
        }
    }
    Ok(())
}

/// Marks a place; whether it was not marked before.
pub fn marks(is_marked: &mut Vec<bool>, place: usize) -> bool {
    if place < is_marked.len() && !is_marked[place] {
        is_marked[place] = true;
        return true;
    }
    false
}
