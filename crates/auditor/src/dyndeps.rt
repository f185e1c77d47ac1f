//! What dyndep files add to a graph.

use crate::graphs::{dyndep_of, text_of};
use dyndep::parse;
use graph::Graph;
use paths::EdgeId;
use std::alloc::Global;

/// The path of the dyndep file that the edge in this place names, if that was not loaded.
pub fn dyndep_in(graph: &Graph, place: usize) -> Option<&str> {
    let file = dyndep_of(graph, EdgeId::at(place)?)?;
    Some(text_of(graph, file))
}

/// Loads the dyndep file of the edge in this place, which has these bytes. None where it is refused, and then the graph is as before.
pub fn load(alloc: Global, graph: &mut Graph, place: usize, bytes: &[u8]) -> Option<()> {
    let file = dyndep_of(graph, EdgeId::at(place)?)?;
    let additions = parse(alloc, bytes).ok()?;
    if file.index() >= graph.paths() {
        return None;
    }
    match graph.extend(alloc, additions.as_slice(), file) {
        Ok(_) => Some(()),
        Err(_) => None,
    }
}
