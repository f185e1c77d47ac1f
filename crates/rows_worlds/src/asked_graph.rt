//! What is asked of a graph.

use crate::answers::{number, push_number};
use graph::{Cone, ConeFault, Graph, Reading};
use paths::{EdgeId, PathId};
use std::alloc::{AllocError, Global};
use tables::push_word;
use text::{Items, Path};

/// `cone TARGET..`: the cone of these targets, or else of what is built by default. `ends`: how many edges the cone of the defaults has, its
/// first and its last. `reads EDGE`: what this edge reads. `met`: how many regular inputs all edges meet in what they read. `users PATH`:
/// the edges that name this path.
pub fn push_asked(
    alloc: Global,
    graph: &Graph,
    first: &str,
    rest: &str,
    told: &mut String,
) -> Result<(), AllocError> {
    match first {
        "cone" => push_cone(alloc, graph, rest, told),
        "ends" => push_ends(alloc, graph, told),
        "reads" => push_reading(alloc, graph, number(rest), told),
        "met" => push_paths_met(alloc, graph, told),
        "users" => push_users(alloc, graph, rest, told),
        _ => told.push_str("no such row"),
    }
}

fn push_cone(
    alloc: Global,
    graph: &Graph,
    targets: &str,
    told: &mut String,
) -> Result<(), AllocError> {
    let targets = paths(alloc, targets)?;
    push_order(alloc, graph, &graph.cone(alloc, targets.as_slice()), told)
}

/// The numbers of these targets, or of the defaults; none where they have no cone.
pub fn target_numbers(
    alloc: Global,
    graph: &Graph,
    targets: &str,
) -> Result<Vec<PathId>, AllocError> {
    let targets = paths(alloc, targets)?;
    match graph.cone(alloc, targets.as_slice()) {
        Ok(cone) => Ok(cone.targets),
        Err(_) => Ok(Vec::new(alloc)),
    }
}

/// The cone of targets that an earlier one had.
pub fn push_cone_again(
    alloc: Global,
    graph: &Graph,
    targets: Vec<PathId>,
    told: &mut String,
) -> Result<(), AllocError> {
    if targets.iter().any(|target| target.index() >= graph.paths()) {
        return told.push_str("no target");
    }
    push_order(alloc, graph, &graph.cone_again(alloc, targets), told)
}

/// The words of a text.
fn paths(alloc: Global, text: &str) -> Result<Items<Path>, AllocError> {
    let mut paths = Items::new(alloc);
    for word in text.split_whitespace() {
        paths.push(Path::from_str(alloc, word)?)?;
    }
    Ok(paths)
}

/// The first outputs of the edges of the cone in their order, the paths of a cycle, or another fault.
fn push_order(
    alloc: Global,
    graph: &Graph,
    cone: &Result<Cone, ConeFault>,
    told: &mut String,
) -> Result<(), AllocError> {
    match cone {
        Ok(cone) => push_first_outputs(graph, &cone.order, told),
        Err(fault) => push_fault(alloc, graph, fault, told),
    }
}

fn push_fault(
    alloc: Global,
    graph: &Graph,
    fault: &ConeFault,
    told: &mut String,
) -> Result<(), AllocError> {
    match fault {
        ConeFault::Cycle(paths) => {
            told.push_str("cycle")?;
            push_paths(graph, paths.as_slice(), told)
        }
        ConeFault::Unknown(place) => {
            told.push_str("unknown ")?;
            push_number(alloc, *place as u64, told)
        }
        ConeFault::Memory => told.push_str("out of memory"),
    }
}

fn push_first_outputs(
    graph: &Graph,
    edges: &[EdgeId],
    told: &mut String,
) -> Result<(), AllocError> {
    for edge in edges {
        if edge.index() < graph.edges() {
            if let Some(path) = graph.outputs(*edge).first() {
                push_path(graph, *path, told)?;
            }
        }
    }
    Ok(())
}

fn push_paths(graph: &Graph, paths: &[PathId], told: &mut String) -> Result<(), AllocError> {
    for path in paths {
        push_path(graph, *path, told)?;
    }
    Ok(())
}

fn push_path(graph: &Graph, path: PathId, told: &mut String) -> Result<(), AllocError> {
    if path.index() < graph.paths() {
        return push_word(told, graph.text(path));
    }
    push_word(told, "no path")
}

fn push_ends(alloc: Global, graph: &Graph, told: &mut String) -> Result<(), AllocError> {
    match graph.cone(alloc, &[]) {
        Ok(cone) => push_ends_of(alloc, &cone.order, told),
        Err(fault) => push_fault(alloc, graph, &fault, told),
    }
}

fn push_ends_of(alloc: Global, edges: &[EdgeId], told: &mut String) -> Result<(), AllocError> {
    push_number(alloc, edges.len() as u64, told)?;
    told.push_str(" edges")?;
    if let [first, .., last] = edges {
        told.push_str(", first ")?;
        push_number(alloc, first.index() as u64, told)?;
        told.push_str(", last ")?;
        push_number(alloc, last.index() as u64, told)?;
    }
    Ok(())
}

/// A path that counts only where it is present has a question mark.
fn push_reading(
    alloc: Global,
    graph: &Graph,
    place: usize,
    told: &mut String,
) -> Result<(), AllocError> {
    if place >= graph.edges() {
        return told.push_str("no edge");
    }
    match graph.reading(alloc, graph.manifest.edge(place))? {
        Reading::Itself(edge) => push_read(graph, edge, told),
        Reading::Through(edges) => push_all_read(graph, &edges, told),
    }
}

fn push_all_read(graph: &Graph, edges: &[EdgeId], told: &mut String) -> Result<(), AllocError> {
    for edge in edges {
        push_read(graph, *edge, told)?;
    }
    Ok(())
}

fn push_read(graph: &Graph, edge: EdgeId, told: &mut String) -> Result<(), AllocError> {
    if edge.index() < graph.edges() {
        for path in graph.regular_inputs(edge) {
            push_path(graph, *path, told)?;
            if graph.counts_if_present(*path) {
                told.push('?')?;
            }
        }
    }
    Ok(())
}

fn push_paths_met(alloc: Global, graph: &Graph, told: &mut String) -> Result<(), AllocError> {
    let mut met = 0_usize;
    for place in 0..graph.edges() {
        met = met.saturating_add(met_by(alloc, graph, place)?);
    }
    push_number(alloc, met as u64, told)
}

fn met_by(alloc: Global, graph: &Graph, place: usize) -> Result<usize, AllocError> {
    if place >= graph.edges() {
        return Ok(0);
    }
    match graph.reading(alloc, graph.manifest.edge(place))? {
        Reading::Itself(_) => Ok(0),
        Reading::Through(edges) => Ok(count_inputs(graph, &edges)),
    }
}

fn count_inputs(graph: &Graph, edges: &[EdgeId]) -> usize {
    let mut count = 0_usize;
    for edge in edges {
        if edge.index() < graph.edges() {
            count = count.saturating_add(graph.regular_inputs(*edge).len());
        }
    }
    count
}

/// The places of the edges that name this path as an input or a recorded input.
fn push_users(
    alloc: Global,
    graph: &Graph,
    path: &str,
    told: &mut String,
) -> Result<(), AllocError> {
    match graph.manifest.paths.number_of(path) {
        Some(number) if number.index() < graph.paths() => {
            push_edges(alloc, graph.users(number), told)
        }
        _ => told.push_str("unknown"),
    }
}

fn push_edges(alloc: Global, edges: &[EdgeId], told: &mut String) -> Result<(), AllocError> {
    for edge in edges {
        let place = format!(in alloc; "{}", edge.index())?;
        push_word(told, place.as_str())?;
    }
    Ok(())
}
