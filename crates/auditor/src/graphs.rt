//! What a graph tells of any number: of one that no edge or path of it has, nothing.

use graph::Graph;
use paths::{Action, EdgeId, PathId};

/// The text of a path.
pub fn text_of(graph: &Graph, path: PathId) -> &str {
    graph.manifest.paths.get(path).unwrap_or("")
}

/// What the edge makes.
pub fn outputs_of(graph: &Graph, edge: EdgeId) -> &[PathId] {
    if edge.index() >= graph.edges() {
        return &[];
    }
    graph.outputs(edge)
}

/// All its inputs.
pub fn inputs_of(graph: &Graph, edge: EdgeId) -> &[PathId] {
    if edge.index() >= graph.edges() {
        return &[];
    }
    graph.inputs(edge)
}

/// Its explicit and implicit inputs.
pub fn regular_inputs_of(graph: &Graph, edge: EdgeId) -> &[PathId] {
    if edge.index() >= graph.edges() {
        return &[];
    }
    graph.regular_inputs(edge)
}

/// Its order-only inputs.
pub fn order_only_inputs_of(graph: &Graph, edge: EdgeId) -> &[PathId] {
    if edge.index() >= graph.edges() {
        return &[];
    }
    graph.manifest.lines.order_only_inputs(edge)
}

/// What it does.
pub fn action_of(graph: &Graph, edge: EdgeId) -> Option<&Action> {
    if edge.index() >= graph.edges() {
        return None;
    }
    Some(graph.manifest.action(edge))
}

/// Whether it has a command.
pub fn is_command(graph: &Graph, edge: EdgeId) -> bool {
    edge.index() < graph.edges() && !graph.is_phony(edge)
}

/// The dyndep file that it names, if that was not loaded.
pub fn dyndep_of(graph: &Graph, edge: EdgeId) -> Option<PathId> {
    if edge.index() >= graph.edges() {
        return None;
    }
    graph.dyndep(edge)
}

/// The edge whose command makes the path; none of a source, and of a path that stands for others.
pub fn maker_of(graph: &Graph, path: PathId) -> Option<EdgeId> {
    let edge = graph.maker(path)?;
    if graph.is_phony(edge) {
        return None;
    }
    Some(edge)
}
