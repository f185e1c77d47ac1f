//! What a graph tells of a number, whatever number it is: what is no path has no text, and what is no edge has no paths.

ghost use Rattle.std.specs.Prelude.{◌≡◌, ◌<◌, ◌^◌, slice_get};
ghost use Rattle.std.specs.Map.Iter.{deref};
ghost use Rattle.std.specs.Option.{option_map};
ghost use Rattle.graph.specs.Links.{links_of, users_at};
ghost use Rattle.paths.specs.Told.{text_at};

use graph::Graph;
use paths::{EdgeId, PathId, Paths};

/// The text of a path.
pub fn text_at(graph: &Graph, path: PathId) -> &str
    ensures { result.now ≡ text_at graph.now.manifest.paths path }
{
    graph.manifest.paths.get(path).unwrap_or("")
}

/// The edges that name the path as an input or a recorded input, an edge as often as it names the path.
pub fn users_at(graph: &Graph, path: PathId) -> &[EdgeId]
    ensures { result.now ≡ users_at graph.now path }
{
    if path.index() >= graph.paths() {
        return &[];
    }
    graph.users(path)
}

/// What the edge makes: its explicit outputs, then its implicit ones.
pub fn outputs_at(graph: &Graph, edge: EdgeId) -> &[PathId]
    ensures { result.now ≡ (links_of graph.now).outputs edge }
{
    if edge.index() >= graph.edges() {
        return &[];
    }
    graph.outputs(edge)
}

/// Its inputs: the regular ones, then the order-only ones.
pub fn inputs_at(graph: &Graph, edge: EdgeId) -> &[PathId]
    ensures { result.now ≡ (links_of graph.now).inputs edge }
{
    if edge.index() >= graph.edges() {
        return &[];
    }
    graph.inputs(edge)
}

/// The inputs whose contents count: its explicit ones, then its implicit ones.
pub fn regular_inputs_at(graph: &Graph, edge: EdgeId) -> &[PathId]
    ensures { result.now ≡ (links_of graph.now).regular edge }
{
    if edge.index() >= graph.edges() {
        return &[];
    }
    graph.regular_inputs(edge)
}

/// Whether it has no command.
pub fn is_phony_at(graph: &Graph, edge: EdgeId) -> bool
    ensures { result ≡ (links_of graph.now).phony edge }
{
    edge.index() >= graph.edges() || graph.is_phony(edge)
}

/// The text at a place of a table.
pub fn path_at(paths: &Paths, place: usize) -> Option<&str>
    ensures { place < 2 ^ 32 → option_map deref result ≡ slice_get paths.now place }
{
    paths.get(PathId::at(place)?)
}
