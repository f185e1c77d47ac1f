//! Which of what is read commands make.

ghost use Rattle.std.specs.Prelude.{◌≡◌, ◌<◌, ℕ, true, length};
ghost use Rattle.model.specs.Graph.{has_number};
ghost use Rattle.graph.specs.Links.{links_of};
ghost use Rattle.judge.specs.Lasting.{is_made, any_made, read_made};

use graph::Graph;
use paths::{EdgeId, PathId};

/// Whether a command makes one of the paths that these edges name themselves as explicit or implicit inputs. It takes time for
/// those up to the first of them.
pub(crate) fn reads_made(graph: &Graph, edges: &[EdgeId]) -> bool
    requires within { (d : ℕ) → has_number edges.now d ≡ true → d < length graph.now.manifest.lines }
    ensures { result ≡ read_made (links_of graph.now) edges.now }
{
    for edge in edges {
        if has_made(graph, graph.regular_inputs(*edge)) {
            return true;
        }
    }
    false
}

/// Whether a command makes one of these paths.
fn has_made(graph: &Graph, paths: &[PathId]) -> bool
    ensures { result ≡ any_made (links_of graph.now) paths.now }
{
    for path in paths {
        if is_made(graph, *path) {
            return true;
        }
    }
    false
}

/// Whether a command makes the path, which is no source and no output of a phony edge then.
fn is_made(graph: &Graph, path: PathId) -> bool
    ensures { result ≡ is_made (links_of graph.now) path }
{
    match graph.maker(path) {
        Some(edge) => !graph.is_phony(edge),
        None => false,
    }
}
