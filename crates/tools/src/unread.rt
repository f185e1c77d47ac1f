//! What is meant where no target is named.

ghost use Rattle.std.specs.Prelude.{◌≡◌, ◌++◌, ◌∷◌, [], IfOk, OnOk};
ghost use Rattle.tools.specs.Roots.{AreRoots, unread};

use crate::access::users_at;
use crate::fault::Fault;
use graph::Graph;
use paths::PathId;
use std::alloc::{AllocError, Global};

/// The outputs that no edge names as an input, in reading order.
pub fn roots(alloc: Global, graph: &Graph) -> Result<Vec<PathId>, AllocError>
    ensures { IfOk result (λ roots. AreRoots graph.now roots.items) }
{
    let mut roots = Vec::new(alloc);
    for place in 0..graph.edges() {
        push_unread(graph, graph.outputs(graph.manifest.edge(place)), &mut roots)?;
    }
    Ok(roots)
}

/// Adds those of the paths that no edge names as an input.
fn push_unread(graph: &Graph, paths: &[PathId], roots: &mut Vec<PathId>) -> Result<(), AllocError>
    ensures { OnOk result (roots.new.items ≡ roots.old.items ++ unread graph.now paths.now) }
{
    for path in paths {
        push_if_unread(graph, *path, roots)?;
    }
    Ok(())
}

fn push_if_unread(graph: &Graph, path: PathId, roots: &mut Vec<PathId>) -> Result<(), AllocError>
    ensures { OnOk result (roots.new.items ≡ roots.old.items ++ unread graph.now (path ∷ [])) }
{
    if users_at(graph, path).is_empty() {
        roots.push(path)?;
        return Ok(());
    }
    Ok(())
}

/// The paths of `default` statements, else the outputs that no edge names as an input. There are none of both where each output is
/// needed by another, which is refused, and where there are no edges.
pub fn defaults(alloc: Global, graph: &Graph) -> Result<Vec<PathId>, Fault> {
    let declared = graph.manifest.defaults.as_slice();
    if !declared.is_empty() {
        return Ok(declared.to_vec(alloc)?);
    }
    let roots = roots(alloc, graph)?;
    if roots.is_empty() && graph.edges() > 0 {
        return Err(Fault::NoRoots);
    }
    Ok(roots)
}
