//! Edges of what build files declare.

ghost use Rattle.std.specs.Prelude.{◌≡◌, ◌<◌, ℕ, true, false, IfOk, MatchOption, length};
ghost use Rattle.model.specs.Graph.{has_number};
ghost use Rattle.paths.specs.Lists.{line_at, line_outputs};
ghost use Rattle.notes.specs.Edges.{AreEdgesOf, IsMaker, IsUnmade};

use paths::{EdgeId, Manifest, PathId};
use std::alloc::{AllocError, Global};

/// The first edge that makes the path.
pub fn maker_of(manifest: &Manifest, path: PathId) -> Option<EdgeId>
    ensures { MatchOption result (IsUnmade manifest.now path) (IsMaker manifest.now path) }
{
    for place in 0..manifest.lines.len() {
        let edge = manifest.edge(place);
        if has(manifest.lines.outputs(edge), path) {
            return Some(edge);
        }
    }
    None
}

/// An edge that makes each path, by the number of the path. It takes a time of the order of the edges and what they make.
pub fn makers_of(alloc: Global, manifest: &Manifest) -> Result<Vec<Option<EdgeId>>, AllocError>
    ensures { IfOk result (λ makers. AreEdgesOf manifest.now makers.items) }
{
    let mut makers = vec![in alloc; None; manifest.paths.len()]?;
    for place in 0..manifest.lines.len() {
        let edge = manifest.edge(place);
        put_maker(manifest, &mut makers, edge);
    }
    Ok(makers)
}

/// Puts the edge down as the maker of its outputs.
fn put_maker(manifest: &Manifest, makers: &mut [Option<EdgeId>], edge: EdgeId)
    requires edge { edge < length manifest.now.lines }
    requires makers { AreEdgesOf manifest.now makers.old }
    ensures { AreEdgesOf manifest.now makers.new }
{
    for output in manifest.lines.outputs(edge) {
        if output.index() < makers.len() {
            makers[output.index()] = Some(edge);
        }
    }
}

/// Whether the path is one of these.
pub fn has(paths: &[PathId], path: PathId) -> bool
    ensures { result ≡ has_number paths.now path }
{
    for one in paths {
        if *one == path {
            return true;
        }
    }
    false
}
