//! Which edges that are due have commands.

ghost use Rattle.std.specs.Prelude.{◌≡◌, ◌<◌, ◌&&◌, not, IfOk, length};
ghost use Rattle.graph.specs.Links.{links_of};
ghost use Rattle.judge.specs.Dues.{due_at};
ghost use Rattle.reasons.specs.Why.{AreCommands};

use graph::Graph;
use paths::EdgeId;
use std::alloc::{AllocError, Global};

/// For each edge, whether it is due and has a command.
pub(crate) fn commands_due(
    alloc: Global,
    graph: &Graph,
    due: &[bool],
) -> Result<Vec<bool>, AllocError>
    requires due { length due.now ≡ length graph.now.manifest.lines }
    ensures fits { IfOk result (λ flags. length flags.items ≡ length graph.now.manifest.lines) }
    ensures flags { IfOk result (λ flags. AreCommands graph.now due.now (length graph.now.manifest.lines) flags.items) }
{
    let mut flags = Vec::new(alloc);
    for place in 0..graph.edges() {
        let edge = graph.manifest.edge(place);
        flags.push(is_command(graph, due, edge))?;
    }
    Ok(flags)
}

/// Whether the edge is due and has a command.
fn is_command(graph: &Graph, due: &[bool], edge: EdgeId) -> bool
    requires edge { edge < length graph.now.manifest.lines }
    requires due { length due.now ≡ length graph.now.manifest.lines }
    ensures { result ≡ (due_at due.now edge && not ((links_of graph.now).phony edge)) }
{
    due[edge.index()] && !graph.is_phony(edge)
}
