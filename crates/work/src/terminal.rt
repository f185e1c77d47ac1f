//! Which commands get the terminal to themselves.

ghost use Rattle.std.specs.Prelude.{◌≡◌, ◌<◌, length};
ghost use Rattle.work.specs.EdgeIn.{edge_in};
ghost use Rattle.work.specs.Shown.{is_console};

use graph::Graph;
use paths::{Action, EdgeId};

/// The name of the pool for commands at the terminal (manual: "The `console` pool").
const CONSOLE: &str = "console";

/// Whether the command gets the terminal to itself: that of an edge in the pool `console` (manual: "The `console` pool").
pub fn has_terminal(graph: &Graph, edge: EdgeId) -> bool
    requires { edge < length graph.now.manifest.lines }
    ensures { result ≡ is_console (edge_in graph.now edge) }
{
    match graph.manifest.action(edge) {
        Action::Alias => false,
        Action::Command(command) => match &command.pool {
            None => false,
            Some(pool) => pool.as_str() == CONSOLE,
        },
    }
}
