//! How many commands are to be started.

ghost use Rattle.std.specs.Prelude.{◌≡◌, true, length, vec_len};
ghost use Rattle.work.specs.Commands.{is_unstarted, count_unstarted, AreStillUnstarted};

use crate::display::Display;
use graph::Graph;
use plan::{Plan, Standing};

/// How many commands are still to be started where these edges are due now, and those were before: as many as the display has, which counts
/// judgements and starts, where the flags are the same. Then just that is looked at, for many flags at a time.
pub(crate) fn still_unstarted(
    display: &Display<'_>,
    graph: &Graph,
    plan: &Plan,
    before: &[bool],
    due: &[bool],
) -> usize
    requires fits { length due.now ≡ length graph.now.manifest.lines }
    requires plan { vec_len plan.now.standings ≡ length graph.now.manifest.lines }
    ensures { AreStillUnstarted display.now.unstarted plan.now.standings.items before.now due.now result }
{
    if are_same(before, due) {
        return display.unstarted();
    }
    unstarted_commands(graph, plan, due)
}

/// Whether the flags are the same.
fn are_same(before: &[bool], due: &[bool]) -> bool
    ensures { result ≡ true → before.now ≡ due.now }
{
    before == due
}

/// How many of the edges that are due have a command that was not started.
pub fn unstarted_commands(graph: &Graph, plan: &Plan, due: &[bool]) -> usize
    requires fits { length due.now ≡ length graph.now.manifest.lines }
    requires plan { vec_len plan.now.standings ≡ length graph.now.manifest.lines }
    ensures { result ≡ count_unstarted plan.now.standings.items due.now }
{
    let mut count = 0;
    for (place, is_due) in due.iter().enumerate() {
        if *is_due && is_unstarted(plan.standing(graph.manifest.edge(place))) {
            count += 1;
        }
    }
    count
}

/// Whether a command that stands so may still be started.
fn is_unstarted(standing: Standing) -> bool
    ensures { result ≡ is_unstarted standing }
{
    matches!(standing, Standing::Unjudged | Standing::OutOfDate)
}
