//! The first path of which a reason holds, of what an edge reads.

ghost use Rattle.std.specs.Prelude.{◌≡◌, ◌<◌, ℕ, true, length};
ghost use Rattle.model.specs.Graph.{has_number};
ghost use Rattle.model.specs.Judgement.{is_later};
ghost use Rattle.graph.specs.Links.{links_of};
ghost use Rattle.judge.specs.Dues.{is_made_due};
ghost use Rattle.reasons.specs.Why.{counts, input_tells, is_sought, first_of, first_read, first_input};

use crate::outputs::seen_stamp;
use graph::Graph;
use judge::{Looks, Outputs, Reason};
use paths::{EdgeId, PathId};

/// The first path of which the reason holds, of the regular inputs of these edges that count, then of the recorded inputs of the edge:
/// where the outputs come to this, and just the edges with a flag make anew what they make.
pub(crate) fn first_input(
    graph: &Graph,
    looks: &Looks,
    anew: &[bool],
    outputs: Outputs,
    reason: Reason,
    edges: &[EdgeId],
    edge: EdgeId,
) -> Option<PathId>
    requires within { edge < length graph.now.manifest.lines }
    requires edges { (d : ℕ) → has_number edges.now d ≡ true → d < length graph.now.manifest.lines }
    requires anew { length anew.now ≡ length graph.now.manifest.lines }
    ensures { result ≡ first_input (links_of graph.now) anew.now looks.now.seen.items outputs reason edges.now edge }
{
    match first_read(graph, looks, anew, outputs, reason, edges) {
        Some(path) => Some(path),
        None => {
            let recorded = graph.recorded_inputs(edge);
            first_of(graph, looks, anew, outputs, reason, true, recorded)
        }
    }
}

/// The first of the regular inputs of these edges that count.
fn first_read(
    graph: &Graph,
    looks: &Looks,
    anew: &[bool],
    outputs: Outputs,
    reason: Reason,
    edges: &[EdgeId],
) -> Option<PathId>
    requires edges { (d : ℕ) → has_number edges.now d ≡ true → d < length graph.now.manifest.lines }
    requires anew { length anew.now ≡ length graph.now.manifest.lines }
    ensures { result ≡ first_read graph.now anew.now looks.now outputs reason edges.now }
{
    for edge in edges {
        let paths = graph.regular_inputs(*edge);
        let found = first_of(graph, looks, anew, outputs, reason, false, paths);
        if found.is_some() {
            return found;
        }
    }
    None
}

/// The first of these paths, or of those that count.
fn first_of(
    graph: &Graph,
    looks: &Looks,
    anew: &[bool],
    outputs: Outputs,
    reason: Reason,
    always: bool,
    paths: &[PathId],
) -> Option<PathId>
    requires anew { length anew.now ≡ length graph.now.manifest.lines }
    ensures { result ≡ first_of (links_of graph.now) anew.now looks.now.seen.items outputs reason always paths.now }
{
    for path in paths {
        if is_sought(graph, looks, anew, outputs, reason, always, *path) {
            return Some(*path);
        }
    }
    None
}

/// Whether the path counts, or is to be taken always, and the reason holds of it.
fn is_sought(
    graph: &Graph,
    looks: &Looks,
    anew: &[bool],
    outputs: Outputs,
    reason: Reason,
    always: bool,
    path: PathId,
) -> bool
    requires anew { length anew.now ≡ length graph.now.manifest.lines }
    ensures { result ≡ is_sought (links_of graph.now) anew.now looks.now.seen.items outputs reason always path }
{
    let stamp = seen_stamp(looks, path);
    (always || counts(graph, stamp, path))
        && tells(outputs, reason, is_made_anew(graph, anew, path), stamp)
}

/// Whether the path of this stamp counts: its file is there, or no phony edge with inputs makes it.
fn counts(graph: &Graph, stamp: Option<u64>, path: PathId) -> bool
    ensures { result ≡ counts (links_of graph.now) stamp path }
{
    stamp.is_some() || !graph.counts_if_present(path)
}

/// Whether the reason holds of a path of this stamp, and whether it is made anew.
fn tells(outputs: Outputs, reason: Reason, anew: bool, stamp: Option<u64>) -> bool
    ensures { result ≡ input_tells outputs reason anew stamp }
{
    match reason {
        Reason::InputAbsent => stamp.is_none(),
        Reason::InputChanged => anew,
        Reason::InputLater => is_later(stamp, outputs.earliest_start),
        Reason::OutputOlder => is_later(stamp, outputs.earliest_stamp),
        Reason::OutputAbsent => false,
        Reason::NoRecord => false,
        Reason::OtherAct => false,
        Reason::DepsUnknown => false,
    }
}

/// Whether the stamp is later than another one; no stamp is neither.
fn is_later(stamp: Option<u64>, than: Option<u64>) -> bool
    ensures { result ≡ is_later stamp than }
{
    match (stamp, than) {
        (Some(stamp), Some(than)) => stamp > than,
        _ => false,
    }
}

/// Whether an edge with a flag makes the path.
fn is_made_anew(graph: &Graph, anew: &[bool], path: PathId) -> bool
    requires anew { length anew.now ≡ length graph.now.manifest.lines }
    ensures { result ≡ is_made_due (links_of graph.now) anew.now path }
{
    match graph.maker(path) {
        Some(edge) => anew[edge.index()],
        None => false,
    }
}
