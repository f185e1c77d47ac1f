//! How a plan begins.

ghost use Rattle.std.specs.Prelude.{◌≡◌, ◌<◌, length, vec_len, IfOk};
ghost use Rattle.graph.specs.Links.{links_of};
ghost use Rattle.graph.specs.Cone.{is_listed, mark_at};
ghost use Rattle.plan_plain.specs.Planned.{first_standing, AreFirst};

use graph::{Cone, Graph};
use paths::EdgeId;
use plan::Standing;
use std::alloc::{AllocError, Global};

/// Where each edge stands before the first judgement.
pub fn first_standings(
    alloc: Global,
    graph: &Graph,
    cone: &Cone,
) -> Result<Vec<Standing>, AllocError>
    requires { vec_len cone.now.marks ≡ length graph.now.manifest.lines }
    ensures { IfOk result (λ standings. AreFirst (links_of graph.now) cone.now.marks.items standings.items) }
{
    let mut standings = Vec::with_capacity(alloc, graph.edges())?;
    for place in 0..graph.edges() {
        standings.push(first_standing(graph, cone, graph.manifest.edge(place)))?;
    }
    Ok(standings)
}

fn first_standing(graph: &Graph, cone: &Cone, edge: EdgeId) -> Standing
    requires marks { edge < vec_len cone.now.marks }
    requires within { edge < length graph.now.manifest.lines }
    ensures { result ≡ first_standing (is_listed (mark_at cone.now.marks.items edge)) ((links_of graph.now).phony edge) }
{
    if !cone.has(edge) {
        return Standing::Outside;
    }
    if graph.is_phony(edge) {
        return Standing::Alias;
    }
    Standing::Unjudged
}
