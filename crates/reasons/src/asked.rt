//! Asking for what an edge names.

ghost use Rattle.std.specs.Prelude.{◌≡◌, ◌<◌, ℕ, OnOk, true, false, length};
ghost use Rattle.model.specs.Calls.{HasCause};
ghost use Rattle.model.specs.Graph.{has_number};
ghost use Rattle.graph.specs.Links.{links_of};
ghost use Rattle.judge.specs.Looking.{HasLookedAt};
ghost use Rattle.reasons.specs.Why.{HaveAsked, HaveAskedOf};

use graph::{Graph, lists_stand};
use judge::{Looks, looks_follow};
use model::SiteFault;
use paths::EdgeId;
use site::Site;

/// Asks for what the edge makes, for the regular inputs of these edges, and for the recorded inputs of the edge, as far as that was not
/// done yet.
pub(crate) fn ask_for<S: Site>(
    site: &mut S,
    graph: &Graph,
    looks: &mut Looks,
    edges: &[EdgeId],
    edge: EdgeId,
) -> Result<(), SiteFault>
    requires running { (S.world site.old).stopped ≡ false }
    requires fits { length looks.old.seen.items ≡ length graph.now.manifest.paths }
    requires within { edge < length graph.now.manifest.lines }
    requires edges { (d : ℕ) → has_number edges.now d ≡ true → d < length graph.now.manifest.lines }
    ensures looked { HasLookedAt S.tells S.world site.old site.new graph.now looks.old looks.new }
    ensures cause { HasCause (S.world site.old) (S.world site.new) result }
    ensures sums { looks.new.sums ≡ looks.old.sums }
    ensures outputs { OnOk result (HaveAsked looks.new.seen.items ((links_of graph.now).outputs edge)) }
    ensures regular { OnOk result (HaveAskedOf graph.now looks.new edges.now) }
    ensures recorded { OnOk result (HaveAsked looks.new.seen.items ((links_of graph.now).recorded edge)) }
{
    looks_follow();
    lists_stand(graph);
    looks.ask(site, graph, graph.outputs(edge))?;
    ask_regular(site, graph, looks, edges)?;
    looks.ask(site, graph, graph.recorded_inputs(edge))?;
    Ok(())
}

/// Asks for the regular inputs of these edges.
fn ask_regular<S: Site>(
    site: &mut S,
    graph: &Graph,
    looks: &mut Looks,
    edges: &[EdgeId],
) -> Result<(), SiteFault>
    requires running { (S.world site.old).stopped ≡ false }
    requires fits { length looks.old.seen.items ≡ length graph.now.manifest.paths }
    requires edges { (d : ℕ) → has_number edges.now d ≡ true → d < length graph.now.manifest.lines }
    ensures looked { HasLookedAt S.tells S.world site.old site.new graph.now looks.old looks.new }
    ensures cause { HasCause (S.world site.old) (S.world site.new) result }
    ensures sums { looks.new.sums ≡ looks.old.sums }
    ensures regular { OnOk result (HaveAskedOf graph.now looks.new edges.now) }
{
    looks_follow();
    lists_stand(graph);
    for edge in edges {
        looks.ask(site, graph, graph.regular_inputs(*edge))?;
    }
    Ok(())
}
