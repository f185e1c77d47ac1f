//! Which edges are due.

ghost use Rattle.std.specs.Prelude.{◌≡◌, ◌<◌, All, [], IfOk, length, vec_len, false};
ghost use Rattle.model.specs.Calls.{HasCause};
ghost use Rattle.judge.specs.Answers.{KnowsRight};
ghost use Rattle.judge.specs.Looking.{HasLookedAt};
ghost use Rattle.judge.specs.UnderWay.{was_due, judged_due};
ghost use Rattle.judge.specs.Dues.{AreListed, FindsClean, FindsDueEdges, FindsRest};
ghost use Rattle.judge.specs.KeptDues.{LeavesNone, AsksForNone, AsksNowhere, BeginsFlags, KeepsAnswers};
ghost use Rattle.judge.specs.Ruled.{FindsEdgeRuled, FindsRuled};
ghost use Rattle.judge.specs.Summed.{AreSums};

use crate::judgement::command_of;
use crate::laws::looks_follow;
use crate::looks::Looks;
use graph::{Cone, Graph, lists_stand};
use model::{Deps, SiteFault};
use paths::{Command, EdgeId};
use plan::{Plan, Standing};
use records::Records;
use site::Site;

impl Looks {
    /// For each edge, whether it is in the cone and due: commands by how they were judged, and where they were not by their records
    /// and files, aliases by the paths that they name, and both by the edges that make what they read. What is found of commands is kept
    /// where dyndep files are still to be loaded.
    pub(crate) fn due_edges<S: Site>(
        &mut self,
        site: &mut S,
        graph: &Graph,
        cone: &Cone,
        plan: &Plan,
        records: &Records,
    ) -> Result<Vec<bool>, SiteFault>
        requires running { (S.world site.old).stopped ≡ false }
        requires fits { length self.old.seen.items ≡ length graph.now.manifest.paths }
        requires order { All (λ e. e < length graph.now.manifest.lines) cone.now.order.items }
        requires plan { vec_len plan.now.standings ≡ length graph.now.manifest.lines }
        requires known { KnowsRight graph.now records.now self.old }
        ensures looked { HasLookedAt S.tells S.world site.old site.new graph.now self.old self.new }
        ensures cause { HasCause (S.world site.old) (S.world site.new) result }
        ensures known { KnowsRight graph.now records.now self.new }
        ensures dues { self.new.sums.answers.dues ≡ self.old.sums.answers.dues }
        ensures fits { IfOk result (λ due. length due.items ≡ length graph.now.manifest.lines) }
        ensures listed { IfOk result (λ due. AreListed cone.now.order.items due.items) }
        ensures ruled { FindsRuled S.tells S.world site.old site.new graph.now records.now cone.now plan.now self.new result }
        ensures due { FindsDueEdges S.tells S.world site.old site.new graph.now records.now cone.now plan.now self.old result }
        ensures clean { FindsRest S.tells S.world site.old site.new graph.now records.now cone.now plan.now self.old result }
    {
        looks_follow();
        lists_stand(graph);
        let alloc = self.sums.alloc();
        let mut due = vec![in alloc; false; graph.edges()]?;
        self.sums.clear();
        self.sums.answers.make_room(edges_to_keep(graph, plan));
        let order = cone.order.as_slice();
        for edge in order {
            if let Some(judged) = judged_due(graph, plan, *edge) {
                due[edge.index()] = judged;
                continue;
            }
            due[edge.index()] = self.is_due(site, graph, records, &due, *edge)?;
        }
        Ok(due)
    }

    /// Whether the edge, which was not judged, is due, where it is known which edges before it are.
    pub(crate) fn is_due<S: Site>(
        &mut self,
        site: &mut S,
        graph: &Graph,
        records: &Records,
        due: &[bool],
        edge: EdgeId,
    ) -> Result<bool, SiteFault>
        requires running { (S.world site.old).stopped ≡ false }
        requires fits { length self.old.seen.items ≡ length graph.now.manifest.paths }
        requires within { edge < length graph.now.manifest.lines }
        requires due { length due.now ≡ length graph.now.manifest.lines }
        requires summed { AreSums graph.now [] self.old.seen.items self.old.sums }
        requires known { KnowsRight graph.now records.now self.old }
        ensures looked { HasLookedAt S.tells S.world site.old site.new graph.now self.old self.new }
        ensures cause { HasCause (S.world site.old) (S.world site.new) result }
        ensures summed { AreSums graph.now [] self.new.seen.items self.new.sums }
        ensures known { KnowsRight graph.now records.now self.new }
        ensures dues { self.new.sums.answers.dues ≡ self.old.sums.answers.dues }
        ensures ruled { FindsEdgeRuled S.tells S.world site.old site.new graph.now records.now self.new due.now edge result }
        ensures clean { FindsClean S.tells S.world site.old site.new graph.now records.now self.old edge result }
    {
        lists_stand(graph);
        if graph.is_phony(edge) {
            return self.is_alias_due(site, graph, due, edge);
        }
        self.is_command_due(site, graph, records, due, edge)
    }
}

impl Looks {
    /// These flags are kept from now on, where dyndep files are still to be loaded and no edge of the cone asks for a depfile.
    pub(crate) fn keep(&mut self, graph: &Graph, cone: &Cone, plan: &Plan, due: &[bool])
        requires order { All (λ e. e < length graph.now.manifest.lines) cone.now.order.items }
        ensures seen { self.new.seen ≡ self.old.seen }
        ensures answers { KeepsAnswers self.old.sums.answers self.new.sums.answers }
        ensures kept { BeginsFlags graph.now cone.now due.now self.new.sums.answers.dues }
    {
        self.sums.answers.dues.forget();
        if edges_to_keep(graph, plan) == 0 || asks_somewhere(graph, cone) {
            return;
        }
        let alloc = self.sums.alloc();
        self.sums.answers.dues.begin(alloc, cone.order.len(), due);
    }
}

/// Whether the site is asked for the depfile of one of the edges of the cone, which its command is to leave.
fn asks_somewhere(graph: &Graph, cone: &Cone) -> bool
    requires { All (λ e. e < length graph.now.manifest.lines) cone.now.order.items }
    ensures { result ≡ false → AsksNowhere graph.now cone.now }
{
    for edge in cone.order.as_slice() {
        if asks_for_depfile(graph, *edge) {
            return true;
        }
    }
    false
}

/// Whether it is for that of this edge (manual: "Depfile").
fn asks_for_depfile(graph: &Graph, edge: EdgeId) -> bool
    requires { edge < length graph.now.manifest.lines }
    ensures { result ≡ false → AsksForNone graph.now edge }
{
    lists_stand(graph);
    if graph.is_phony(edge) {
        return false;
    }
    leaves_depfile(command_of(graph, edge))
}

/// Whether the command leaves a depfile that stays.
fn leaves_depfile(command: &Command) -> bool
    ensures { result ≡ false → LeavesNone command.now.act.depfile command.now.deps }
{
    if command.deps != Deps::Unset || command.act.depfile.is_empty() {
        return false;
    }
    true
}

/// Of how many edges it is kept what is found: of all, where dyndep files are still to be loaded: it is asked for again after each.
fn edges_to_keep(graph: &Graph, plan: &Plan) -> usize {
    if plan.loads.is_empty() {
        0
    } else {
        graph.edges()
    }
}

/// Whether the edge was judged out of date; nothing of a phony edge, and where it was not judged.
pub(crate) fn judged_due(graph: &Graph, plan: &Plan, edge: EdgeId) -> Option<bool>
    requires within { edge < length graph.now.manifest.lines }
    requires plan { vec_len plan.now.standings ≡ length graph.now.manifest.lines }
    ensures { result ≡ judged_due graph.now plan.now edge }
{
    if graph.is_phony(edge) {
        return None;
    }
    was_due(plan.standing(edge))
}

/// Whether a command that stands here was judged out of date; nothing where it was not judged.
fn was_due(standing: Standing) -> Option<bool>
    ensures { result ≡ was_due standing }
{
    match standing {
        Standing::Clean => Some(false),
        Standing::OutOfDate | Standing::Running | Standing::Well | Standing::Failed => Some(true),
        Standing::Outside | Standing::Unjudged | Standing::Alias | Standing::Known => None,
    }
}
