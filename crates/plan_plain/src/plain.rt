//! The plan, and what it is told.

ghost use Rattle.std.specs.Prelude.{◌≡◌, ◌↔◌, true};
ghost use Rattle.plan.specs.Plan.{standing_by, standing_after};
ghost use Rattle.plan_plain.specs.Planned.{NamesNone};

use crate::first::first_standings;
use graph::{Cone, Graph};
use paths::{EdgeId, PathId};
use plan::{
    Changed, End, Standing, Step, Verdict, lists_count, note_changes, standings_tell, steps_move,
    steps_name,
};
use std::alloc::{AllocError, Global};

/// How far each edge of a cone has come. Each call looks at all edges, and one that settles something may do so once for
/// each alias. Only `new` takes memory.
#[derive(Drop)]
pub struct Plan {
    pub standings: Vec<Standing>,
    /// For each path, the flag that was handed in for it.
    pub changed: Vec<bool>,
    /// How many commands may run at once; 0 is no limit.
    pub jobs: usize,
    /// After how many failed commands nothing is started; 0 is no limit.
    pub keep: usize,
}

impl Plan {
    ghost use Rattle.std.specs.Prelude.{◌≡◌, ◌<◌, ℕ, suc, true, false, length, vec_len, slice_set, slice_index_or, IfOk};
    ghost use Rattle.model.specs.Schedule.{Judged, Started, Ended as Finished};
    ghost use Rattle.graph.specs.declared.graph.Graph.{Graph};
    ghost use Rattle.graph.specs.Links.{links_of};
    ghost use Rattle.plan.specs.Standing.{standing_at};
    ghost use Rattle.plan.specs.Plan.{standing_by, standing_after, IsSettling};
    ghost use Rattle.plan.specs.Changed.{IsForEach, AreNoted};
    ghost use Rattle.plan.specs.Planned.{is_stale};
    ghost use Rattle.plan_plain.specs.Scan.{may_settle, NonePasses};
    ghost use Rattle.plan_plain.specs.Planned.{NamesNone, IsPlanOver, IsFirstPlan, IsOffered, IsLawfulNext, IsDueNext, TakesStep, TakesStepInAny, StaySound, SettlesAliases};

    /// A plan in which no edge of the cone is judged. No edge names a dyndep file: this plan says no load.
    pub fn new(
        alloc: Global,
        graph: &Graph,
        cone: &Cone,
        jobs: usize,
        keep: usize,
    ) -> Result<Plan, AllocError>
        requires marks { vec_len cone.now.marks ≡ length graph.now.manifest.lines }
        requires plain { NamesNone graph.now }
        ensures over { IfOk result (IsPlanOver graph.now) }
        ensures flags { IfOk result (λ plan. (p : ℕ) → slice_index_or plan.changed.items p false ≡ false) }
        ensures planned { IfOk result (λ plan. IsFirstPlan graph.now cone.now jobs keep plan) }
    {
        let mut plan = Plan {
            standings: first_standings(alloc, graph, cone)?,
            changed: vec![in alloc; false; graph.paths()]?,
            jobs,
            keep,
        };
        plan.settle_aliases(graph);
        Ok(plan)
    }

    /// What is to be done next: a judgement before a start, and the lowest edge first.
    pub fn next(&self, graph: &Graph) -> Step
        requires { IsPlanOver graph.now self.now }
        ensures offered { IsOffered self.now result }
        ensures lawful { IsLawfulNext graph.now self.now result }
        ensures loads { IsDueNext graph.now self.now result }
    {
        standings_tell();
        steps_name();
        lists_count();
        if let Some(edge) = self.first_to_judge(graph) {
            return Step::Judge(edge);
        }
        if self.has_room() {
            if let Some(edge) = self.first_to_start(graph) {
                return Step::Start(edge);
            }
        }
        if self.running() > 0 {
            return Step::Wait;
        }
        if self.failed() > 0 {
            return Step::Ended(End::Failed);
        }
        Step::Ended(End::Well)
    }

    /// Notes the verdict over an edge that may be judged, and what is settled by it.
    pub fn judged(&mut self, graph: &Graph, edge: EdgeId, verdict: Verdict)
        requires over { IsPlanOver graph.now self.old }
        requires ready { IsOffered self.old (Step.Judge edge) }
        ensures over { IsPlanOver graph.now self.new }
        ensures stands { IsSettling self.old.standings.items self.new.standings.items edge (standing_by verdict) }
        ensures flags { self.new.changed ≡ self.old.changed }
        ensures planned { TakesStep graph.now self.old self.new (Judged (suc edge) (is_stale verdict)) }
    {
        steps_move();
        self.standings[edge.index()] = standing_by(verdict);
        self.settle_aliases(graph);
    }

    /// Notes that the command of an edge that may start was started.
    pub fn started(&mut self, edge: EdgeId)
        requires { IsOffered self.old (Step.Start edge) }
        ensures over { (graph : Graph) → IsPlanOver graph self.old → IsPlanOver graph self.new }
        ensures stands { self.new.standings.items ≡ slice_set self.old.standings.items edge Standing.Running }
        ensures flags { self.new.changed ≡ self.old.changed }
        ensures planned { TakesStepInAny self.old self.new (Started (suc edge)) }
    {
        steps_move();
        self.standings[edge.index()] = Standing::Running;
    }

    /// Notes that the command of a running edge ended, whether it ended well, what is settled by that, and which of its outputs
    /// were changed.
    pub fn finished(&mut self, graph: &Graph, edge: EdgeId, ok: bool, changed: Changed<'_>)
        requires over { IsPlanOver graph.now self.old }
        requires running { standing_at self.old.standings.items edge ≡ Standing.Running }
        requires flags { IsForEach changed ((links_of graph.now).outputs edge) }
        ensures over { IsPlanOver graph.now self.new }
        ensures stands { IsSettling self.old.standings.items self.new.standings.items edge (standing_after ok) }
        ensures flags { AreNoted self.old.changed.items self.new.changed.items ((links_of graph.now).outputs edge) changed.entry }
        ensures planned { TakesStep graph.now self.old self.new (Finished (suc edge) ok) }
    {
        steps_move();
        note_changes(&mut self.changed, graph.outputs(edge), changed);
        self.standings[edge.index()] = standing_after(ok);
        self.settle_aliases(graph);
    }

    /// Whether the path was changed by the command that makes it, as that was handed in; false where nothing was.
    pub fn changed(&self, path: PathId) -> bool
        ensures { result ≡ slice_index_or self.now.changed.items path false }
    {
        matches!(self.changed.get(path.index()), Some(true))
    }

    /// Settles each alias that waits for nothing, until there is none.
    fn settle_aliases(&mut self, graph: &Graph)
        requires { length self.old.standings.items ≡ length graph.now.manifest.lines }
        ensures none { NonePasses (may_settle (links_of graph.now) self.new.standings.items) }
        ensures rest { SettlesAliases self.old self.new }
        ensures sound { StaySound graph.now self.old.standings.items self.new.standings.items }
    {
        while let Some(edge) = self.first_to_settle(graph) {
            self.standings[edge.index()] = Standing::Known;
        }
    }
}

/// Whether no edge names a dyndep file.
pub fn names_none(graph: &Graph) -> bool
    ensures { result ≡ true ↔ NamesNone graph.now }
{
    for place in 0..graph.edges() {
        if graph.dyndep(graph.manifest.edge(place)).is_some() {
            return false;
        }
    }
    true
}

fn standing_by(verdict: Verdict) -> Standing
    ensures { result ≡ standing_by verdict }
{
    match verdict {
        Verdict::Clean => Standing::Clean,
        Verdict::OutOfDate => Standing::OutOfDate,
    }
}

fn standing_after(ok: bool) -> Standing
    ensures { result ≡ standing_after ok }
{
    if ok { Standing::Well } else { Standing::Failed }
}
