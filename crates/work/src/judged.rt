//! Judging an edge.

ghost use Rattle.std.specs.Prelude.{◌≡◌, ◌<◌, true, false, is_some, get_or, length, IfSome, OnOk, OnErr};
ghost use Rattle.model.specs.Calls.{HasCause};
ghost use Rattle.plan.specs.declared.step.Step.TheVariants as step;
ghost use Rattle.plan.specs.Planned.{IsNext, IsPlanOver, is_stale};
ghost use Rattle.judge.specs.KeptDues.{TellsSameBut};
ghost use Rattle.work.specs.Answered.{StaysKept};
ghost use Rattle.work.specs.After.{SeesFiles};
ghost use Rattle.work.specs.Clean.{StaysKnowing, WasClean, IsCleanNext};
ghost use Rattle.work.specs.Going.{IsGoing, GoesOn, ComesNearer};
ghost use Rattle.work.specs.Unmade.{AreSumsOf, AreMarkedOf};

use crate::outputs::ask_before;
use crate::state::Work;
use graph::{Graph, lists_stand};
use judge::{dues_follow, looks_follow, sums_follow};
use model::{Deps, Reason, SiteFault};
use paths::{Action, EdgeId};
use plan::{Step, Verdict};
use records::log_stays;
use site::Site;

impl Work<'_> {
    /// Judges an edge by the files as they are now and by the records of the entry.
    pub(crate) fn judge<S: Site>(&mut self, site: &mut S, edge: EdgeId) -> Result<(), SiteFault>
        requires running { (S.world site.old).stopped ≡ false }
        requires going { IsGoing S.tells true self.old.graph self.old (S.world site.old) }
        requires next { IsNext self.old.plan (step.Judge edge) }
        requires summed { AreSumsOf self.old.graph self.old }
        requires marked { AreMarkedOf self.old.graph self.old }
        ensures graph { self.new.graph ≡ self.old.graph }
        ensures looked { SeesFiles S.tells S.world site.old site.new self.old self.new }
        ensures cause { HasCause (S.world site.old) (S.world site.new) result }
        ensures nearer { OnOk result (ComesNearer self.old self.new) }
        ensures on { OnOk result (GoesOn S.tells S.world site.old site.new self.old.graph self.old self.new) }
        ensures summed { AreSumsOf self.old.graph self.new }
        ensures marked { AreMarkedOf self.old.graph self.new }
        ensures records { self.new.records ≡ self.old.records }
        ensures answers { self.new.looks.sums.answers ≡ self.old.looks.sums.answers }
        ensures cone { self.new.cone ≡ self.old.cone }
        ensures told { OnOk result (TellsSameBut self.old.graph self.old.plan self.new.plan edge) }
        ensures plan { OnErr result (self.new.plan ≡ self.old.plan) }
    {
        lists_stand(&self.graph);
        log_stays();
        looks_follow();
        sums_follow();
        ask_before(site, &self.graph, &mut self.looks, edge)?;
        let plan = &self.plan;
        let reason = self
            .looks
            .reason(site, &self.graph, &self.records, &plan.changed, edge)?;
        let verdict = verdict_of(reason);
        self.plan.judged(&self.graph, edge, verdict);
        self.display
            .judged(was_due(&self.due, edge), reason.is_some());
        Ok(())
    }

    /// Judges edges clean, as long as the plan says one next that was found not to be due when sources were asked for: nothing is
    /// asked for again. It stops at an edge for whose depfile a judgement asks anew; and once a command has ended well it judges none,
    /// as that may have made anew what an edge reads.
    pub(crate) fn judge_clean(&mut self)
        requires { IsPlanOver self.old.graph self.old.plan }
        ensures graph { self.new.graph ≡ self.old.graph }
        ensures looks { self.new.looks ≡ self.old.looks }
        ensures records { self.new.records ≡ self.old.records }
        ensures kept { StaysKept self.old self.new }
        ensures on { StaysKnowing self.old.graph self.old self.new }
    {
        log_stays();
        dues_follow();
        while let Some(edge) = self.next_clean() {
            self.plan.judged(&self.graph, edge, Verdict::Clean);
        }
    }

    /// The edge that is judged next, where it was found to be clean.
    fn next_clean(&self) -> Option<EdgeId>
        requires { IsPlanOver self.now.graph self.now.plan }
        ensures { IfSome result (IsCleanNext self.now) }
    {
        match self.plan.next() {
            Step::Judge(edge) => {
                if self.is_known_clean(edge) {
                    Some(edge)
                } else {
                    None
                }
            }
            Step::Start(_) => None,
            Step::Wait => None,
            Step::Load(_) => None,
            Step::Ended(_) => None,
        }
    }

    /// Whether the edge was found not to be due and no command has ended well, and a judgement would ask for no depfile.
    fn is_known_clean(&self, edge: EdgeId) -> bool
        requires { edge < length self.now.graph.manifest.lines }
        ensures { result ≡ true → WasClean self.now edge }
    {
        if was_due(&self.due, edge) {
            return false;
        }
        if asks_for_depfile(&self.graph, edge) {
            return false;
        }
        self.plan.well() == 0
    }
}

/// Whether a judgement of the edge asks for its depfile, which the command is to leave (manual: "Depfile").
fn asks_for_depfile(graph: &Graph, edge: EdgeId) -> bool
    requires { edge < length graph.now.manifest.lines }
{
    match graph.manifest.action(edge) {
        Action::Alias => false,
        Action::Command(command) => {
            command.deps == Deps::Unset && !command.act.depfile.as_str().is_empty()
        }
    }
}

/// The verdict of the judgement that gave this.
fn verdict_of(reason: Option<Reason>) -> Verdict
    ensures { is_stale result ≡ is_some reason }
{
    match reason {
        Some(_) => Verdict::OutOfDate,
        None => Verdict::Clean,
    }
}

/// Whether the edge was due before anything ran.
fn was_due(due: &[bool], edge: EdgeId) -> bool
    ensures { result ≡ get_or due.now edge false }
{
    due.get(edge.index()).copied().unwrap_or(false)
}
