//! Starting the command of an edge.

ghost use Rattle.std.specs.Prelude.{◌≡◌, suc, ◌<◌, length, slice_set, true, false, OnOk, OnErr};
ghost use Rattle.model.specs.Schedule.{Started};
ghost use Rattle.model.specs.Calls.{OnlyLooks, HasCause};
ghost use Rattle.model.specs.Graph.{IsCommand};
ghost use Rattle.theory.specs.Seen.{StartsUnrefused};
ghost use Rattle.judge.specs.Answers.{TellSame};
ghost use Rattle.graph.specs.Told.{declared_by};
ghost use Rattle.plan.specs.declared.step.Step.TheVariants as step;
ghost use Rattle.plan.specs.Planned.{TakesStep, IsOffered, IsNext};
ghost use Rattle.work.specs.EdgeIn.{edge_in};
ghost use Rattle.work.specs.After.{ComesAfter};
ghost use Rattle.work.specs.Going.{IsGoing, GoesOn, CutsOff, ComesNearer};
ghost use Rattle.work.specs.Starting.{IsBegunOf, LaunchesOn, CutsLaunch, RunsNow};

use crate::counts::progress;
use crate::folders::{make_folder, make_output_folders};
use crate::reported::remove_old_depfile;
use crate::response::write_response;
use crate::state::Work;
use crate::terminal::has_terminal;
use graph::Graph;
use model::{Act, SiteFault};
use paths::{Action, Command, EdgeId};
use plan::Plan;
use records::log_stays;
use site::Site;

impl Work<'_> {
    /// Starts the command of an edge: makes the folders that it writes into, shows what is shown at a start, says in the log that it
    /// is begun, removes its old depfile, writes its response file, takes a stamp, and starts it.
    ///
    /// Where that fails, the plan has the edge as running if its command was started all the same.
    pub(crate) fn start_edge<S: Site>(
        &mut self,
        site: &mut S,
        edge: EdgeId,
    ) -> Result<(), SiteFault>
        requires running { (S.world site.old).stopped ≡ false }
        requires going { IsGoing S.tells true self.old.graph self.old (S.world site.old) }
        requires next { IsNext self.old.plan (step.Start edge) }
        ensures graph { self.new.graph ≡ self.old.graph }
        ensures cause { HasCause (S.world site.old) (S.world site.new) result }
        ensures starts { StartsUnrefused (S.world site.old) (S.world site.new) }
        ensures grows { ComesAfter S.tells (S.world site.old) (S.world site.new) }
        ensures some { OnOk result ((S.world site.new).events ≡ (S.world site.old).events → ⊥) }
        ensures nearer { OnOk result (ComesNearer self.old self.new) }
        ensures looks { self.new.looks ≡ self.old.looks }
        ensures changed { self.new.plan.changed ≡ self.old.plan.changed }
        ensures told { TellSame self.old.records self.new.records }
        ensures on { OnOk result (GoesOn S.tells S.world site.old site.new self.old.graph self.old self.new) }
        ensures cut { OnErr result (CutsOff S.tells S.world site.old site.new self.old.graph self.old self.new) }
    {
        log_stays();
        self.make_folders(site, edge)?;
        self.display
            .start(site, &self.graph, edge, progress(&self.plan))?;
        self.records.begin(self.alloc, site, &self.graph, edge)?;
        self.launch(site, edge)
    }

    /// Makes the folder of the logs, and those of what the edge makes, of its depfile and of its response file.
    fn make_folders<S: Site>(&self, site: &mut S, edge: EdgeId) -> Result<(), SiteFault>
        requires running { (S.world site.old).stopped ≡ false }
        requires within { edge < length self.now.graph.manifest.lines }
        requires command { IsCommand (declared_by self.now.graph).edges (suc edge) }
        ensures looks { OnlyLooks S.tells (S.world site.old) (S.world site.new) }
        ensures cause { HasCause (S.world site.old) (S.world site.new) result }
    {
        make_folder(site, self.tick.as_str())?;
        make_output_folders(site, &self.graph, edge)?;
        let act = act(&self.graph, edge);
        make_folder(site, act.depfile.as_str())?;
        make_folder(site, act.response_path.as_str())
    }

    /// Starts the command of an edge that is begun.
    fn launch<S: Site>(&mut self, site: &mut S, edge: EdgeId) -> Result<(), SiteFault>
        requires running { (S.world site.old).stopped ≡ false }
        requires begun { IsBegunOf S.tells self.old.graph edge self.old (S.world site.old) }
        requires offered { IsOffered self.old.plan (step.Start edge) }
        ensures graph { self.new.graph ≡ self.old.graph }
        ensures cause { HasCause (S.world site.old) (S.world site.new) result }
        ensures starts { StartsUnrefused (S.world site.old) (S.world site.new) }
        ensures grows { ComesAfter S.tells (S.world site.old) (S.world site.new) }
        ensures some { OnOk result ((S.world site.new).events ≡ (S.world site.old).events → ⊥) }
        ensures nearer { OnOk result (ComesNearer self.old self.new) }
        ensures looks { self.new.looks ≡ self.old.looks }
        ensures changed { self.new.plan.changed ≡ self.old.plan.changed }
        ensures records { self.new.records ≡ self.old.records }
        ensures on { LaunchesOn S.tells S.world site.old site.new edge self.old self.new result }
        ensures cut { CutsLaunch S.tells S.world site.old site.new edge self.old self.new result }
    {
        log_stays();
        let act = act(&self.graph, edge);
        remove_old_depfile(site, act)?;
        write_response(self.alloc, site, act)?;
        let stamp = site.tick(self.tick.as_str())?;
        note_stamp(&mut self.starts, edge, stamp);
        let known = site.events().len();
        let result = site.start(edge.job(), act, has_terminal(&self.graph, edge));
        let is_started = site.events().len() > known;
        note_start(&mut self.plan, edge, is_started);
        result
    }
}

/// What the command of an edge does.
pub fn act(graph: &Graph, edge: EdgeId) -> &Act
    requires { IsCommand (declared_by graph.now).edges (suc edge) }
    ensures { result.now ≡ (edge_in graph.now edge).act }
{
    &command(graph, edge).act
}

/// The command of an edge.
pub fn command(graph: &Graph, edge: EdgeId) -> &Command
    requires { IsCommand (declared_by graph.now).edges (suc edge) }
    ensures act { result.now.act ≡ (edge_in graph.now edge).act }
    ensures deps { result.now.deps ≡ (edge_in graph.now edge).deps }
{
    match graph.manifest.action(edge) {
        Action::Alias => unreachable!(),
        Action::Command(command) => command,
    }
}

/// Notes the stamp of a start.
fn note_stamp(starts: &mut [u64], edge: EdgeId, stamp: u64)
    requires { edge < length starts.old }
    ensures { starts.new ≡ slice_set starts.old edge stamp }
{
    starts[edge.index()] = stamp;
}

/// Tells the plan that a command was started, where it was.
fn note_start(plan: &mut Plan, edge: EdgeId, is_started: bool)
    requires { IsOffered plan.old (step.Start edge) }
    ensures stands { is_started ≡ true → RunsNow plan.old plan.new edge }
    ensures flags { plan.new.changed ≡ plan.old.changed }
    ensures still { is_started ≡ false → plan.new ≡ plan.old }
    ensures planned { is_started ≡ true → (graph : Graph) → TakesStep graph plan.old plan.new (Started (suc edge)) }
{
    if is_started {
        plan.started(edge);
    }
}
