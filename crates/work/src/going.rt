//! Running a graph, and the dyndep files that are loaded on the way.

ghost use Rattle.std.specs.Prelude.{◌≡◌, ◌<◌, Option, None, false, Some, Err, IfOk, IfErr, OnOk, MatchOption};
ghost use Rattle.model.specs.World.{World};
ghost use Rattle.model.specs.SingleBuild.{PassesNoFault};
ghost use Rattle.theory.specs.Seen.{IsSeen};
ghost use Rattle.work.specs.Answered.{AreAnswersOf};
ghost use Rattle.work.specs.Going.{IsCutOfSome};
ghost use Rattle.work.specs.Ran.{AreEdgesOf, IsPauseOf};
ghost use Rattle.work.specs.Standing.{NoSourceIsDue, GoesWell, IsStopThere, IsStopOf, EndsFrom, DoneFrom, HaltsFrom, PausesFrom, IsBeginning, AsksFrom, HaltsOver, HaltsBehind, IsRefusedOf, EndsHalted, IsLoading, Loads, HaltsAt, IfRefused, IfFault, stop_answer, IsSourceNext, IsMadePath, IsThatSource, HasFewerFiles, StopsBehind, StopsStill};

use crate::commands::still_unstarted;
use crate::rest::give_up;
use crate::state::Work;
use crate::stop::Stop;
use crate::summary::{Pause, Summary};
use graph::{Graph, lists_stand};
use judge::dues_follow;
use paths::PathId;
use plan::{Plan, Step};
use records::log_stays;
use site::Site;

impl Work<'_> {
    /// Runs the plan until nothing is left to do, and loads the dyndep files that become known (manual: "Dynamic Dependencies").
    ///
    /// A refused load or a missing source ends the build: what runs is taken in, recorded and shown. After a fault it is taken in alone.
    pub fn run_graph<S: Site>(&mut self, site: &mut S) -> Result<Summary, Stop>
        requires running { (S.world site.old).stopped ≡ false }
        requires begins { IsBeginning S.tells self.old (S.world site.old) }
        requires known { AreAnswersOf self.old }
        ensures ended { EndsFrom S.tells S.world site.old site.new self.old self.new result }
        ensures edges { IfOk result (AreEdgesOf self.new.graph) }
        ensures seen { IfErr result (λ stop. IfFault stop (IsSeen (S.world site.old) (S.world site.new))) }
        ensures faults { PassesNoFault (S.world site.old) (S.world site.new) (stop_answer result) }
    {
        match self.run_and_load(site) {
            Ok(summary) => Ok(summary),
            Err(stop) => Err(self.finished(site, stop)),
        }
    }

    /// The same, but that after a refusal commands may run.
    fn run_and_load<S: Site>(&mut self, site: &mut S) -> Result<Summary, Stop>
        requires running { (S.world site.old).stopped ≡ false }
        requires begins { IsBeginning S.tells self.old (S.world site.old) }
        requires known { AreAnswersOf self.old }
        ensures done { DoneFrom S.tells S.world site.old site.new self.old self.new result }
        ensures edges { IfOk result (AreEdgesOf self.new.graph) }
        ensures well { OnOk result (GoesWell (S.world site.old) (S.world site.new)) }
        ensures stop { IfErr result (IsStopOf (S.world site.old) (S.world site.new)) }
        ensures halted { HaltsFrom S.tells S.world site.old site.new self.old self.new result }
    {
        'run: loop {
            match self.run_to_load(site)? {
                Pause::Ended(summary) => return Ok(summary),
                Pause::Load(file) => self.load_file(site, file)?,
            }
        }
    }

    /// Asks for sources, and runs the plan until it pauses. Where a file that no edge makes is to be loaded, that is done first.
    fn run_to_load<S: Site>(&mut self, site: &mut S) -> Result<Pause, Stop>
        requires running { (S.world site.old).stopped ≡ false }
        requires begins { IsBeginning S.tells self.old (S.world site.old) }
        requires known { AreAnswersOf self.old }
        ensures graph { self.new.graph ≡ self.old.graph }
        ensures known { OnOk result (AreAnswersOf self.new) }
        ensures pause { IfOk result (IsPauseOf self.old.graph) }
        ensures well { OnOk result (GoesWell (S.world site.old) (S.world site.new)) }
        ensures paused { PausesFrom S.tells S.world site.old site.new self.old self.new result }
        ensures stop { IfErr result (IsStopOf (S.world site.old) (S.world site.new)) }
        ensures halted { HaltsOver S.tells S.world site.old site.new self.old self.new result }
    {
        match source_to_load(&self.graph, &self.plan) {
            Some(file) => Ok(Pause::Load(file)),
            None => {
                self.ask_for_sources(site)?;
                Ok(self.run_plan(site)?)
            }
        }
    }
}

/// The dyndep file that is loaded next, if no edge makes it.
pub fn source_to_load(graph: &Graph, plan: &Plan) -> Option<PathId>
    ensures { MatchOption result (NoSourceIsDue graph.now plan.now) (λ file. IsSourceNext graph.now plan.now file) }
{
    match plan.next() {
        Step::Load(file) => source(graph, file),
        Step::Judge(_) => None,
        Step::Start(_) => None,
        Step::Wait => None,
        Step::Ended(_) => None,
    }
}

/// The path, if no edge makes it.
fn source(graph: &Graph, path: PathId) -> Option<PathId>
    ensures { MatchOption result (IsMadePath graph.now path) (λ source. IsThatSource graph.now path source) }
{
    match graph.maker(path) {
        Some(_) => None,
        None => Some(path),
    }
}

impl Work<'_> {
    /// Refuses a cone of which a source is missing; else what is due by now is noted, and counted by what is shown, and the edges that the
    /// plan says first are judged which are not due. Commands may run.
    fn ask_for_sources<S: Site>(&mut self, site: &mut S) -> Result<(), Stop>
        requires running { (S.world site.old).stopped ≡ false }
        requires begins { IsBeginning S.tells self.old (S.world site.old) }
        requires known { AreAnswersOf self.old }
        requires made { NoSourceIsDue self.old.graph self.old.plan }
        ensures graph { self.new.graph ≡ self.old.graph }
        ensures known { OnOk result (AreAnswersOf self.new) }
        ensures well { OnOk result (GoesWell (S.world site.old) (S.world site.new)) }
        ensures asked { AsksFrom S.tells S.world site.old site.new self.old self.new result }
        ensures stop { IfErr result (IsStopOf (S.world site.old) (S.world site.new)) }
        ensures halted { HaltsOver S.tells S.world site.old site.new self.old self.new result }
    {
        log_stays();
        dues_follow();
        lists_stand(&self.graph);
        match self.check_sources(site) {
            Ok(due) => {
                let before = self.due.as_slice();
                let unstarted = still_unstarted(
                    &self.display,
                    &self.graph,
                    &self.plan,
                    before,
                    &due,
                );
                self.display.recount(unstarted);
                self.due = due;
                self.judge_clean();
                Ok(())
            }
            Err(stop) => Err(given_up(site, &self.plan, stop)),
        }
    }

    /// Loads the dyndep file, which is to be loaded next. Commands may run.
    fn load_file<S: Site>(&mut self, site: &mut S, file: PathId) -> Result<(), Stop>
        requires running { (S.world site.old).stopped ≡ false }
        requires at { IsLoading S.tells self.old file (S.world site.old) }
        requires known { AreAnswersOf self.old }
        ensures well { OnOk result (GoesWell (S.world site.old) (S.world site.new)) }
        ensures known { OnOk result (AreAnswersOf self.new) }
        ensures fewer { OnOk result (HasFewerFiles self.old.graph self.new.graph) }
        ensures begun { Loads S.tells S.world site.old site.new file self.old self.new result }
        ensures stop { IfErr result (IsStopOf (S.world site.old) (S.world site.new)) }
        ensures halted { HaltsAt S.tells S.world site.old site.new file self.old self.new result }
    {
        match self.load(site, file) {
            Ok(()) => Ok(()),
            Err(stop) => Err(given_up(site, &self.plan, stop)),
        }
    }
}

/// After a fault what runs is taken in; a refusal stays as it is.
fn given_up<S: Site>(site: &mut S, plan: &Plan, stop: Stop) -> Stop
    requires met { IfFault stop (λ fault. IsCutOfSome S.tells plan.now (S.world site.old)) }
    requires stop { (entry : World) × IsStopThere entry (S.world site.old) stop }
    ensures stop { StopsBehind (S.world site.old) (S.world site.new) stop result }
    ensures halted { HaltsBehind S.tells plan.now (S.world site.old) (S.world site.new) stop result }
{
    match stop {
        Stop::Fault(fault) => Stop::Fault(give_up(site, plan, fault).fault()),
        Stop::Refused(refusal) => Stop::Refused(refusal),
    }
}

impl Work<'_> {
    /// After a refusal what runs is taken in, recorded and shown, which may meet a fault; a fault stays as it is.
    fn finished<S: Site>(&mut self, site: &mut S, stop: Stop) -> Stop
        requires refused { IfRefused stop (IsRefusedOf S.tells self.old (S.world site.old)) }
        requires stop { (entry : World) × IsStopOf entry (S.world site.old) stop }
        ensures graph { self.new.graph ≡ self.old.graph }
        ensures stop { StopsStill (S.world site.old) (S.world site.new) stop result }
        ensures ended { EndsHalted S.tells S.world site.old site.new self.old stop result }
    {
        match stop {
            Stop::Fault(fault) => Stop::Fault(fault),
            Stop::Refused(refusal) => match self.finish(site) {
                Ok(()) => Stop::Refused(refusal),
                Err(cut) => Stop::Fault(cut.fault()),
            },
        }
    }
}
