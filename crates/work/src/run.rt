//! Running commands until a plan has ended, or a dyndep file is to be loaded.

ghost use Rattle.std.specs.Prelude.{◌≡◌, true, false, IfOk, IfErr, OnOk, OnErr, Ok};
ghost use Rattle.theory.specs.Seen.{IsSeen, Unrefused, StartsUnrefused};
ghost use Rattle.work.specs.Answered.{AreAnswersOf};
ghost use Rattle.work.specs.Cut.{fault_of, IsLeft};
ghost use Rattle.work.specs.After.{ComesAfter, SeesOn};
ghost use Rattle.work.specs.Going.{IsGoing, Halts, CutsOff};
ghost use Rattle.work.specs.Ran.{PausesSo, Pauses, IsPauseOf, SumsUp};
ghost use Rattle.work.specs.Cutting.{Cuts, PassesNoCut};

use crate::cut::Cut;
use crate::rest::take_in_rest;
use crate::state::Work;
use crate::summary::{Pause, Summary};
use crate::turn::Halt;
use judge::looks_follow;
use paths::EdgeId;
use plan::{End, Plan};
use records::log_stays;
use site::Site;
use std::mem;

impl Work<'_> {
    /// Runs a plan: judges, starts and takes in what the plan says until it has ended, or says that a dyndep file is to be loaded. What
    /// is found in order by the files and the records of the entry is not started. Each start is put into the log before it, each
    /// good end behind it. What the display shows of starts and ends is shown when they happen; what is taken in after a fault is
    /// neither recorded nor shown.
    ///
    /// At a load the run stands where it stood: commands may run, and it goes on by the next call, once the file is loaded, or is ended by
    /// `finish`.
    ///
    /// Where a call is refused nothing is started after it, and what runs is taken in until a wait is refused; where the site
    /// has stopped, that is the fault.
    pub fn run_plan<S: Site>(&mut self, site: &mut S) -> Result<Pause, Cut>
        requires running { (S.world site.old).stopped ≡ false }
        requires going { IsGoing S.tells true self.old.graph self.old (S.world site.old) }
        requires known { AreAnswersOf self.old }
        ensures graph { self.new.graph ≡ self.old.graph }
        ensures known { OnOk result (AreAnswersOf self.new) }
        ensures ran { PausesSo S.tells S.world site.old site.new self.old.graph self.old self.new result }
        ensures pause { IfOk result (IsPauseOf self.old.graph) }
        ensures grows { ComesAfter S.tells (S.world site.old) (S.world site.new) }
        ensures looked { SeesOn S.tells S.world site.old site.new self.old self.new result }
        ensures calm { IfOk result (λ pause. Unrefused (S.world site.old) (S.world site.new)) }
        ensures starts { StartsUnrefused (S.world site.old) (S.world site.new) }
        ensures seen { IfErr result (λ cut. IsSeen (S.world site.old) (S.world site.new) (fault_of cut)) }
        ensures faults { PassesNoCut (S.world site.old) (S.world site.new) result }
        ensures left { IfErr result (IsLeft (S.world site.new)) }
    {
        match self.run(site) {
            Ok(halt) => Ok(self.paused(halt)),
            Err(cut) => Err(take_in_rest(site, self.plan.running(), cut)),
        }
    }

    /// Does what the plan says until it says no step.
    fn run<S: Site>(&mut self, site: &mut S) -> Result<Halt, Cut>
        requires running { (S.world site.old).stopped ≡ false }
        requires going { IsGoing S.tells true self.old.graph self.old (S.world site.old) }
        requires known { AreAnswersOf self.old }
        ensures graph { self.new.graph ≡ self.old.graph }
        ensures known { OnOk result (AreAnswersOf self.new) }
        ensures cuts { Cuts (S.world site.old) (S.world site.new) result }
        ensures grows { ComesAfter S.tells (S.world site.old) (S.world site.new) }
        ensures looked { SeesOn S.tells S.world site.old site.new self.old self.new result }
        ensures halts { IfOk result (Halts S.tells S.world site.old site.new self.old.graph self.old self.new) }
        ensures cut { OnErr result (CutsOff S.tells S.world site.old site.new self.old.graph self.old self.new) }
    {
        log_stays();
        looks_follow();
        self.looks.sums.clear();
        'run: loop {
            if let Some(halt) = self.go_on(site)? {
                return Ok(halt);
            }
        }
    }

    /// Why a run pauses that takes no step now. At its end the failed edges go to the summary.
    fn paused(&mut self, halt: Halt) -> Pause
        ensures graph { self.new.graph ≡ self.old.graph }
        ensures looks { self.new.looks ≡ self.old.looks }
        ensures records { self.new.records ≡ self.old.records }
        ensures cone { self.new.cone ≡ self.old.cone }
        ensures plan { self.new.plan ≡ self.old.plan }
        ensures pauses { Pauses self.old self.new halt result }
    {
        match halt {
            Halt::Load(file) => Pause::Load(file),
            Halt::Ended(end) => {
                let alloc = self.alloc;
                let failed = mem::replace(&mut self.failed, Vec::new(alloc));
                Pause::Ended(summary(&self.plan, failed, end))
            }
        }
    }
}

/// What a run came to that has ended so.
fn summary(plan: &Plan, failed: Vec<EdgeId>, end: End) -> Summary
    ensures { SumsUp plan.now failed end result }
{
    match end {
        End::Well => Summary::Well {
            started: plan.well(),
        },
        End::Failed => Summary::Failed { edges: failed },
    }
}
