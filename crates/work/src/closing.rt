//! Ending a run whose next load was refused.

ghost use Rattle.std.specs.Prelude.{◌≡◌, false, IfOk, IfErr};
ghost use Rattle.theory.specs.Seen.{IsSeen, Unrefused, StartsUnrefused};
ghost use Rattle.work.specs.After.{ComesAfter, SeesOn};
ghost use Rattle.work.specs.Cut.{fault_of, IsLeft};
ghost use Rattle.work.specs.Cutting.{Cuts, PassesNoCut};
ghost use Rattle.work.specs.Going.{IsGoing, TakesAllIn, CutsTaking};
ghost use Rattle.work.specs.Ran.{EndsSo};

use crate::cut::Cut;
use crate::rest::take_in_rest;
use crate::state::Work;
use site::Site;

impl Work<'_> {
    /// Ends a run whose next load was refused, or behind whose last load a source is missing: what runs is taken in, and each command is
    /// recorded and shown as in a run that goes on; nothing is judged or started. A fault is answered as by `run_plan`.
    pub fn finish<S: Site>(&mut self, site: &mut S) -> Result<(), Cut>
        requires running { (S.world site.old).stopped ≡ false }
        requires going { IsGoing S.tells false self.old.graph self.old (S.world site.old) }
        ensures graph { self.new.graph ≡ self.old.graph }
        ensures ran { EndsSo S.tells S.world site.old site.new self.old.graph self.old self.new result }
        ensures grows { ComesAfter S.tells (S.world site.old) (S.world site.new) }
        ensures looked { SeesOn S.tells S.world site.old site.new self.old self.new result }
        ensures calm { IfOk result (λ done. Unrefused (S.world site.old) (S.world site.new)) }
        ensures starts { StartsUnrefused (S.world site.old) (S.world site.new) }
        ensures seen { IfErr result (λ cut. IsSeen (S.world site.old) (S.world site.new) (fault_of cut)) }
        ensures faults { PassesNoCut (S.world site.old) (S.world site.new) result }
        ensures left { IfErr result (IsLeft (S.world site.new)) }
    {
        match self.take_in_running(site) {
            Ok(()) => Ok(()),
            Err(cut) => Err(take_in_rest(site, self.plan.running(), cut)),
        }
    }

    /// Takes in commands, records and shows them, until none runs.
    fn take_in_running<S: Site>(&mut self, site: &mut S) -> Result<(), Cut>
        requires running { (S.world site.old).stopped ≡ false }
        requires going { IsGoing S.tells false self.old.graph self.old (S.world site.old) }
        ensures graph { self.new.graph ≡ self.old.graph }
        ensures cuts { Cuts (S.world site.old) (S.world site.new) result }
        ensures grows { ComesAfter S.tells (S.world site.old) (S.world site.new) }
        ensures looked { SeesOn S.tells S.world site.old site.new self.old self.new result }
        ensures finished { TakesAllIn S.tells S.world site.old site.new self.old self.new result }
        ensures cut { CutsTaking S.tells S.world site.old site.new self.old self.new result }
    {
        'run: while self.plan.running() > 0 {
            self.take_in(site)?;
        }
        Ok(())
    }
}
