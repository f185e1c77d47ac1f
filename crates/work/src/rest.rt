//! Taking in what runs after a fault.

ghost use Rattle.std.specs.Prelude.{◌≡◌, ◌⊎◌, false, Some, Err, OnOk, OnErr};
ghost use Rattle.model.specs.World.{IsIdle};
ghost use Rattle.model.specs.Calls.{HasCause, is_stop};
ghost use Rattle.work.specs.After.{ComesAfter};
ghost use Rattle.work.specs.declared.cut.Cut.TheVariants.{Other};
ghost use Rattle.work.specs.Cut.{fault_of, HasRefusedWait, IsLeft};
ghost use Rattle.work.specs.Cutting.{IfWaiting, SomeRuns, SoManyRun, StaysSeen, IsStoppedBy, TakesIn};
ghost use Rattle.work.specs.Going.{IsCutOfSome};
ghost use Rattle.work.specs.Ran.{CutsStay, EndsCut};

use crate::cut::Cut;
use model::SiteFault;
use plan::Plan;
use site::Site;

/// Takes in what runs after a fault that came between two calls of a run, of which this is the plan: nothing of that is recorded or
/// shown. It gives the fault of the run: that the site stopped, where it did, and else this one, whatever a wait meets behind it.
pub fn give_up<S: Site>(site: &mut S, plan: &Plan, fault: SiteFault) -> Cut
    requires met { IsCutOfSome S.tells plan.now (S.world site.old) }
    requires stopped { (S.world site.old).stopped ≡ is_stop {T = Unit {0}} (Err fault) }
    ensures ran { EndsCut S.tells plan.now (S.world site.old) (S.world site.new) result }
    ensures seen { StaysSeen (S.world site.old) (S.world site.new) (Other fault) result }
    ensures first { (fault_of result ≡ fault) ⊎ (fault_of result ≡ SiteFault.Stopped) }
    ensures left { IsLeft (S.world site.new) result }
    ensures grows { ComesAfter S.tells (S.world site.old) (S.world site.new) }
    ensures takes_in { TakesIn (S.world site.old) (S.world site.new) result }
    ensures rest { CutsStay S.tells (S.world site.old) (S.world site.new) }
{
    take_in_rest(site, plan.running(), Cut::Other(fault))
}

/// Takes in the commands that run after a fault, of which there are so many, until a wait is refused, and gives the fault of
/// the run: that the site stopped, where it did, and else the first. After a final fault the site is not asked.
pub fn take_in_rest<S: Site>(site: &mut S, count: usize, cut: Cut) -> Cut
    requires many { SoManyRun count (S.world site.old).events }
    requires waits { IfWaiting cut (HasRefusedWait (S.world site.old)) }
    requires stopped { IsStoppedBy (S.world site.old) cut }
    ensures seen { StaysSeen (S.world site.old) (S.world site.new) cut result }
    ensures first { (fault_of result ≡ fault_of cut) ⊎ (fault_of result ≡ SiteFault.Stopped) }
    ensures still { IfWaiting cut (S.world site.new ≡ S.world site.old) }
    ensures left { IsLeft (S.world site.new) result }
    ensures grows { ComesAfter S.tells (S.world site.old) (S.world site.new) }
    ensures takes_in { TakesIn (S.world site.old) (S.world site.new) result }
    ensures rest { CutsStay S.tells (S.world site.old) (S.world site.new) }
{
    if cut.is_final() {
        return cut;
    }
    match take_in_all(site, count) {
        Ok(()) => cut,
        Err(SiteFault::Stopped) => Cut::Waiting(SiteFault::Stopped),
        Err(_) => Cut::Waiting(cut.fault()),
    }
}

/// Takes in so many commands, which are all that run, until a wait is refused.
fn take_in_all<S: Site>(site: &mut S, count: usize) -> Result<(), SiteFault>
    requires running { (S.world site.old).stopped ≡ false }
    requires many { SoManyRun count (S.world site.old).events }
    ensures cause { HasCause (S.world site.old) (S.world site.new) result }
    ensures grows { ComesAfter S.tells (S.world site.old) (S.world site.new) }
    ensures at_start { (S.world site.new).failures_at_start ≡ (S.world site.old).failures_at_start }
    ensures runs { OnErr result (SomeRuns (S.world site.new)) }
    ensures noted { OnErr result ((S.world site.new).wait_refused ≡ Some (S.world site.old).failures) }
    ensures idle { OnOk result (IsIdle (S.world site.new).events) }
    ensures rest { CutsStay S.tells (S.world site.old) (S.world site.new) }
{
    let mut left = count;
    'rest: while left > 0 {
        site.wait_any()?;
        left -= 1;
    }
    Ok(())
}
