//! One turn of a run.

ghost use Rattle.std.specs.Prelude.{◌≡◌, true, false, IfOk, OnOk, OnErr};
ghost use Rattle.work.specs.After.{ComesAfter, SeesOn};
ghost use Rattle.work.specs.Answered.{AreAnswersOf};
ghost use Rattle.work.specs.Going.{IsGoing, TurnsTo, CutsOff, IsNearer};
ghost use Rattle.work.specs.Cutting.{Cuts};
ghost use Rattle.work.specs.Unmade.{AreSumsOf, AreMarkedOf};

use crate::cut::Cut;
use crate::state::Work;
use judge::{answers_follow, dues_follow, looks_follow, sums_follow};
use paths::PathId;
use plan::{End, Step};
use records::log_stays;
use site::Site;

/// Why no step of a plan is taken.
#[derive(Clone, Copy, Debug)]
pub enum Halt {
    /// This dyndep file is to be loaded first.
    Load(PathId),
    /// Nothing is left to do.
    Ended(End),
}

impl Work<'_> {
    /// Takes one step of the plan, where that says one. A start changes nothing of what was seen; behind an end, where what was seen of
    /// its outputs is forgotten, so are the sums of what commands make, and what was found of commands. An edge that was judged is noted,
    /// as its flag may be another then; behind a start, which an end follows before anything else is judged, no flags are kept.
    pub(crate) fn go_on<S: Site>(&mut self, site: &mut S) -> Result<Option<Halt>, Cut>
        requires running { (S.world site.old).stopped ≡ false }
        requires going { IsGoing S.tells true self.old.graph self.old (S.world site.old) }
        requires summed { AreSumsOf self.old.graph self.old }
        requires marked { AreMarkedOf self.old.graph self.old }
        requires known { AreAnswersOf self.old }
        ensures graph { self.new.graph ≡ self.old.graph }
        ensures cuts { Cuts (S.world site.old) (S.world site.new) result }
        ensures grows { ComesAfter S.tells (S.world site.old) (S.world site.new) }
        ensures looked { SeesOn S.tells S.world site.old site.new self.old self.new result }
        ensures nearer { IfOk result (λ halt. IsNearer self.old self.new halt) }
        ensures summed { OnOk result (AreSumsOf self.old.graph self.new) }
        ensures marked { OnOk result (AreMarkedOf self.old.graph self.new) }
        ensures known { OnOk result (AreAnswersOf self.new) }
        ensures on { IfOk result (TurnsTo S.tells S.world site.old site.new self.old.graph self.old self.new) }
        ensures cut { OnErr result (CutsOff S.tells S.world site.old site.new self.old.graph self.old self.new) }
    {
        log_stays();
        looks_follow();
        sums_follow();
        answers_follow();
        dues_follow();
        match self.plan.next() {
            Step::Judge(edge) => {
                self.judge(site, edge).map_err(Cut::Other)?;
                self.looks.sums.answers.dues.note_judged(&self.cone, edge);
                Ok(None)
            }
            Step::Start(edge) => {
                self.start_edge(site, edge).map_err(Cut::Other)?;
                self.looks.sums.answers.dues.forget();
                Ok(None)
            }
            Step::Wait => {
                self.take_in(site)?;
                self.looks.sums.forget_made();
                Ok(None)
            }
            Step::Load(file) => Ok(Some(Halt::Load(file))),
            Step::Ended(end) => Ok(Some(Halt::Ended(end))),
        }
    }
}
