//! Taking in a command that has ended.

ghost use Rattle.std.specs.Prelude.{◌≡◌, ◌<◌, suc, true, false, length, IfErr, OnOk, OnErr};
ghost use Rattle.model.specs.Calls.{OnlyLooks, HasCause};
ghost use Rattle.model.specs.Graph.{IsCommand};
ghost use Rattle.model.specs.Schedule.{Ended};
ghost use Rattle.graph.specs.Told.{declared_by};
ghost use Rattle.plan.specs.declared.step.Standing.{Standing};
ghost use Rattle.plan.specs.Standing.{standing_at};
ghost use Rattle.plan.specs.Changed.{AreSetAt};
ghost use Rattle.plan.specs.Planned.{IsPlanOver, TakesStep};
ghost use Rattle.plan.specs.Settling.{outputs_in};
ghost use Rattle.work.specs.After.{ComesAfter};
ghost use Rattle.work.specs.Going.{IsAwaiting, WaitsOn, WaitsCut, IsSameBeside, ComesNearer, NotesFailure, NotesEnd};
ghost use Rattle.work.specs.Restat.{FlagsDiffer, FlagsStay, IsForgotten, SeesAnew};
ghost use Rattle.work.specs.Starting.{RecordsOn, CutsRecord, IsTakenInSo};
ghost use Rattle.work.specs.Cutting.{Cuts, IfWaiting, IsOfWait};
ghost use Rattle.work.specs.Telling.{IsEndingOf, EndsOn, CutsEnd, RemovesWhatEnded, ended_well, RemovesIfWell, RemovesIfTold};
ghost use Rattle.work.specs.Unmade.{KnowsUnmade};

use crate::counts::progress;
use crate::cut::Cut;
use crate::outputs::{changes, has_restat};
use crate::reported::{Told, ended, read_told, remove_read_depfile};
use crate::response::remove_response;
use crate::shown::show_end;
use crate::start::{act, command};
use crate::state::Work;
use depfile::one_answer;
use graph::lists_stand;
use model::{Finished, SiteFault};
use paths::EdgeId;
use plan::Changed;
use records::{log_stays, none_while_running};
use site::Site;
use std::alloc::AllocError;

impl Work<'_> {
    /// Takes in a command that has ended, records it where it ended well, and shows it.
    pub(crate) fn take_in<S: Site>(&mut self, site: &mut S) -> Result<(), Cut>
        requires running { (S.world site.old).stopped ≡ false }
        requires going { IsAwaiting S.tells self.old.graph self.old (S.world site.old) }
        ensures graph { self.new.graph ≡ self.old.graph }
        ensures cuts { Cuts (S.world site.old) (S.world site.new) result }
        ensures grows { ComesAfter S.tells (S.world site.old) (S.world site.new) }
        ensures some { OnOk result ((S.world site.new).events ≡ (S.world site.old).events → ⊥) }
        ensures of_wait { IfErr result (IsOfWait (S.world site.old) (S.world site.new)) }
        ensures nearer { OnOk result (ComesNearer self.old self.new) }
        ensures kept { OnOk result (KnowsUnmade self.old self.new) }
        ensures sums { OnOk result (self.new.looks.sums ≡ self.old.looks.sums) }
        ensures removed { RemovesWhatEnded S.tells S.world site.old site.new self.old self.new result }
        ensures on { OnOk result (WaitsOn S.tells S.world site.old site.new self.old.graph self.old self.new) }
        ensures cut { OnErr result (WaitsCut S.tells S.world site.old site.new self.old.graph self.old self.new) }
    {
        match site.wait_any() {
            Ok(finished) => {
                let edge = self.graph.manifest.edge(finished.job - 1);
                let mut content = None;
                match read_told(
                    self.alloc,
                    site,
                    act(&self.graph, edge),
                    finished.ok,
                    &mut content,
                ) {
                    Ok(told) => self.take_in_told(site, edge, finished, &told),
                    Err(fault) => {
                        self.note_unread(edge);
                        Err(Cut::Other(fault))
                    }
                }
            }
            Err(fault) => Err(Cut::Waiting(fault)),
        }
    }

    /// Takes in a command that has ended so and whose depfile says this: a refused one makes it a failed one.
    fn take_in_told<S: Site>(
        &mut self,
        site: &mut S,
        edge: EdgeId,
        finished: Finished,
        told: &Told<'_>,
    ) -> Result<(), Cut>
        requires running { (S.world site.old).stopped ≡ false }
        requires ending { IsEndingOf S.tells S.world site.old self.old.graph edge finished.ok told.now self.old }
        ensures graph { self.new.graph ≡ self.old.graph }
        ensures cuts { Cuts (S.world site.old) (S.world site.new) result }
        ensures grows { ComesAfter S.tells (S.world site.old) (S.world site.new) }
        ensures events { (S.world site.new).events ≡ (S.world site.old).events }
        ensures of_wait { IfErr result (λ cut. IfWaiting cut ⊥) }
        ensures nearer { OnOk result (ComesNearer self.old self.new) }
        ensures kept { OnOk result (KnowsUnmade self.old self.new) }
        ensures sums { OnOk result (self.new.looks.sums ≡ self.old.looks.sums) }
        ensures noted { OnOk result (NotesFailure self.old self.new edge (ended_well finished.ok told.now)) }
        ensures removed { RemovesIfTold S.tells S.world site.old site.new self.old.graph edge finished.ok told.now result }
        ensures on { EndsOn S.tells S.world site.old site.new edge finished.ok told.now self.old self.new result }
        ensures cut { CutsEnd S.tells S.world site.old site.new edge finished.ok told.now self.old self.new result }
    {
        lists_stand(&self.graph);
        log_stays();
        none_while_running();
        one_answer();
        let finished = ended(finished, told);
        self.note_end(site, edge, finished.ok).map_err(Cut::Other)?;
        self.record_end(site, edge, finished.ok, told)
            .map_err(Cut::Other)?;
        let progress = progress(&self.plan);
        let shown = self
            .display
            .end(&self.graph, edge, &finished, told.fault(), progress);
        show_end(site, shown).map_err(Cut::Other)
    }

    /// Notes in the plan that the command of a running edge has ended, of which a fault keeps what it told: it counts as failed.
    fn note_unread(&mut self, edge: EdgeId)
        requires over { IsPlanOver self.old.graph self.old.plan }
        requires running { standing_at self.old.plan.standings.items edge ≡ Standing.Running }
        ensures graph { self.new.graph ≡ self.old.graph }
        ensures planned { TakesStep self.old.graph self.old.plan self.new.plan (Ended (suc edge) false) }
    {
        self.plan.finished(&self.graph, edge, false, Changed::All);
    }

    /// Notes how the command of a running edge ended: in the plan, which of its outputs are new, and that it failed where it did. Of
    /// an edge with `restat` that ended well, those are new whose stamp is another than before; of any other, all.
    fn note_end<S: Site>(&mut self, site: &mut S, edge: EdgeId, ok: bool) -> Result<(), SiteFault>
        requires going_on { (S.world site.old).stopped ≡ false }
        requires over { IsPlanOver self.old.graph self.old.plan }
        requires running { standing_at self.old.plan.standings.items edge ≡ Standing.Running }
        requires command { IsCommand (declared_by self.old.graph).edges (suc edge) }
        requires fits { length self.old.looks.seen.items ≡ length self.old.graph.manifest.paths }
        ensures graph { self.new.graph ≡ self.old.graph }
        ensures looks { OnlyLooks S.tells (S.world site.old) (S.world site.new) }
        ensures cause { HasCause (S.world site.old) (S.world site.new) result }
        ensures sums { self.new.looks.sums ≡ self.old.looks.sums }
        ensures nearer { ComesNearer self.old self.new }
        ensures ended { NotesEnd S.tells S.world site.old site.new edge ok self.old self.new result }
        ensures planned { TakesStep self.old.graph self.old.plan self.new.plan (Ended (suc edge) ok) }
        ensures noted { OnOk result (NotesFailure self.old self.new edge ok) }
    {
        if ok && has_restat(&self.graph, edge) {
            self.note_compared(site, edge)
        } else {
            Ok(self.note_all(edge, ok)?)
        }
    }

    /// Notes the end of a command all of whose outputs count as changed.
    fn note_all(&mut self, edge: EdgeId, ok: bool) -> Result<(), AllocError>
        requires over { IsPlanOver self.old.graph self.old.plan }
        requires running { standing_at self.old.plan.standings.items edge ≡ Standing.Running }
        ensures graph { self.new.graph ≡ self.old.graph }
        ensures nearer { ComesNearer self.old self.new }
        ensures flags { AreSetAt self.old.plan.changed.items self.new.plan.changed.items (outputs_in self.old.graph edge) }
        ensures forgets { IsForgotten self.old.graph edge self.old.looks self.new.looks }
        ensures sums { self.new.looks.sums ≡ self.old.looks.sums }
        ensures beside { IsSameBeside self.old self.new }
        ensures planned { TakesStep self.old.graph self.old.plan self.new.plan (Ended (suc edge) ok) }
        ensures noted { OnOk result (NotesFailure self.old self.new edge ok) }
    {
        let outputs = self.graph.outputs(edge);
        self.plan.finished(&self.graph, edge, ok, Changed::All);
        self.looks.forget(outputs);
        if !ok {
            self.failed.push(edge)?;
        }
        Ok(())
    }

    /// Notes the good end of a command that may have left outputs as they were.
    fn note_compared<S: Site>(&mut self, site: &mut S, edge: EdgeId) -> Result<(), SiteFault>
        requires going_on { (S.world site.old).stopped ≡ false }
        requires over { IsPlanOver self.old.graph self.old.plan }
        requires running { standing_at self.old.plan.standings.items edge ≡ Standing.Running }
        requires fits { length self.old.looks.seen.items ≡ length self.old.graph.manifest.paths }
        ensures graph { self.new.graph ≡ self.old.graph }
        ensures looks { OnlyLooks S.tells (S.world site.old) (S.world site.new) }
        ensures cause { HasCause (S.world site.old) (S.world site.new) result }
        ensures sums { self.new.looks.sums ≡ self.old.looks.sums }
        ensures nearer { ComesNearer self.old self.new }
        ensures changed { OnOk result (FlagsDiffer edge self.old self.new) }
        ensures unchanged { OnOk result (FlagsStay edge self.old self.new) }
        ensures anew { SeesAnew S.tells S.world site.old site.new self.old.graph edge self.old.looks self.new.looks result }
        ensures beside { IsSameBeside self.old self.new }
        ensures planned { TakesStep self.old.graph self.old.plan self.new.plan (Ended (suc edge) true) }
        ensures failed { self.new.failed ≡ self.old.failed }
    {
        match changes(self.alloc, site, &self.graph, &mut self.looks, edge) {
            Ok(changed) => {
                let changed = Changed::Each(changed.as_slice());
                self.plan.finished(&self.graph, edge, true, changed);
                Ok(())
            }
            Err(fault) => {
                self.plan.finished(&self.graph, edge, true, Changed::All);
                Err(fault)
            }
        }
    }

    /// Records a command that ended well: what it told first, then that it is done; and then removes its depfile, where that is not to
    /// stay, and its response file. One that failed is not recorded, and its files stay.
    fn record_end<S: Site>(
        &mut self,
        site: &mut S,
        edge: EdgeId,
        ok: bool,
        told: &Told<'_>,
    ) -> Result<(), SiteFault>
        requires running { (S.world site.old).stopped ≡ false }
        requires taken_in { IsTakenInSo S.tells self.old.graph edge ok told.now self.old (S.world site.old) }
        ensures graph { self.new.graph ≡ self.old.graph }
        ensures cause { HasCause (S.world site.old) (S.world site.new) result }
        ensures grows { ComesAfter S.tells (S.world site.old) (S.world site.new) }
        ensures events { (S.world site.new).events ≡ (S.world site.old).events }
        ensures at_start { (S.world site.new).failures_at_start ≡ (S.world site.old).failures_at_start }
        ensures plan { self.new.plan ≡ self.old.plan }
        ensures looks { self.new.looks ≡ self.old.looks }
        ensures failed { self.new.failed ≡ self.old.failed }
        ensures removed { RemovesIfWell S.tells S.world site.old site.new self.old.graph edge ok result }
        ensures on { RecordsOn S.tells S.world site.old site.new self.old.graph edge ok told.now self.old self.new result }
        ensures cut { CutsRecord S.tells S.world site.old site.new self.old.graph edge ok told.now self.old self.new result }
    {
        if !ok {
            return Ok(());
        }
        log_stays();
        let start = self.starts[edge.index()];
        self.report(site, edge, start, told)?;
        self.records
            .done(self.alloc, site, &self.graph, edge, start)?;
        remove_read_depfile(site, command(&self.graph, edge))?;
        remove_response(site, act(&self.graph, edge))
    }
}
