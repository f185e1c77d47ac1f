//! Loading dyndep files (manual: "Dynamic Dependencies").

ghost use Rattle.std.specs.Prelude.{◌≡◌, ◌<◌, ◌≤◌, ℕ, true, false, All, length, IfOk, IfErr, OnOk, OnErr, Ok, Err};
ghost use Rattle.model.specs.Records.{Store};
ghost use Rattle.model.specs.SingleBuild.{Asked};
ghost use Rattle.model.specs.Calls.{OnlyLooks};
ghost use Rattle.theory.specs.Seen.{Unrefused};
ghost use Rattle.graph.specs.declared.graph.Graph.{Graph as GraphOf};
ghost use Rattle.graph.specs.Alone.{HasChangedBy};
ghost use Rattle.graph.specs.Back.{Undoes};
ghost use Rattle.graph.specs.LoadedEdges.{numbers_in};
ghost use Rattle.graph.specs.Targets.{IsNoConeAgain};
ghost use Rattle.plan.specs.Flags.{has};
ghost use Rattle.plan.specs.Staying.{MayGoOnBy, GoesOnAfter, AreInside};
ghost use Rattle.judge.specs.Answers.{KnowsOthers};
ghost use Rattle.judge.specs.KeptDues.{HasPlaces};
ghost use Rattle.work.specs.Answered.{AreAnswersOf, ForgetsGrown, HasRoomToNote, NotesIfKept, NotesIfStill, NotesGrownIf};
ghost use Rattle.work.specs.Cutting.{IsMet};
ghost use Rattle.work.specs.Standing.{IsToLoad, Loads, RefusesLoad, StopsLoad, IsStopThere, IfRefused, IfFault, HasFewerFiles, OnRefusal, OnFault};
ghost use Rattle.work.specs.Joined.{stop_of, IsMemory, MayJoin, HasRoomIn, StayKnown, IsUndone, IsLoaded, GoesOnBy, GoesOnOver, IsAskedOver, MayKeep, IsCircleOver, IsUnfitAt, IsUnfitOf, IsCircleOf, WasSaid, cone_then, HasMarksFor, IsConeBehind, UnjoinedBy, UnjoinedOver, WereKnown, MayShrink, KeepsRest, StayKnownFrom, SawBefore, HasLoadedFile, JoinsFrom, IsUnreadAt, StopsAsSaid};
ghost use Rattle.work.specs.Recorded.{HasGrownAt, AreEdgesIn};

use crate::names::{path_text, path_texts};
use crate::recorded::join_loaded;
use crate::report::{Refusal, Unfit};
use crate::state::Work;
use crate::stop::Stop;
use dyndep::{Addition, DynFault, ReadError, one_answer, parse};
use graph::{Before, Cone, ConeFault, ExtendFault, Graph, cones_stay, files_stand, lists_stand};
use judge::{Dues, answers_follow, dues_follow};
use model::SiteFault;
use paths::PathId;
use plan::{Plan, loads_go_on_by, task_of};
use records::{Records, log_stays};
use site::Site;
use std::alloc::{AllocError, Global};
use text::{Items, Path};

impl Work<'_> {
    /// Loads the dyndep file, which is to be loaded next: what it says joins the graph, with the recorded inputs of the edges that name
    /// it, and the run goes on over that. The cone becomes that of the same targets over it. Commands may run meanwhile.
    ///
    /// Where it is refused, or what it adds is, and after a fault, all is as before, but for how the records are kept.
    pub fn load<S: Site>(&mut self, site: &mut S, file: PathId) -> Result<(), Stop>
        requires running { (S.world site.old).stopped ≡ false }
        requires at { IsToLoad S.tells self.old file (S.world site.old) }
        requires known { AreAnswersOf self.old }
        ensures looks { OnlyLooks S.tells (S.world site.old) (S.world site.new) }
        ensures well { OnOk result (Unrefused (S.world site.old) (S.world site.new)) }
        ensures begun { Loads S.tells S.world site.old site.new file self.old self.new result }
        ensures known { OnOk result (AreAnswersOf self.new) }
        ensures fewer { OnOk result (HasFewerFiles self.old.graph self.new.graph) }
        ensures stop { IfErr result (IsStopThere (S.world site.old) (S.world site.new)) }
        ensures undone { OnErr result (IsUndone self.old.graph self.new.graph self.old self.new) }
        ensures refused { RefusesLoad S.tells S.world site.old site.new file self.old self.new result }
        ensures halted { StopsLoad S.tells S.world site.old site.new file self.old self.new result }
    {
        log_stays();
        answers_follow();
        dues_follow();
        one_answer();
        lists_stand(&self.graph);
        let additions = additions_in(self.alloc, site, &self.graph, file)?;
        let joined = self.join(file, additions.as_slice());
        lists_stand(&self.graph);
        task_of(&self.graph);
        match joined {
            Ok(()) => Ok(()),
            Err(stop) => Err(stop),
        }
    }

    /// What the file says joins the graph, with the recorded inputs of its edges that are in use, and the run goes on over that.
    ///
    /// Where it does not, all is as before, but for how the records are kept.
    fn join(&mut self, file: PathId, additions: &[Addition]) -> Result<(), Stop>
        requires may { (asked : Asked) × (store : Store) × MayJoin asked store self.old.graph self.old file }
        requires inside { AreInside self.old.cone.marks.items self.old.plan.standings.items }
        requires places { HasRoomToNote self.old }
        ensures goes { OnOk result (GoesOnBy file additions.now self.old self.new) }
        ensures room { OnOk result (HasRoomIn self.new.graph self.old self.new) }
        ensures known { OnOk result (StayKnown self.old.graph self.new.graph self.old.records self.new.records) }
        ensures left { OnOk result (ForgetsGrown self.old self.new) }
        ensures logs { OnOk result (self.new.records.logs ≡ self.old.records.logs) }
        ensures undone { OnErr result (IsUndone self.old.graph self.new.graph self.old self.new) }
        ensures cause { OnRefusal result (UnjoinedBy file additions.now self.old) }
        ensures memory { IfErr result IsMemory }
    {
        files_stand();
        let alloc = self.alloc;
        let before = extend(alloc, &mut self.graph, file, additions)?;
        match self.join_parts(&before) {
            Ok(()) => Ok(()),
            Err(stop) => {
                self.graph.take_back(alloc, before);
                self.records.shrink(&self.graph);
                self.looks.shrink(&self.graph);
                Err(stop)
            }
        }
    }

    /// The recorded inputs of the edges whose file was loaded join the graph, and the run goes on over that and the cone of the same
    /// targets.
    ///
    /// Where that fails, the cone and the plan are as before, and what else was done can be undone.
    fn join_parts(&mut self, before: &Before) -> Result<(), Stop>
        requires loaded { IsLoaded self.old.graph self.old before.now }
        requires inside { AreInside self.old.cone.marks.items self.old.plan.standings.items }
        requires places { HasRoomToNote self.old }
        ensures goes { OnOk result (GoesOnOver before.now self.old self.new) }
        ensures room { OnOk result (HasRoomIn self.new.graph self.old self.new) }
        ensures known { OnOk result (StayKnownFrom self.old.graph self.new.graph self.old.records self.new.records) }
        ensures beside { KeepsRest self.old self.new }
        ensures stays { OnOk result (HasGrownAt (numbers_in before.now.edges.items) self.old.graph self.new.graph) }
        ensures answers { OnOk result (KnowsOthers (numbers_in before.now.edges.items) self.old.looks.sums.answers self.new.looks.sums.answers) }
        ensures notes { OnOk result (NotesIfKept (numbers_in before.now.edges.items) self.old self.new) }
        ensures grown { OnErr result (HasGrownAt (numbers_in before.now.edges.items) self.old.graph self.new.graph) }
        ensures cone { OnErr result (self.new.cone ≡ self.old.cone) }
        ensures plan { OnErr result (self.new.plan ≡ self.old.plan) }
        ensures looks { OnErr result (SawBefore self.old.looks self.new.looks) }
        ensures kept { OnErr result (MayShrink self.old.graph self.old.records self.new.records) }
        ensures cause { OnRefusal result (UnjoinedOver before.now self.old.graph self.old) }
        ensures memory { IfErr result IsMemory }
    {
        loads_go_on_by();
        files_stand();
        let alloc = self.alloc;
        join_inputs(alloc, &mut self.graph, &mut self.records, before)?;
        let grown = self.cone_again(before)?;
        self.grow(&grown, before)?;
        put_cone(&mut self.cone, grown);
        Ok(())
    }
}

/// What the file says joins the graph; what undoes that.
fn extend(
    alloc: Global,
    graph: &mut Graph,
    file: PathId,
    additions: &[Addition],
) -> Result<Before, Stop>
    requires { file < length graph.old.manifest.paths }
    ensures loaded { OnOk result (HasLoadedFile file additions.now graph.old graph.new) }
    ensures before { IfOk result (λ before. Undoes graph.old graph.new file before) }
    ensures alone { IfOk result (λ before. HasChangedBy before graph.old graph.new) }
    ensures err { OnErr result (graph.new ≡ graph.old) }
    ensures refused { OnRefusal result (IsUnfitAt file additions.now graph.old) }
    ensures memory { IfErr result IsMemory }
{
    match graph.extend(alloc, additions, file) {
        Ok(before) => Ok(before),
        Err(fault) => Err(unfit(alloc, graph, file, fault)?),
    }
}

/// The records are looked up for what the graph got by the load that this undoes, and the recorded inputs of its edges join them
/// where they are in use.
fn join_inputs(
    alloc: Global,
    graph: &mut Graph,
    records: &mut Records,
    before: &Before,
) -> Result<(), AllocError>
    requires edges { AreEdgesIn graph.old (numbers_in before.now.edges.items) }
    requires known { WereKnown graph.old records.old }
    ensures logs { records.new.logs ≡ records.old.logs }
    ensures grown { HasGrownAt (numbers_in before.now.edges.items) graph.old graph.new }
    ensures joined { OnOk result (JoinsFrom before.now graph.old graph.new records.old) }
    ensures known { OnOk result (StayKnownFrom graph.old graph.old records.old records.new) }
    ensures kept { MayShrink graph.old records.old records.new }
{
    records.grow(graph)?;
    join_loaded(alloc, graph, records, &before.edges)?;
    Ok(())
}

impl Work<'_> {
    /// The cone of the same targets over the graph as it is now, behind the load that this undoes; none where the edges that it changed
    /// are in their places: then it is the one that was.
    fn cone_again(&self, before: &Before) -> Result<Option<Cone>, Stop>
        requires targets { All (λ p. p < length self.now.graph.manifest.paths) self.now.cone.targets.items }
        requires asked { IsAskedOver self.now.graph self.now.cone.targets.items }
        requires kept { MayKeep self.now.graph self.now.cone before.now }
        ensures marks { IfOk result (λ grown. HasMarksFor self.now.graph (cone_then self.now.cone grown)) }
        ensures cone { IfOk result (IsConeBehind self.now) }
        ensures refused { OnRefusal result (IsCircleOver self.now.graph self.now.cone.targets.items) }
        ensures memory { IfErr result IsMemory }
    {
        let alloc = self.alloc;
        lists_stand(&self.graph);
        files_stand();
        cones_stay();
        if self.graph.are_in_place(&self.cone, &before.edges) {
            return Ok(None);
        }
        let targets = self.cone.targets.as_slice().to_vec(alloc)?;
        match self.graph.cone_again(alloc, targets) {
            Ok(grown) => Ok(Some(grown)),
            Err(fault) => Err(circle(alloc, &self.graph, fault)?),
        }
    }

    /// The run goes on over the graph as it is now, of whose targets this is the cone, or the one that was where there is none, behind
    /// the load that this undoes. What was found of its edges is forgotten.
    fn grow(&mut self, grown: &Option<Cone>, before: &Before) -> Result<(), AllocError>
        requires marks { HasMarksFor self.old.graph (cone_then self.old.cone grown.now) }
        requires inside { AreInside self.old.cone.marks.items self.old.plan.standings.items }
        requires places { HasRoomToNote self.old }
        requires edges { AreEdgesIn self.old.graph (numbers_in before.now.edges.items) }
        requires may { (was : GraphOf) × MayGoOnBy was self.old.graph self.old.plan before.now }
        requires fits { length self.old.looks.seen.items ≤ length self.old.graph.manifest.paths }
        ensures graph { self.new.graph ≡ self.old.graph }
        ensures planned { OnOk result (GoesOnAfter self.old.graph (cone_then self.old.cone grown.now) self.old.plan self.new.plan before.now) }
        ensures room { OnOk result (HasRoomIn self.old.graph self.old self.new) }
        ensures records { self.new.records ≡ self.old.records }
        ensures answers { OnOk result (KnowsOthers (numbers_in before.now.edges.items) self.old.looks.sums.answers self.new.looks.sums.answers) }
        ensures notes { OnOk result (NotesIfStill grown.now (numbers_in before.now.edges.items) self.old self.new) }
        ensures cone { self.new.cone ≡ self.old.cone }
        ensures beside { KeepsRest self.old self.new }
        ensures plan { OnErr result (self.new.plan ≡ self.old.plan) }
        ensures looks { SawBefore self.old.looks self.new.looks }
    {
        self.looks.grow(&self.graph)?;
        extend_plan(
            self.alloc,
            &mut self.plan,
            &self.graph,
            &self.cone,
            grown,
            before,
        )?;
        self.looks.sums.answers.forget(&before.edges);
        note_load(
            &mut self.looks.sums.answers.dues,
            &self.graph,
            &self.cone,
            grown,
            before,
        );
        Ok(())
    }
}

/// The flags that are kept are to be found again of the edges that a load has changed, and of those that need what they make; none is
/// kept over a cone that was made.
fn note_load(dues: &mut Dues, graph: &Graph, kept: &Cone, grown: &Option<Cone>, before: &Before)
    requires edges { AreEdgesIn graph.now (numbers_in before.now.edges.items) }
    requires marks { HasMarksFor graph.now (cone_then kept.now grown.now) }
    requires places { dues.old.known ≡ true → HasPlaces kept.now dues.old }
    ensures { NotesGrownIf graph.now kept.now grown.now (numbers_in before.now.edges.items) dues.old dues.new }
{
    match grown {
        Some(_) => dues.forget(),
        None => dues.note_loaded(graph, kept, &before.edges),
    }
}

/// The plan goes on over the cone that was made; else over the one that was, in which just the edges stand that stood in it.
fn extend_plan(
    alloc: Global,
    plan: &mut Plan,
    graph: &Graph,
    kept: &Cone,
    grown: &Option<Cone>,
    before: &Before,
) -> Result<(), AllocError>
    requires marks { HasMarksFor graph.now (cone_then kept.now grown.now) }
    requires inside { AreInside kept.now.marks.items plan.old.standings.items }
    requires may { (was : GraphOf) × MayGoOnBy was graph.now plan.old before.now }
    ensures flags { OnOk result ((p : ℕ) → has plan.new.changed.items p ≡ has plan.old.changed.items p) }
    ensures planned { OnOk result (GoesOnAfter graph.now (cone_then kept.now grown.now) plan.old plan.new before.now) }
    ensures err { OnErr result (plan.new ≡ plan.old) }
{
    match grown {
        Some(cone) => plan.extend_by(alloc, graph, cone, before),
        None => plan.extend_inside(alloc, graph, kept, before),
    }
}

/// Takes the one that was made in the place of the one that was, if there is one.
fn put_cone(cone: &mut Cone, grown: Option<Cone>)
    ensures { cone.new ≡ cone_then cone.old grown }
{
    if let Some(made) = grown {
        *cone = made;
    }
}

/// What the file says.
fn additions_in<S: Site>(
    alloc: Global,
    site: &mut S,
    graph: &Graph,
    file: PathId,
) -> Result<Items<Addition>, Stop>
    requires running { (S.world site.old).stopped ≡ false }
    ensures looks { OnlyLooks S.tells (S.world site.old) (S.world site.new) }
    ensures earlier { (S.world site.new).earlier ≡ (S.world site.old).earlier }
    ensures unrefused { OnOk result (Unrefused (S.world site.old) (S.world site.new)) }
    ensures read { IfOk result (λ said. WasSaid S.tells S.world site.old site.new graph.now file said) }
    ensures calm { OnRefusal result (λ refusal. Unrefused (S.world site.old) (S.world site.new)) }
    ensures refused { OnRefusal result (λ refusal. IsUnreadAt S.tells S.world site.old site.new graph.now file refusal) }
    ensures met { IfErr result (λ stop. IfFault stop (IsMet (S.world site.old) (S.world site.new))) }
    ensures stop { OnFault result (λ fault. StopsAsSaid (S.world site.new) fault) }
{
    let path = path_text(alloc, &graph.manifest, file)?;
    let Some(bytes) = site.read(path.as_str())? else {
        return Err(Stop::Refused(Refusal::NoDyndep(path)));
    };
    match parse(alloc, bytes.as_slice()) {
        Ok(additions) => Ok(additions),
        Err(error) => Err(unread(path, error)),
    }
}

/// Why the file at the path was not read.
fn unread(path: Path, error: ReadError) -> Stop
    ensures { result ≡ stop_of path error }
{
    match error {
        ReadError::Memory => Stop::Fault(SiteFault::Memory),
        ReadError::Fault(DynFault::BadVersion) => Stop::Refused(Refusal::BadVersion(path)),
        ReadError::Fault(DynFault::BadStatement) => Stop::Refused(Refusal::BadStatement(path)),
    }
}

/// Why what the file says does not join the graph.
fn unfit(alloc: Global, graph: &Graph, file: PathId, fault: ExtendFault) -> Result<Stop, AllocError>
    ensures refused { IfOk result (λ stop. IfRefused stop (λ refusal. IsUnfitOf graph.now file fault refusal)) }
    ensures memory { IfOk result IsMemory }
{
    match fault {
        ExtendFault::Memory => Ok(Stop::Fault(SiteFault::Memory)),
        ExtendFault::MadeTwice(path) => Ok(Stop::Refused(Refusal::MadeTwice(path))),
        ExtendFault::Unfit(output) => Ok(Stop::Refused(Refusal::Unfit(Unfit {
            file: path_text(alloc, &graph.manifest, file)?,
            output,
        }))),
    }
}

/// Why the targets have no cone any more.
fn circle(alloc: Global, graph: &Graph, fault: ConeFault) -> Result<Stop, AllocError>
    requires { (asked : Asked) × (store : Store) × IsNoConeAgain asked store graph.now.manifest.paths fault }
    ensures refused { IfOk result (λ stop. IfRefused stop (IsCircleOf graph.now.manifest.paths fault)) }
    ensures memory { IfOk result IsMemory }
{
    match fault {
        ConeFault::Memory => Ok(Stop::Fault(SiteFault::Memory)),
        ConeFault::Cycle(numbers) => Ok(Stop::Refused(Refusal::Cycle(path_texts(
            alloc,
            &graph.manifest,
            numbers.as_slice(),
        )?))),
        ConeFault::Unknown(_) => unreachable!(),
    }
}
