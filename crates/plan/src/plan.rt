//! The plan, and what it is told.

ghost use Rattle.std.specs.Prelude.{◌≡◌, ◌<◌, ◌≤◌, ◌^◌, ℕ, true, length, vec_len};
ghost use Rattle.model.specs.Graph.{has_number};
ghost use Rattle.graph.specs.Held.{StandOnce};
ghost use Rattle.plan.specs.Coming.{IsComing};
ghost use Rattle.plan.specs.Plan.{IsReady, IsWaiting, IsTallied};
ghost use Rattle.plan.specs.Changed.{AreFlagged, AreSetAt, IsForEach, AreNoted};

use crate::coming::{Coming, coming_of};
use crate::first::{first_counts, first_ready, first_standings, is_there, sources};
use crate::loads::loads_of;
use crate::lowest::Lowest;
use crate::pools::queue_of;
use crate::queue::Queue;
use crate::step::{Changed, End, Standing, Step, Verdict};
use graph::{Cone, Graph};
use paths::{EdgeId, PathId};
use std::alloc::{AllocError, Global};

/// How far each edge of a cone has come. Only `new` and `extend` take memory: some 70 bytes for each edge of the graph, and two for
/// each path. A whole build takes a time of the order of the inputs of the cone's edges and of the uses of their outputs,
/// times a logarithm.
#[derive(Drop)]
pub struct Plan {
    pub standings: Vec<Standing>,
    /// How many inputs and recorded inputs of each edge that waits for them are not there, one that is named twice twice.
    pub left: Vec<usize>,
    /// For each path, whether it is a source or its maker is settled.
    pub there: Vec<bool>,
    /// The commands that may be judged.
    pub ready: Lowest,
    /// The aliases all of whose inputs are there and that were not settled: none between calls.
    pub pending: Lowest,
    /// The commands that are out of date.
    pub queue: Queue,
    /// For each path, the flag that was handed in for it.
    pub changed: Vec<bool>,
    /// The dyndep files that edges of the cone name, in the order in which they are loaded.
    pub loads: Vec<PathId>,
    /// Whether one of them may be there.
    pub coming: Coming,
    pub running: usize,
    pub failed: usize,
    pub well: usize,
    /// How many commands may run at once; 0 is no limit.
    pub jobs: usize,
    /// After how many failed commands nothing is started; 0 is no limit.
    pub keep: usize,
    ghost fits: { vec_len left ≡ vec_len standings },
    ghost few: { vec_len standings ≤ 2 ^ 32 },
    ghost room: { vec_len standings ≤ length ready },
    ghost rest: { vec_len standings ≤ length pending },
    ghost sets: { IsReady standings.items left.items ready pending },
    ghost waits: { IsWaiting standings.items queue },
    ghost tallied: { IsTallied standings.items running failed well },
    ghost come: { IsComing loads.items there.items coming.files.items coming.any },
}

impl Plan {
    ghost use Rattle.std.specs.Prelude.{◌≡◌, ◌<◌, ℕ, suc, true, false, length, vec_len, slice_set, IfOk};
    ghost use Rattle.model.specs.Schedule.{Judged, Started, Ended as Finished, well_in, running_in, failed_in};
    ghost use Rattle.plan.specs.Flags.{has};
    ghost use Rattle.plan.specs.Turns.{may};
    ghost use Rattle.graph.specs.declared.graph.Graph.{Graph};
    ghost use Rattle.graph.specs.Links.{links_of};
    ghost use Rattle.plan.specs.Standing.{standing_at};
    ghost use Rattle.plan.specs.Plan.{standing_by, standing_after, has_limits, IsSettling};
    ghost use Rattle.plan.specs.Changed.{IsForEach, AreNoted};
    ghost use Rattle.plan.specs.First.{IsBegun};
    ghost use Rattle.plan.specs.Loads.{IsNextLoad};
    ghost use Rattle.plan.specs.Settling.{outputs_in};
    ghost use Rattle.plan.specs.Planned.{IsPlanOver, IsFirstPlan, TakesStep, IsCountIn, IsLawfulNext, IsDueNext, IsOffered, is_stale};

    /// A plan in which no edge of the cone is judged. At most `jobs` commands run at once, and after `keep` failures none is
    /// started; 0 is no limit. `AllocError` where memory is refused.
    pub fn new(
        alloc: Global,
        graph: &Graph,
        cone: &Cone,
        jobs: usize,
        keep: usize,
    ) -> Result<Plan, AllocError>
        requires { vec_len cone.now.marks ≡ length graph.now.manifest.lines }
        ensures over { IfOk result (IsPlanOver graph.now) }
        ensures flags { IfOk result (λ plan. (p : ℕ) → has plan.changed.items p ≡ false) }
        ensures planned { IfOk result (IsFirstPlan graph.now cone.now jobs keep) }
    {
        let mut plan = Plan::begin(alloc, graph, cone, jobs, keep)?;
        plan.settle_pending(graph);
        Ok(plan)
    }

    /// A plan in which nothing is settled.
    fn begin(
        alloc: Global,
        graph: &Graph,
        cone: &Cone,
        jobs: usize,
        keep: usize,
    ) -> Result<Plan, AllocError>
        requires { vec_len cone.now.marks ≡ length graph.now.manifest.lines }
        ensures { IfOk result (IsBegun graph.now cone.now.marks.items jobs keep) }
    {
        let edges = graph.edges();
        let standings = first_standings(alloc, graph, cone)?;
        let there = sources(alloc, graph)?;
        let left = first_counts(alloc, graph, &standings, &there)?;
        let mut ready = Lowest::new(alloc, edges)?;
        let mut pending = Lowest::new(alloc, edges)?;
        first_ready(&standings, &left, &mut ready, &mut pending);
        let loads = loads_of(alloc, graph, &standings)?;
        let queue = queue_of(alloc, graph, &standings, !loads.is_empty())?;
        let changed = vec![in alloc; false; graph.paths()]?;
        let coming = coming_of(alloc, &loads, &there)?;
        Ok(Plan {
            standings,
            left,
            there,
            ready,
            pending,
            queue,
            changed,
            loads,
            coming,
            running: 0,
            failed: 0,
            well: 0,
            jobs,
            keep,
        })
    }

    /// What is to be done next: a load before a judgement, a judgement before a start, and the lowest edge first. Of dyndep files
    /// one that no edge makes goes before the others, and then the one that is named first.
    pub fn next(&self) -> Step
        ensures offered { IsOffered self.now result }
        ensures lawful { IsLawfulNext self.now result }
        ensures loads { IsDueNext self.now result }
    {
        if let Some(file) = self.next_load() {
            return Step::Load(file);
        }
        if let Some(place) = self.ready.first() {
            return Step::Judge(EdgeId::at_below(place));
        }
        if self.has_room() {
            if let Some(place) = self.queue.first() {
                return Step::Start(EdgeId::at_below(place));
            }
        }
        if self.running > 0 {
            return Step::Wait;
        }
        if self.failed > 0 {
            return Step::Ended(End::Failed);
        }
        Step::Ended(End::Well)
    }

    /// Notes the verdict over an edge that may be judged, and what is settled by it.
    pub fn judged(&mut self, graph: &Graph, edge: EdgeId, verdict: Verdict)
        requires over { IsPlanOver graph.now self.old }
        requires ready { IsOffered self.old (Step.Judge edge) }
        ensures over { IsPlanOver graph.now self.new }
        ensures stands { IsSettling self.old.standings.items self.new.standings.items edge (standing_by verdict) }
        ensures flags { self.new.changed ≡ self.old.changed }
        ensures planned { TakesStep graph.now self.old self.new (Judged (suc edge) (is_stale verdict)) }
    {
        let place = edge.index();
        self.ready.remove(place);
        match verdict {
            Verdict::Clean => {
                self.standings[place] = Standing::Clean;
                self.settle(graph, edge);
            }
            Verdict::OutOfDate => {
                self.standings[place] = Standing::OutOfDate;
                self.queue.put(place);
            }
        }
    }

    /// Notes that the command of an edge that may start was started.
    pub fn started(&mut self, edge: EdgeId)
        requires { IsOffered self.old (Step.Start edge) }
        ensures over { (graph : Graph) → IsPlanOver graph self.old → IsPlanOver graph self.new }
        ensures stands { self.new.standings.items ≡ slice_set self.old.standings.items edge Standing.Running }
        ensures flags { self.new.changed ≡ self.old.changed }
        ensures planned { (graph : Graph) → TakesStep graph self.old self.new (Started (suc edge)) }
    {
        let place = edge.index();
        self.queue.take(place);
        self.standings[place] = Standing::Running;
        self.running += 1;
    }

    /// Notes that the command of a running edge ended, whether it ended well, what is settled by that, and which of its outputs
    /// were changed.
    pub fn finished(&mut self, graph: &Graph, edge: EdgeId, ok: bool, changed: Changed<'_>)
        requires over { IsPlanOver graph.now self.old }
        requires running { standing_at self.old.standings.items edge ≡ Standing.Running }
        requires flags { IsForEach changed (outputs_in graph.now edge) }
        ensures over { IsPlanOver graph.now self.new }
        ensures stands { IsSettling self.old.standings.items self.new.standings.items edge (standing_after ok) }
        ensures flags { AreNoted self.old.changed.items self.new.changed.items (outputs_in graph.now edge) changed.entry }
        ensures planned { TakesStep graph.now self.old self.new (Finished (suc edge) ok) }
    {
        let place = edge.index();
        note_changes(&mut self.changed, graph.outputs(edge), changed);
        self.queue.release(place);
        self.running -= 1;
        if ok {
            self.standings[place] = Standing::Well;
            self.well += 1;
            self.settle(graph, edge);
        } else {
            self.standings[place] = Standing::Failed;
            self.failed += 1;
        }
    }

    /// Whether the path was changed by the command that makes it, as that was handed in; false where nothing was.
    pub fn changed(&self, path: PathId) -> bool
        ensures { result ≡ has self.now.changed.items path }
    {
        matches!(self.changed.get(path.index()), Some(true))
    }

    /// How many commands run.
    pub fn running(&self) -> usize
        ensures value { result ≡ self.now.running }
        ensures steps { IsCountIn self.now running_in result }
    {
        self.running
    }

    /// How many commands failed.
    pub fn failed(&self) -> usize
        ensures value { result ≡ self.now.failed }
        ensures steps { IsCountIn self.now failed_in result }
    {
        self.failed
    }

    /// How many commands ended well.
    pub fn well(&self) -> usize
        ensures value { result ≡ self.now.well }
        ensures steps { IsCountIn self.now well_in result }
    {
        self.well
    }

    /// How far an edge has come.
    pub fn standing(&self, edge: EdgeId) -> Standing
        requires { edge < vec_len self.now.standings }
        ensures { result ≡ standing_at self.now.standings.items edge }
    {
        self.standings[edge.index()]
    }

    /// The first dyndep file, in the order of loads, that is there. All are gone through only where one of them may be.
    fn next_load(&self) -> Option<PathId>
        ensures { IsNextLoad self.now.there.items self.now.loads.items result }
    {
        if !self.coming.may_load() {
            return None;
        }
        self.first_load()
    }

    /// The same, by going through all.
    fn first_load(&self) -> Option<PathId>
        ensures { IsNextLoad self.now.there.items self.now.loads.items result }
    {
        for file in &self.loads {
            if is_there(&self.there, *file) {
                return Some(*file);
            }
        }
        None
    }

    /// Whether fewer commands run than may, and fewer have failed.
    fn has_room(&self) -> bool
        ensures { result ≡ has_limits self.now.jobs self.now.keep self.now.running self.now.failed }
    {
        (self.jobs == 0 || self.running < self.jobs) && (self.keep == 0 || self.failed < self.keep)
    }
}

/// Notes for each of these paths whether it was changed. Flags of other paths stay.
pub fn note_changes(flags: &mut [bool], paths: &[PathId], changed: Changed<'_>)
    requires fits { IsForEach changed paths.now }
    requires once { StandOnce paths.now }
    requires within { (p : ℕ) → has_number paths.now p ≡ true → p < length flags.old }
    ensures length { length flags.new ≡ length flags.old }
    ensures flags { AreNoted flags.old flags.new paths.now changed.entry }
{
    match changed {
        Changed::All => note_all(flags, paths),
        Changed::Each(changed) => note_each(flags, paths, changed),
    }
}

/// Notes for each of these paths that it was changed.
fn note_all(flags: &mut [bool], paths: &[PathId])
    requires { (p : ℕ) → has_number paths.now p ≡ true → p < length flags.old }
    ensures length { length flags.new ≡ length flags.old }
    ensures flags { AreSetAt flags.old flags.new paths.now }
{
    for path in paths {
        let place = path.index();
        flags[place] = true;
    }
}

/// Notes for each of these paths the flag that is handed in for it.
fn note_each(flags: &mut [bool], paths: &[PathId], changed: &[bool])
    requires fits { length changed.now ≡ length paths.now }
    requires once { StandOnce paths.now }
    requires within { (p : ℕ) → has_number paths.now p ≡ true → p < length flags.old }
    ensures length { length flags.new ≡ length flags.old }
    ensures flags { AreFlagged flags.old flags.new paths.now changed.now }
{
    for (path, flag) in paths.iter().zip(changed) {
        let place = path.index();
        if place < flags.len() {
            flags[place] = *flag;
        }
    }
}
