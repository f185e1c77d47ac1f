//! A build that a plan is told of.

ghost use Rattle.std.specs.Prelude.{◌≡◌, ◌<◌, IfOk, IsTrue, vec_len};
ghost use Rattle.plan.specs.Standing.{standing_at};

use crate::made_up::Random;
use graph::{Cone, Graph};
use paths::EdgeId;
use plan::{Changed, Plan, Standing, Step, Verdict};
use std::alloc::{AllocError, Global};
use std::marker::Model;
use std::test::Fail;

/// What comes of the next step, whichever it is.
#[derive(Clone, Copy)]
pub struct Chance {
    pub verdict: Verdict,
    /// Which of the running commands ends.
    pub place: usize,
    pub ok: bool,
    /// One bit for each output: whether it was changed.
    pub changed: usize,
}

impl Chance {
    pub fn draw(random: &mut Random) -> Chance {
        Chance {
            verdict: if random.one_in(4) {
                Verdict::Clean
            } else {
                Verdict::OutOfDate
            },
            place: random.number(),
            ok: !random.one_in(24),
            changed: random.number(),
        }
    }
}

/// A flag for each of so many outputs.
pub fn flags_of(alloc: Global, count: usize, changed: usize) -> Result<Vec<bool>, AllocError>
    ensures { IfOk result (λ flags. vec_len flags ≡ count) }
{
    let mut flags = vec![in alloc; false; count]?;
    let mut left = changed;
    for flag in flags.iter_mut() {
        *flag = left % 2 == 1;
        left /= 2;
    }
    Ok(flags)
}

/// Takes an item out of a list that has one.
pub fn take_out(list: &mut Vec<EdgeId>, place: usize) -> Option<EdgeId> {
    let last = list.pop()?;
    let place = place.checked_rem(list.len().saturating_add(1))?;
    if place < list.len() {
        let item = list[place];
        list[place] = last;
        return Some(item);
    }
    Some(last)
}

/// Whether the command of the edge runs.
pub fn runs(plan: &Plan, edge: EdgeId) -> bool
    ensures within { IsTrue result → edge < vec_len plan.now.standings }
    ensures running { IsTrue result → standing_at plan.now.standings.items edge ≡ Standing.Running }
{
    edge.index() < plan.standings.len() && matches!(plan.standing(edge), Standing::Running)
}

/// A plan over a graph, and the commands that run. Contracts see it as how many run.
#[derive(Drop)]
pub struct Run<'a> {
    pub graph: &'a Graph,
    pub plan: Plan,
    pub running: Vec<EdgeId>,
}

impl<'a> Model for Run<'a> {
    ghost use Rattle.std.specs.Prelude.{ℕ, vec_len};
    ghost use Rattle.plan.specs.Planned.{IsPlanOver};

    ghost Value = { ℕ };

    ghost view = { λ run. vec_len run.running };

    ghost invariant = { λ run. IsPlanOver run.graph.now run.plan };
}

impl<'a> Run<'a> {
    pub fn new(
        alloc: Global,
        graph: &'a Graph,
        cone: &Cone,
        jobs: usize,
        keep: usize,
    ) -> Result<Run<'a>, Fail> {
        if cone.marks.len() != graph.edges() {
            return Err("a cone of another graph".into());
        }
        Ok(Run {
            graph,
            plan: Plan::new(alloc, graph, cone, jobs, keep)?,
            running: Vec::new(alloc),
        })
    }

    /// What the plan says next, which is done and told to it.
    pub fn turn(&mut self, alloc: Global, chance: &Chance) -> Result<Step, Fail> {
        let step = self.plan.next();
        match step {
            Step::Judge(edge) => self.plan.judged(self.graph, edge, chance.verdict),
            Step::Start(edge) => {
                self.running.push(edge)?;
                self.plan.started(edge);
            }
            Step::Wait => self.end_one(alloc, chance)?,
            Step::Load(_) | Step::Ended(_) => {}
        }
        Ok(step)
    }

    /// One of the running commands ends.
    fn end_one(&mut self, alloc: Global, chance: &Chance) -> Result<(), Fail> {
        let Some(edge) = take_out(&mut self.running, chance.place) else {
            return Err("a wait where nothing runs".into());
        };
        if !runs(&self.plan, edge) {
            return Err("an end of what does not run".into());
        }
        let flags = flags_of(alloc, self.graph.outputs(edge).len(), chance.changed)?;
        self.plan.finished(self.graph, edge, chance.ok, Changed::Each(flags.as_slice()));
        Ok(())
    }
}
