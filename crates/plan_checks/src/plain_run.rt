//! A build that the plain plan is told of.

ghost use Rattle.plan_plain.specs.Planned.{IsPlanOver};

use crate::run::{Chance, flags_of, take_out};
use graph::{Cone, Graph};
use paths::EdgeId;
use plan::{Changed, Standing, Step};
use plan_plain::{Plan, names_none};
use std::alloc::Global;
use std::test::Fail;

/// A plan over a graph, and the commands that run.
#[derive(Drop)]
pub struct PlainRun<'a> {
    pub graph: &'a Graph,
    pub plan: Plan,
    pub running: Vec<EdgeId>,
    ghost over: { IsPlanOver graph.now plan },
}

impl<'a> PlainRun<'a> {
    ghost use Rattle.std.specs.Prelude.{◌≡◌, ◌<◌, IsTrue, vec_len};
    ghost use Rattle.plan.specs.Standing.{standing_at};

    pub fn new(
        alloc: Global,
        graph: &'a Graph,
        cone: &Cone,
        jobs: usize,
        keep: usize,
    ) -> Result<PlainRun<'a>, Fail> {
        if cone.marks.len() != graph.edges() {
            return Err("a cone of another graph".into());
        }
        if !names_none(graph) {
            return Err("an edge names a dyndep file".into());
        }
        Ok(PlainRun {
            graph,
            plan: Plan::new(alloc, graph, cone, jobs, keep)?,
            running: Vec::new(alloc),
        })
    }

    /// What the plan says next, which is done and told to it.
    pub fn turn(&mut self, alloc: Global, chance: &Chance) -> Result<Step, Fail> {
        let step = self.plan.next(self.graph);
        match step {
            Step::Judge(edge) => self.plan.judged(self.graph, edge, chance.verdict),
            Step::Start(edge) => {
                self.running.push(edge)?;
                self.plan.started(edge);
            }
            Step::Wait => self.end_one(alloc, chance)?,
            Step::Load(_) | Step::Ended(_) => {}
        }
        Ok(step)
    }

    /// One of the running commands ends.
    fn end_one(&mut self, alloc: Global, chance: &Chance) -> Result<(), Fail> {
        let Some(edge) = take_out(&mut self.running, chance.place) else {
            return Err("a wait where nothing runs".into());
        };
        if !self.runs(edge) {
            return Err("an end of what does not run".into());
        }
        let flags = flags_of(alloc, self.graph.outputs(edge).len(), chance.changed)?;
        self.plan.finished(self.graph, edge, chance.ok, Changed::Each(flags.as_slice()));
        Ok(())
    }

    fn runs(&self, edge: EdgeId) -> bool
        ensures within { IsTrue result → edge < vec_len self.now.plan.standings }
        ensures running { IsTrue result → standing_at self.now.plan.standings.items edge ≡ Standing.Running }
    {
        edge.index() < self.plan.standings.len()
            && matches!(self.plan.standing(edge), Standing::Running)
    }
}
