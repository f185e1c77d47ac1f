//! The plan and the plain one, on build files that are made up.

use crate::graphs::{cone_of, graph_of};
use crate::made_up::{Random, build_file};
use crate::plain_run::PlainRun;
use crate::run::{Chance, Run};
use graph::{Cone, Graph};
use paths::PathId;
use plan::{End, Step};
use std::alloc::{AllocError, Global};
use std::test::Fail;

/// More steps than a build of so many edges can have, and its last word.
const MOST_STEPS: usize = 200;

/// How often each step was taken, in all builds.
#[derive(Clone, Copy, Debug, PartialEq, Eq)]
struct Counts {
    judged: usize,
    started: usize,
    waited: usize,
    well: usize,
    failed: usize,
}

impl Counts {
    const NONE: Counts = Counts {
        judged: 0,
        started: 0,
        waited: 0,
        well: 0,
        failed: 0,
    };

    fn count(&mut self, step: Step) {
        let count = match step {
            // no edge names a dyndep file
            Step::Load(_) | Step::Judge(_) => &mut self.judged,
            Step::Start(_) => &mut self.started,
            Step::Wait => &mut self.waited,
            Step::Ended(End::Well) => &mut self.well,
            Step::Ended(End::Failed) => &mut self.failed,
        };
        *count = count.saturating_add(1);
    }
}

/// What the thousand builds came to when they were first seen to be the same.
const TAKEN: Counts = Counts {
    judged: 15705,
    started: 11427,
    waited: 11427,
    well: 607,
    failed: 393,
};

/// Takes both plans through one build, and tells whether they said the same, to its end.
fn run_both(
    alloc: Global,
    one: &mut Run<'_>,
    other: &mut PlainRun<'_>,
    random: &mut Random,
    counts: &mut Counts,
) -> Result<bool, Fail> {
    for _ in 0..MOST_STEPS {
        let chance = Chance::draw(random);
        let step = one.turn(alloc, &chance)?;
        if other.turn(alloc, &chance)? != step {
            return Ok(false);
        }
        counts.count(step);
        if matches!(step, Step::Ended(_)) {
            return Ok(true);
        }
    }
    Ok(false)
}

/// Whether both plans tell the same of each path.
fn tell_the_same(one: &Run<'_>, other: &PlainRun<'_>) -> bool {
    for place in 0..one.graph.paths().saturating_add(1) {
        if let Some(path) = PathId::at(place) {
            if one.plan.changed(path) != other.plan.changed(path) {
                return false;
            }
        }
    }
    true
}

fn is_same(
    alloc: Global,
    graph: &Graph,
    cone: &Cone,
    random: &mut Random,
    counts: &mut Counts,
) -> Result<bool, Fail> {
    let jobs = random.below(5);
    let keep = random.below(4);
    let mut one = Run::new(alloc, graph, cone, jobs, keep)?;
    let mut other = PlainRun::new(alloc, graph, cone, jobs, keep)?;
    let same = run_both(alloc, &mut one, &mut other, random, counts)?;
    Ok(same && tell_the_same(&one, &other))
}

/// The target that is asked for; none in most builds.
fn target(alloc: Global, random: &mut Random, edges: usize) -> Result<Option<String>, AllocError> {
    if random.one_in(4) {
        return Ok(Some(format!(in alloc; "o{}", random.below(edges))?));
    }
    Ok(None)
}

fn check(alloc: Global, seed: u64, counts: &mut Counts) -> Result<bool, Fail> {
    let mut random = Random::new(seed);
    let (text, edges) = build_file(alloc, &mut random)?;
    let graph = graph_of(alloc, text)?;
    let target = target(alloc, &mut random, edges)?;
    let cone = cone_of(alloc, &graph, target.as_deref())?;
    is_same(alloc, &graph, &cone, &mut random, counts)
}

#[test]
fn both_plans_give_the_same_steps(rt: HostRuntime) -> Result<(), Fail> {
    let mut counts = Counts::NONE;
    for seed in 0..1000u64 {
        assert!(rt; check(rt.alloc(), seed, &mut counts)?, "at {seed}");
    }
    assert_eq!(rt; counts, TAKEN);
    Ok(())
}
