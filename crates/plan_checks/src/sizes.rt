//! Graphs of many edges.

use crate::graphs::{cone_of, graph_of};
use crate::run::{Chance, Run};
use plan::{End, Step, Verdict};
use std::alloc::{AllocError, Global};
use std::test::Fail;

const RULES: &str = "\
pool few
  depth = 4
rule free
  command = x
rule few
  command = x
  pool = few
";

/// So many edges that need nothing of one another, each second one in a pool.
fn fan(alloc: Global, edges: usize) -> Result<String, AllocError> {
    let mut text = String::from_str(alloc, RULES)?;
    for place in 0..edges {
        let rule = if place % 2 == 0 { "few" } else { "free" };
        let line = format!(in alloc; "build o{place}: {rule} s\n")?;
        text.push_str(line.as_str())?;
    }
    Ok(text)
}

/// So many edges of which each needs the one before it.
fn chain(alloc: Global, edges: usize) -> Result<String, AllocError> {
    let mut text = String::from_str(alloc, RULES)?;
    for place in 0..edges {
        let next = place.saturating_add(1);
        let line = format!(in alloc; "build o{next}: free o{place}\n")?;
        text.push_str(line.as_str())?;
    }
    Ok(text)
}

/// How many steps a build has in which each command is out of date and ends well, up to so many; none where it does not end
/// so.
fn steps_of(run: &mut Run<'_>, alloc: Global, most: usize) -> Result<Option<usize>, Fail> {
    let chance = Chance {
        verdict: Verdict::OutOfDate,
        place: 0,
        ok: true,
        changed: 1,
    };
    for done in 0..most {
        if let Step::Ended(end) = run.turn(alloc, &chance)? {
            return Ok(if matches!(end, End::Well) {
                Some(done)
            } else {
                None
            });
        }
    }
    Ok(None)
}

fn steps_through(
    alloc: Global,
    text: String,
    jobs: usize,
    most: usize,
) -> Result<Option<usize>, Fail> {
    let graph = graph_of(alloc, text)?;
    let cone = cone_of(alloc, &graph, None)?;
    let mut run = Run::new(alloc, &graph, &cone, jobs, 1)?;
    steps_of(&mut run, alloc, most)
}

#[test]
fn a_fan_of_many_edges(rt: HostRuntime) -> Result<(), Fail> {
    let text = fan(rt.alloc(), 200_000)?;
    assert_eq!(rt;
        steps_through(rt.alloc(), text, 8, 1_000_000)?,
        Some(600_000)
    );
    Ok(())
}

#[test]
fn a_chain_of_many_edges(rt: HostRuntime) -> Result<(), Fail> {
    let text = chain(rt.alloc(), 1_000_000)?;
    assert_eq!(rt;
        steps_through(rt.alloc(), text, 1, 4_000_000)?,
        Some(3_000_000)
    );
    Ok(())
}
