//! What is done on a site in memory, on which no command runs between two moves.

ghost use Rattle.std.specs.Prelude.{◌≡◌};
ghost use Rattle.model.specs.World.{IsIdle};
ghost use Rattle.sim.specs.World.{world_of};

use crate::lines::{Move, move_of};
use builder::{Options, Report, build};
use meanwhile::{put_edges, targets};
use model::{Event, SiteFault};
use sim::{Sim, Toy};
use site::Site;
use std::alloc::{AllocError, Global};
use tables::unescaped;
use text::Text;

/// What went wrong in a build.
#[derive(Clone, Copy, PartialEq, Eq)]
pub enum Met {
    Nothing,
    /// The device refused a call, and no command ran when that was answered.
    Refused,
    /// The device refused a call, and commands ran when that was answered.
    RefusedWhileRunning,
    /// The site stopped.
    Stopped,
    /// There was no memory.
    NoMemory,
}

/// Builds once all commands that were left running have ended.
pub fn build_alone(
    alloc: Global,
    site: &mut Sim<Toy>,
    options: &Options,
    targets: &[Text],
) -> Report {
    start_again(site);
    build(alloc, site, options, targets)
}

/// All commands have ended.
pub fn start_again(site: &mut Sim<Toy>)
    ensures { IsIdle (world_of site.new).events }
{
    site.restart();
}

/// Builds the target, or what is built by default, and answers whether something went wrong.
fn build_target(
    alloc: Global,
    site: &mut Sim<Toy>,
    target: Option<&str>,
    options: &Options,
) -> Result<Met, AllocError> {
    let targets = targets(alloc, target)?;
    let report = build_alone(alloc, site, options, targets.as_slice());
    Ok(met_in(&report, site))
}

/// What went wrong in the build that has just ended so.
fn met_in(report: &Report, site: &Sim<Toy>) -> Met {
    match report {
        Report::Fault(SiteFault::Device) => refused(site.events()),
        Report::Fault(SiteFault::Stopped) => Met::Stopped,
        Report::Fault(SiteFault::Memory) => Met::NoMemory,
        Report::Success { .. } => Met::Nothing,
        Report::Failed { .. } => Met::Nothing,
        Report::Refused(_) => Met::Nothing,
    }
}

/// That a call was refused, where these are the starts and finishes so far.
fn refused(events: &[Event]) -> Met {
    let mut finishes = 0_usize;
    for event in events {
        if is_finish(event) {
            finishes = finishes.saturating_add(1);
        }
    }
    if finishes < events.len().saturating_sub(finishes) {
        Met::RefusedWhileRunning
    } else {
        Met::Refused
    }
}

fn is_finish(event: &Event) -> bool {
    match event {
        Event::Start { .. } => false,
        Event::Finish { .. } => true,
    }
}

/// Somebody writes this text.
pub fn put(alloc: Global, site: &mut Sim<Toy>, path: &str, text: &str) -> Result<(), AllocError> {
    let bytes = unescaped(alloc, text)?;
    site.put(path, bytes.as_slice())
}

/// Does what a line says, and answers whether something went wrong.
fn make(
    alloc: Global,
    site: &mut Sim<Toy>,
    line: &str,
    options: &Options,
) -> Result<Met, AllocError> {
    start_again(site);
    match move_of(line) {
        Move::Build(target) => return build_target(alloc, site, target, options),
        Move::Left(path, text) => put(alloc, site, path, text)?,
        other => edit(alloc, site, other)?,
    }
    Ok(Met::Nothing)
}

/// Does what the lines say, and answers what went wrong last.
pub fn make_all(
    alloc: Global,
    site: &mut Sim<Toy>,
    moves: &str,
    options: &Options,
) -> Result<Met, AllocError> {
    let mut met = Met::Nothing;
    for line in moves.split('\n') {
        let now = make(alloc, site, line, options)?;
        if now != Met::Nothing {
            met = now;
        }
    }
    Ok(met)
}

/// Makes the edits of what no command makes, and builds nothing.
pub fn edit_all(alloc: Global, site: &mut Sim<Toy>, moves: &str) -> Result<(), AllocError> {
    for line in moves.split('\n') {
        edit(alloc, site, move_of(line))?;
    }
    Ok(())
}

fn edit(alloc: Global, site: &mut Sim<Toy>, said: Move<'_>) -> Result<(), AllocError> {
    match said {
        Move::Write(path, text) => put(alloc, site, path, text),
        Move::Edges(edges) => put_edges(alloc, site, edges),
        Move::Delete(path) => site.erase(path),
        Move::Left(_, _) => Ok(()),
        Move::Build(_) => Ok(()),
    }
}
