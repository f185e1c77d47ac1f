//! What an audit finds, once a build has ended: each command that was started in it has left a trace.

ghost use Rattle.host.specs.World.{world_of};
ghost use Rattle.nj_run.specs.Looked.{StartsNothing};

use crate::anew::{auditor_of, take_trace};
use crate::links::learn_links;
use crate::shared::look_at_shares;
use auditor::{Auditor, Tally};
use builder::{Options, Reading};
use host::{Host, SHARED_TRACE};
use model::Event;
use paths::{PathId, Paths};
use site::Site;
use std::alloc::{AllocError, Global};
use std::io::Write;
use text::{Path, Text};

/// The same, where the working folder is a text.
#[derive(Clone, Copy)]
pub struct Here<'p> {
    pub folder: &'p str,
    pub left: Option<&'p Paths>,
    pub is_shared: bool,
}

/// A command that ended.
#[derive(Clone, Copy)]
struct Ended {
    job: usize,
    ok: bool,
}

/// Where a build was audited.
#[derive(Clone, Copy)]
pub struct Place<'p> {
    /// The working folder, from the root, if that is a text.
    pub folder: Option<&'p str>,
    /// The files that stood below the folder for scratch files before it, if that is known.
    pub left: Option<&'p Paths>,
    /// Whether one trace has the lines of all commands.
    pub is_shared: bool,
}

/// Looks at all commands that were started and ended well, and removes their traces. None where the working folder is no text, the build files
/// cannot be read any more, or there is no memory.
pub fn look<W: Write>(
    rt: &HostRuntime,
    host: &mut Host<'_, W>,
    options: &Options,
    targets: &[Text],
    place: Place<'_>,
) -> Option<Tally>
    ensures { StartsNothing (world_of host.old) (world_of host.new) }
{
    let tally = look_in(rt, host, options, targets, place);
    let_go(rt.alloc(), host, place.is_shared, tally.is_some());
    tally
}

/// The same, but that traces stay which were not looked at.
fn look_in<W: Write>(
    rt: &HostRuntime,
    host: &mut Host<'_, W>,
    options: &Options,
    targets: &[Text],
    place: Place<'_>,
) -> Option<Tally>
    ensures { StartsNothing (world_of host.old) (world_of host.new) }
{
    let here = Here {
        folder: place.folder?,
        left: place.left,
        is_shared: place.is_shared,
    };
    look_here(rt, host, options, targets, here)
}

/// Removes the one trace over all commands, or, where nobody looked at those of each, these.
fn let_go<W: Write>(alloc: Global, host: &mut Host<'_, W>, is_shared: bool, was_looked: bool)
    ensures { StartsNothing (world_of host.old) (world_of host.new) }
{
    if is_shared {
        let _ = host.remove(SHARED_TRACE);
    } else if !was_looked {
        let _ = let_traces_go(alloc, host);
    }
}

fn look_here<W: Write>(
    rt: &HostRuntime,
    host: &mut Host<'_, W>,
    options: &Options,
    targets: &[Text],
    here: Here<'_>,
) -> Option<Tally>
    ensures { StartsNothing (world_of host.old) (world_of host.new) }
{
    let alloc = rt.alloc();
    let Reading { manifest, asked } = builder::read(alloc, host, options, targets).ok()?;
    let mut auditor = auditor_of(rt, host, manifest, asked.folder.as_str(), here)?;
    look_by(rt, host, &mut auditor, asked.targets.as_slice(), here)
}

/// The same by what is declared and recorded.
fn look_by<W: Write>(
    rt: &HostRuntime,
    host: &mut Host<'_, W>,
    auditor: &mut Auditor,
    targets: &[Path],
    here: Here<'_>,
) -> Option<Tally>
    ensures { StartsNothing (world_of host.old) (world_of host.new) }
{
    let commands = auditor.commands(targets)?;
    let mut tally = Tally::new(rt.alloc(), commands);
    look_at_these(rt, host, auditor, &mut tally, here)?;
    Some(tally)
}

/// Takes in what stood before the build, and looks at the commands that ended well, by the one trace or by that of each.
fn look_at_these<W: Write>(
    rt: &HostRuntime,
    host: &mut Host<'_, W>,
    auditor: &mut Auditor,
    tally: &mut Tally,
    here: Here<'_>,
) -> Option<()>
    ensures { StartsNothing (world_of host.old) (world_of host.new) }
{
    take_left(rt.alloc(), here, tally)?;
    if here.is_shared {
        look_at_shares(rt, host, auditor, tally)
    } else {
        look_at_all(rt, host, auditor, tally)
    }
}

/// Takes in the files that stood below the folder for scratch files.
fn take_left(alloc: Global, here: Here<'_>, tally: &mut Tally) -> Option<()> {
    let Some(left) = here.left else {
        return Some(());
    };
    for place in 0..left.len() {
        let path = PathId::at(place)?;
        tally.leave(alloc, left.get(path).unwrap_or("")).ok()?;
    }
    Some(())
}

fn look_at_all<W: Write>(
    rt: &HostRuntime,
    host: &mut Host<'_, W>,
    auditor: &mut Auditor,
    tally: &mut Tally,
) -> Option<()>
    ensures { StartsNothing (world_of host.old) (world_of host.new) }
{
    let ended = ended_in(rt.alloc(), host).ok()?;
    for end in &ended {
        look_at(rt, host, auditor, *end, tally)?;
    }
    Some(())
}

/// Removes the traces that nobody looks at, as far as there is memory to name them.
fn let_traces_go<W: Write>(alloc: Global, host: &mut Host<'_, W>) -> Result<(), AllocError>
    ensures { StartsNothing (world_of host.old) (world_of host.new) }
{
    let ended = ended_in(alloc, host)?;
    for end in &ended {
        let _ = take_trace(host, end.job);
    }
    Ok(())
}

/// The commands that ended.
fn ended_in<W: Write>(alloc: Global, host: &Host<'_, W>) -> Result<Vec<Ended>, AllocError> {
    let mut ended = Vec::new(alloc);
    for event in host.events() {
        if let Event::Finish { job, ok } = event {
            ended.push(Ended { job: *job, ok: *ok })?;
        }
    }
    Ok(ended)
}

/// Looks at one command by its trace, which is removed. One that failed is not looked at.
fn look_at<W: Write>(
    rt: &HostRuntime,
    host: &mut Host<'_, W>,
    auditor: &mut Auditor,
    end: Ended,
    tally: &mut Tally,
) -> Option<()>
    ensures { StartsNothing (world_of host.old) (world_of host.new) }
{
    let trace = take_trace(host, end.job);
    if !end.ok {
        return Some(());
    }
    let told = match &trace {
        Some(trace) => {
            learn_links(rt, auditor, trace.as_slice())?;
            auditor.take(end.job, Some(trace.as_slice()), tally)
        }
        None => auditor.take(end.job, None, tally),
    };
    told.ok()
}
