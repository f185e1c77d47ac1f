//! Notes of what commands reported to have read before it was made.

ghost use Rattle.std.specs.Prelude.{◌<◌, IfSome, length};

use crate::anew::deps_log_in;
use host::Host;
use log_text::{Deps, DepsLog};
use model::{Act, Event};
use notes::{MadeLater, Note, Reported, made_later, makers_of};
use paths::{Action, EdgeId, Manifest};
use site::Site;
use std::alloc::{AllocError, Global};
use std::io::Write;
use text::Path;

/// So many are told one by one.
const MOST: usize = 10;

/// Notes of what commands reported that were started, by what this file declares and the deps log in this folder tells: that they read what
/// another one makes, which had not ended when they were started. The first few of them, and how many more there are. Where fewer than two
/// commands were started, or none of them reports anything, nothing is read. What only a dyndep file names is not found, and nothing where
/// there is no memory.
pub fn read_too_early<W: Write>(
    alloc: Global,
    host: &mut Host<'_, W>,
    file: &str,
    folder: &str,
) -> Option<Vec<Note>> {
    if !may_report(host.events()) {
        return None;
    }
    let log = deps_log_in(alloc, host, folder)?;
    by_log(alloc, host, file, &log)
}

/// Whether there were two commands, of which one reports what it read.
fn may_report(events: &[Event]) -> bool {
    let mut starts = 0usize;
    let mut reports = false;
    for event in events {
        if let Event::Start { act, .. } = event {
            starts = starts.saturating_add(1);
            reports = reports || !act.depfile.as_str().is_empty();
        }
    }
    reports && starts > 1
}

fn by_log<W: Write>(
    alloc: Global,
    host: &mut Host<'_, W>,
    file: &str,
    log: &DepsLog,
) -> Option<Vec<Note>> {
    let manifest = manifest::read(alloc, host, file).ok()?;
    by_both(alloc, host.events(), &manifest, log).ok()
}

fn by_both(
    alloc: Global,
    events: &[Event],
    manifest: &Manifest,
    log: &DepsLog,
) -> Result<Vec<Note>, AllocError> {
    let reports = reports_of(alloc, events, manifest, log)?;
    notes_of(alloc, events, manifest, log, &reports)
}

/// Notes of those of these reports that came too early.
fn notes_of(
    alloc: Global,
    events: &[Event],
    manifest: &Manifest,
    log: &DepsLog,
    reports: &[Reported],
) -> Result<Vec<Note>, AllocError> {
    let found = made_later(alloc, events, reports)?;
    let told = found.len().min(MOST);
    let mut notes = Vec::new(alloc);
    for report in &found[..told] {
        push_note(alloc, manifest, log, *report, &mut notes)?;
    }
    if found.len() > told {
        notes.push(Note::MoreMadeLater(found.len() - told))?;
    }
    Ok(notes)
}

/// What commands that were started reported of paths that others make.
fn reports_of(
    alloc: Global,
    events: &[Event],
    manifest: &Manifest,
    log: &DepsLog,
) -> Result<Vec<Reported>, AllocError> {
    let makers = makers_of(alloc, manifest)?;
    let mut reports = Vec::new(alloc);
    for event in events {
        push_reports(event, manifest, log, &makers, &mut reports)?;
    }
    Ok(reports)
}

/// Adds what the command reported that was started with the event.
fn push_reports(
    event: &Event,
    manifest: &Manifest,
    log: &DepsLog,
    makers: &[Option<EdgeId>],
    reports: &mut Vec<Reported>,
) -> Result<(), AllocError> {
    let Event::Start { job, act, stamp } = event else {
        return Ok(());
    };
    let Some(output) = output_of(manifest, *job, act) else {
        return Ok(());
    };
    let Some(deps) = deps_of(log, output, *stamp) else {
        return Ok(());
    };
    for path in deps.paths.as_slice() {
        if let Some(maker) = maker_of(manifest, log, makers, *path) {
            if maker != *job {
                reports.push(Reported {
                    reader: *job,
                    maker,
                    path: *path,
                })?;
            }
        }
    }
    Ok(())
}

/// What was recorded of this output after the start under this stamp.
fn deps_of<'a>(log: &'a DepsLog, output: &str, stamp: u64) -> Option<&'a Deps> {
    let deps = log.lookup(output)?;
    if deps.start == stamp {
        Some(deps)
    } else {
        None
    }
}

/// The first output of a job, where its edge has this command still, and what that reports counts.
fn output_of<'a>(manifest: &'a Manifest, job: usize, act: &Act) -> Option<&'a str> {
    let edge = edge_of(manifest, job)?;
    match manifest.action(edge) {
        Action::Command(command) if command.act == *act && command.dyndep.is_none() => {
            first_output(manifest, edge)
        }
        _ => None,
    }
}

/// The edge of a job: they are counted from 1.
fn edge_of(manifest: &Manifest, job: usize) -> Option<EdgeId>
    ensures { IfSome result (λ edge. edge < length manifest.now.lines) }
{
    let place = job.checked_sub(1)?;
    if place < manifest.lines.len() {
        Some(manifest.edge(place))
    } else {
        None
    }
}

fn first_output(manifest: &Manifest, edge: EdgeId) -> Option<&str>
    requires { edge < length manifest.now.lines }
{
    let output = manifest.lines.outputs(edge).first()?;
    manifest.paths.get(*output)
}

/// The job that makes the path with this number of the log, if there is one.
fn maker_of(
    manifest: &Manifest,
    log: &DepsLog,
    makers: &[Option<EdgeId>],
    path: u32,
) -> Option<usize> {
    let number = manifest.number_of(log.path(path)?)?;
    let maker = (*makers.get(number.index())?)?;
    Some(maker.index().saturating_add(1))
}

/// Adds the note of a report.
fn push_note(
    alloc: Global,
    manifest: &Manifest,
    log: &DepsLog,
    report: Reported,
    notes: &mut Vec<Note>,
) -> Result<(), AllocError> {
    let Some(edge) = edge_of(manifest, report.reader) else {
        return Ok(());
    };
    if let (Some(output), Some(input)) = (first_output(manifest, edge), log.path(report.path)) {
        notes.push(Note::MadeLater(MadeLater {
            output: Path::from_str(alloc, output)?,
            input: Path::from_str(alloc, input)?,
        }))?;
    }
    Ok(())
}
