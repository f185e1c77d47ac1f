//! What was reported to be read before the command that makes it had ended.

ghost use Rattle.std.specs.Prelude.{◌≡◌, ◌≤◌, [], ◌∷◌, ◌++◌, IfOk, OnOk, Some, false, filter, get_or, if◌then◌else◌, length, true};
ghost use Rattle.notes.specs.Ahead.{AreFirsts, HasSame, IsPut, ended_by, is_made_later, started_by};

use model::Event;
use std::alloc::{AllocError, Global};

/// The command of a job reported that it read a path which the command of another job makes. The path is a number of the caller's own.
#[derive(Clone, Copy, Debug)]
pub struct Reported {
    pub reader: usize,
    pub maker: usize,
    pub path: u32,
}

/// Those of these reports whose commands were both started, where the maker's had not ended when the reader's was started: it ran then, or
/// was started later. So it is not above, whatever the build lines say. It takes a time of the order of the events, the reports and the
/// numbers of jobs.
pub fn made_later(
    alloc: Global,
    events: &[Event],
    reports: &[Reported],
) -> Result<Vec<Reported>, AllocError>
    ensures { IfOk result (λ found. found.items ≡ filter (is_made_later events.now) reports.now) }
{
    let starts = firsts(alloc, events, false)?;
    let ends = firsts(alloc, events, true)?;
    made_later_by(alloc, events, starts.as_slice(), ends.as_slice(), reports)
}

/// The same, by the place of each job's first start and first end.
fn made_later_by(
    alloc: Global,
    events: &[Event],
    starts: &[usize],
    ends: &[usize],
    reports: &[Reported],
) -> Result<Vec<Reported>, AllocError>
    requires starts { AreFirsts false events.now starts.now }
    requires ends { AreFirsts true events.now ends.now }
    ensures { IfOk result (λ found. found.items ≡ filter (is_made_later events.now) reports.now) }
{
    let mut found = Vec::new(alloc);
    for report in reports {
        let is_one = is_made_later(events, starts, ends, *report);
        push_if(&mut found, *report, is_one)?;
    }
    Ok(found)
}

/// Adds the report, if it is one of those.
fn push_if(found: &mut Vec<Reported>, report: Reported, is_one: bool) -> Result<(), AllocError>
    ensures { OnOk result (found.new.items ≡ found.old.items ++ (if is_one then report ∷ [] else [])) }
{
    if is_one {
        found.push(report)?;
    }
    Ok(())
}

/// Whether both commands were started, and the maker's had not ended when the reader's was started.
fn is_made_later(events: &[Event], starts: &[usize], ends: &[usize], report: Reported) -> bool
    requires starts { AreFirsts false events.now starts.now }
    requires ends { AreFirsts true events.now ends.now }
    ensures { result ≡ is_made_later events.now report }
{
    let none = events.len();
    let reader = place_in(starts, report.reader, none);
    let maker = place_in(starts, report.maker, none);
    let has_ended = place_in(ends, report.maker, none) < reader;
    reader < none && maker < none && !has_ended
}

/// The place of a job; this one where there is none.
fn place_in(places: &[usize], job: usize, none: usize) -> usize
    ensures { result ≡ get_or places.now job none }
{
    if job < places.len() {
        places[job]
    } else {
        none
    }
}

/// For each job how many events come before its first end, or before its first start; for one without a place, all.
fn firsts(alloc: Global, events: &[Event], ends: bool) -> Result<Vec<usize>, AllocError>
    ensures { IfOk result (λ places. AreFirsts ends events.now places.items) }
{
    let none = events.len();
    let mut places = Vec::new(alloc);
    let mut left = none;
    while left > 0 {
        left -= 1;
        put_job(&mut places, job_in(&events[left], ends), left, none)?;
    }
    Ok(places)
}

/// The job whose command ended with the event, or was started with it.
fn job_in(event: &Event, ends: bool) -> Option<usize>
    ensures { result ≡ (if ends then ended_by event.now else started_by event.now) }
{
    match event {
        Event::Start { job, .. } if !ends => Some(*job),
        Event::Finish { job, .. } if ends => Some(*job),
        _ => None,
    }
}

/// Puts down the place of the job, if there is one.
fn put_job(
    places: &mut Vec<usize>,
    job: Option<usize>,
    place: usize,
    none: usize,
) -> Result<(), AllocError>
    ensures { OnOk result (IsPut job place none places.old.items places.new.items) }
{
    match job {
        Some(job) => put(places, job, place, none),
        None => Ok(()),
    }
}

/// Puts down the place of a job.
fn put(places: &mut Vec<usize>, job: usize, place: usize, none: usize) -> Result<(), AllocError>
    ensures { OnOk result (IsPut (Some job) place none places.old.items places.new.items) }
{
    let count = job.checked_add(1).ok_or(AllocError)?;
    widen(places, count, none)?;
    places[job] = place;
    Ok(())
}

/// Makes room for so many jobs.
fn widen(places: &mut Vec<usize>, count: usize, none: usize) -> Result<(), AllocError>
    ensures same { OnOk result (HasSame none places.old.items places.new.items) }
    ensures wide { OnOk result (count ≤ length places.new.items) }
{
    if places.len() < count {
        places.resize(count, none)?;
    }
    Ok(())
}
