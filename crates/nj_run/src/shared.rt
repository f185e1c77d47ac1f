//! What an audit finds by one trace over all commands.

ghost use Rattle.std.specs.Prelude.{◌≡◌, ◌<◌, IfOk, IfSome, IsTrue, map, vec_len};
ghost use Rattle.std.specs.Fmt.{signed_decimal};
ghost use Rattle.host.specs.World.{world_of};
ghost use Rattle.nj_run.specs.Looked.{StartsNothing};
ghost use Rattle.nj_run.specs.Shared.{AreSharesOf, jobs_of, jobs_started};

use crate::links::learn_links;
use auditor::{Auditor, Tally};
use host::{Host, SHARED_TRACE};
use model::Event;
use shares::{Families, Lines, Share, Shares, TakesLines};
use site::{Site, Texts};
use std::alloc::{AllocError, Global};
use std::io::Write;
use text::Bytes;

/// A command that was started.
#[derive(Clone, Copy)]
struct Started {
    job: usize,
    /// Whether it ended, and well.
    ok: bool,
    /// Whether it was looked at.
    is_seen: bool,
}

impl Started {
    fn end(&mut self, ok: bool)
        ensures { self.new.job ≡ self.old.job }
    {
        self.ok = ok;
    }
}

/// Looks at all commands that ended well, by the lines of the one trace that are theirs. One whose lines are not all known counts as not
/// understood.
pub fn look_at_shares<W: Write>(
    rt: &HostRuntime,
    host: &mut Host<'_, W>,
    auditor: &mut Auditor,
    tally: &mut Tally,
) -> Option<()>
    ensures { StartsNothing (world_of host.old) (world_of host.new) }
{
    let alloc = rt.alloc();
    let mut started = started_in(alloc, host.events()).ok()?;
    look_at_known(rt, host, auditor, &mut started, tally)?;
    take_unseen(auditor, started.as_slice(), tally)
}

/// Looks at those whose lines are all known; at none where the trace is not that of just the processes that were started.
fn look_at_known<W: Write>(
    rt: &HostRuntime,
    host: &mut Host<'_, W>,
    auditor: &mut Auditor,
    started: &mut Vec<Started>,
    tally: &mut Tally,
) -> Option<()>
    ensures { StartsNothing (world_of host.old) (world_of host.new) }
{
    match shares_in(rt.alloc(), host)? {
        Some(shares) => {
            let looking = Looking {
                rt,
                auditor,
                shares,
                started,
                tally,
            };
            look_by(host, looking)
        }
        None => Some(()),
    }
}

/// Takes in those that ended well and were not looked at.
fn take_unseen(auditor: &Auditor, started: &[Started], tally: &mut Tally) -> Option<()> {
    for command in started {
        if command.ok && !command.is_seen {
            auditor.take(command.job, None, tally).ok()?;
        }
    }
    Some(())
}

/// The commands that were started, in order.
fn started_in(alloc: Global, events: &[Event]) -> Result<Vec<Started>, AllocError>
    ensures { IfOk result (λ started. jobs_of started.items ≡ jobs_started events.now) }
{
    let mut started = Vec::new(alloc);
    let mut running: Vec<usize> = Vec::new(alloc);
    for event in events {
        match event {
            Event::Start { job, .. } => {
                running.push(started.len())?;
                started.push(Started {
                    job: *job,
                    ok: false,
                    is_seen: false,
                })?;
            }
            Event::Finish { job, ok } => finish(&mut started, &mut running, *job, *ok),
        }
    }
    Ok(started)
}

/// Notes how one of those that run has ended.
fn finish(started: &mut Vec<Started>, running: &mut Vec<usize>, job: usize, ok: bool)
    ensures { jobs_of started.new.items ≡ jobs_of started.old.items }
{
    for place in 0..running.len() {
        let index = running[place];
        if index < started.len() && started[index].job == job {
            finish_at(started, index, ok);
            let _ = running.swap_remove(place);
            return;
        }
    }
}

/// Notes how the command in this place has ended.
fn finish_at(started: &mut Vec<Started>, index: usize, ok: bool)
    requires { index < vec_len started.old }
    ensures { jobs_of started.new.items ≡ jobs_of started.old.items }
{
    started[index].end(ok);
}

/// Whose each line of the trace is, by a first reading; none where it is not the trace of just the processes that were started.
fn shares_in<W: Write>(alloc: Global, host: &mut Host<'_, W>) -> Option<Option<Shares>>
    ensures { StartsNothing (world_of host.old) (world_of host.new) }
{
    match families_in(alloc, host) {
        Some(families) => shares_of(alloc, &families, host.numbers()),
        None => Some(None),
    }
}

/// Which process started which, where the trace can be read.
fn families_in<W: Write>(alloc: Global, host: &mut Host<'_, W>) -> Option<Families>
    ensures { StartsNothing (world_of host.old) (world_of host.new) }
{
    let mut lines = Lines::new(alloc, Families::new(alloc));
    host.read_into(SHARED_TRACE, &mut lines).ok()?;
    Some(lines.into_taker())
}

/// Whose each line is of a trace that tells this; none where it does not tell of just the processes of these numbers.
fn shares_of(alloc: Global, families: &Families, numbers: &[i32]) -> Option<Option<Shares>>
    ensures { IfSome result (λ found. IfSome found (AreSharesOf families.now numbers.now)) }
{
    if !are_all(alloc, families.commands.as_slice(), numbers).ok()? {
        return Some(None);
    }
    Some(Some(Shares::new(alloc, families).ok()?))
}

/// Whether the trace tells of just these processes, in this order.
fn are_all(alloc: Global, told: &[Bytes], numbers: &[i32]) -> Result<bool, AllocError>
    ensures { IfOk result (λ all. IsTrue all → told.now ≡ map signed_decimal numbers.now) }
{
    let mut left = told;
    for number in numbers {
        let Some((one, behind)) = left.split_first() else {
            return Ok(false);
        };
        if !is_number(alloc, one.as_slice(), *number)? {
            return Ok(false);
        }
        left = behind;
    }
    Ok(left.is_empty())
}

/// Whether the text is this number, as a trace writes it.
fn is_number(alloc: Global, text: &[u8], number: i32) -> Result<bool, AllocError>
    ensures { IfOk result (λ is. IsTrue is → text.now ≡ signed_decimal number) }
{
    let number = format!(in alloc; "{number}")?;
    Ok(text == number.as_bytes())
}

/// Reads the trace once more, and looks at each command once all of its lines were read.
fn look_by<W: Write>(host: &mut Host<'_, W>, looking: Looking<'_>) -> Option<()>
    ensures { StartsNothing (world_of host.old) (world_of host.new) }
{
    let mut lines = Lines::new(looking.rt.alloc(), looking);
    host.read_into(SHARED_TRACE, &mut lines).ok()
}

/// Who looks at commands while their lines are read.
#[derive(Drop)]
struct Looking<'a> {
    rt: &'a HostRuntime,
    auditor: &'a mut Auditor,
    shares: Shares,
    started: &'a mut Vec<Started>,
    tally: &'a mut Tally,
}

impl<'a> TakesLines for Looking<'a> {
    ghost use Rattle.std.specs.Prelude.{⊤};

    ghost Read = { λ lines looking. ⊤ };

    fn take_line(&mut self, alloc: Global, line: &[u8]) -> Result<(), AllocError> {
        match self.shares.take_line(alloc, line)? {
            Some(share) => self.look_at(&share),
            None => Ok(()),
        }
    }
}

impl<'a> Looking<'a> {
    fn look_at(&mut self, share: &Share) -> Result<(), AllocError> {
        if share.command >= self.started.len() {
            return Ok(());
        }
        let started = self.started[share.command];
        self.started[share.command].is_seen = true;
        if !started.ok {
            return Ok(());
        }
        let trace = share.text.as_slice();
        learn_links(self.rt, self.auditor, trace).ok_or(AllocError)?;
        self.auditor.take(started.job, Some(trace), self.tally)
    }
}
