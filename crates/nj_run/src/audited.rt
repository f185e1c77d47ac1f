//! A run that audits: a build in which each command is traced, and what is told of that.

ghost use Rattle.std.specs.Prelude.{◌≡◌, ◌≤◌, IfOk, IfSome, OnOk, Some, true, false, if◌then◌else◌};
ghost use Rattle.nj_run.specs.Options.{audits};
ghost use Rattle.model.specs.World.{World};
ghost use Rattle.host.specs.World.{any_outcome, fresh, world_of};
ghost use Rattle.nj_run.specs.Alone.{BuildsAlone};
ghost use Rattle.nj_run.specs.Ends.{Comes, EndsFor, TellsAudit};
ghost use Rattle.nj_run.specs.Judged.{Found, TellsFound, Unjudged, counts_told, how_to_look, told_of};
ghost use Rattle.nj_run.specs.Texts.{Adds, no_tracer};
ghost use Rattle.nj_run.specs.Traces.{IsTracePath};

use crate::environment::Environment;
use crate::given::Options as Asked;
use crate::left::left_before;
use crate::looked::{Place, look};
use crate::noted::Noted;
use crate::program::{build_options, build_over, recall};
use crate::told;
use crate::tracer::tracer;
use crate::traces::named_trace;
use auditor::{Counts, Tally};
use builder::{Report, read};
use host::{Host, Trouble};
use status::Pattern;
use std::alloc::{AllocError, Global};
use std::io::Write;
use std::{env, io};
use text::Text;

/// What a build came to that was audited.
#[derive(Drop)]
struct Audited {
    report: Report,
    trouble: Option<Trouble>,
    tally: Option<Tally>,
}

/// Builds what is asked for in the working folder with each command traced, tells how that ended, and then what of that which commands did
/// breaks a premise. The status is 0 where the build succeeded, each command that the targets need was looked at and all keep all premises,
/// as far as the trace shows; else 1.
pub fn audit_asked<W: Write, E: Write>(
    asked: &Asked<'_>,
    environment: Environment<'_>,
    out: &mut W,
    err: &mut E,
    noted: &mut Noted<'_>,
) -> io::Result<u8>
    requires plain { asked.now.why ≡ false }
    requires audits { audits asked.now ≡ true }
    ensures range { IfOk result (λ status. status ≤ 1) }
    ensures comes { Comes (EndsFor asked.now) W.contents E.contents out.old out.new err.old err.new result }
{
    if environment.is_below {
        return audit_below(asked, environment, out, err, noted);
    }
    let Some(program) = tracer(noted.rt()) else {
        return untraced(err);
    };
    let named = named_here(asked, environment.pattern, out, noted.rt())?;
    if let Some(path) = named {
        return told::traced_over(path.as_str(), err);
    }
    let audited = audit_here(asked, environment, Some(program), out, noted)?;
    tell_all(noted.rt().alloc(), &audited, asked.audit_all, out, err)
}

/// The same of a run that one tracer is over, and over all commands.
fn audit_below<W: Write, E: Write>(
    asked: &Asked<'_>,
    environment: Environment<'_>,
    out: &mut W,
    err: &mut E,
    noted: &mut Noted<'_>,
) -> io::Result<u8>
    requires plain { asked.now.why ≡ false }
    requires audits { audits asked.now ≡ true }
    ensures range { IfOk result (λ status. status ≤ 1) }
    ensures comes { Comes (EndsFor asked.now) W.contents E.contents out.old out.new err.old err.new result }
{
    let audited = audit_here(asked, environment, None, out, noted)?;
    tell_all(noted.rt().alloc(), &audited, asked.audit_all, out, err)
}

/// Tells that commands cannot be traced. The status is 1.
fn untraced<E: Write>(err: &mut E) -> io::Result<u8>
    ensures status { IfOk result (λ status. status ≡ 1) }
    ensures told { OnOk result (Adds (E.contents err.old) (E.contents err.new) (Some no_tracer)) }
{
    writeln!(
        err,
        "nj: error: no strace in PATH that traces a program here; nothing was started"
    )?;
    err.flush()?;
    Ok(1)
}

/// The first path that build lines name and to which traces are written, if there is one. Of build files with a fault there is none: the
/// build is to tell of that. Nothing is started or written.
pub(crate) fn named_here<W: Write>(
    asked: &Asked<'_>,
    pattern: Option<&str>,
    out: &mut W,
    rt: &HostRuntime,
) -> Result<Option<Text>, AllocError>
    ensures { IfOk result (λ found. IfSome found IsTracePath) }
{
    let alloc = rt.alloc();
    let (options, targets) = build_options(alloc, asked, pattern)?;
    let mut host = Host::new(alloc, rt, out);
    match read(alloc, &mut host, &options, targets.as_slice()) {
        Ok(reading) => named_trace(alloc, &reading.manifest),
        Err(_) => Ok(None),
    }
}

/// Builds in the working folder with each command traced by this program, or, without one, below one tracer of all commands, and looks at
/// what was traced.
fn audit_here<W: Write>(
    asked: &Asked<'_>,
    environment: Environment<'_>,
    program: Option<String>,
    out: &mut W,
    noted: &mut Noted<'_>,
) -> io::Result<Audited>
    ensures { IfOk result (λ audited. (later : World) × BuildsAlone false any_outcome asked.now fresh later audited.report) }
{
    let rt = noted.rt();
    let alloc = rt.alloc();
    let folder = env::current_dir(rt)?;
    let (options, targets) = build_options(alloc, asked, environment.pattern)?;
    let stood = left_before(rt);
    let mut host = traced_host(rt, program, out);
    host.draw(
        noted.look(asked.verbose),
        environment.pattern.unwrap_or(Pattern::DEFAULT),
    );
    let (report, left, mut host) = build_over(alloc, host, asked, environment, noted);
    // what is looked at is read anew
    drop(left);
    host.finish_screen();
    recall(&mut host, asked.keep, &report);
    noted.waited(host.wait_for_clock());
    noted.built(&mut host, asked.file, &report);
    let place = Place {
        folder: folder.to_str(),
        left: stood.as_ref(),
        is_shared: environment.is_below,
    };
    let tally = look(rt, &mut host, &options, targets.as_slice(), place);
    let trouble = host.into_trouble();
    Ok(Audited {
        report,
        trouble,
        tally,
    })
}

/// Real files, where each command is traced by this program, or all of them are below one tracer.
fn traced_host<'a, W: Write>(rt: &'a HostRuntime, program: Option<String>, out: W) -> Host<'a, W>
    ensures { world_of result ≡ fresh }
{
    let mut host = Host::new(rt.alloc(), rt, out);
    match program {
        Some(program) => host.trace_by(program),
        None => host.run_below_tracer(),
    }
    host
}

/// Tells how a build ended that was audited, and what was found. The status is that of the build where each command was looked at and keeps
/// all premises, else 1.
fn tell_all<W: Write, E: Write>(
    alloc: Global,
    audited: &Audited,
    is_listed: bool,
    out: &mut W,
    err: &mut E,
) -> io::Result<u8>
    ensures { IfOk result (λ status. TellsAudit audited.now.report status (W.contents out.old) (W.contents out.new) (E.contents err.old) (E.contents err.new)) }
{
    let status = told::report(&audited.report, audited.trouble.as_ref(), out, err)?;
    let keeps = tell(alloc, audited.tally.as_ref(), is_listed, out)?;
    Ok(status_after(status, keeps))
}

/// The status of a run whose build ended with this one, where all commands were looked at and keep all premises, or not.
fn status_after(status: u8, keeps: bool) -> u8
    ensures { result ≡ (if keeps then status else 1) }
{
    if keeps { status } else { 1 }
}

/// Tells what was found: whether each command was looked at and keeps all premises. Files outside of the folder are listed, or counted by
/// folder.
fn tell<W: Write>(
    alloc: Global,
    tally: Option<&Tally>,
    is_listed: bool,
    out: &mut W,
) -> io::Result<bool>
    ensures { IfOk result (λ keeps. TellsFound keeps (W.contents out.old) (W.contents out.new)) }
{
    let Some(tally) = tally else {
        tell_unjudged(out)?;
        return Ok(false);
    };
    let lines = tally.told(alloc, is_listed)?;
    tell_found(lines.as_str(), tally.counts, out)?;
    Ok(tally.counts.is_clean())
}

/// Tells that the traces could not be looked at.
fn tell_unjudged<W: Write>(out: &mut W) -> io::Result<()>
    ensures { OnOk result (Adds (W.contents out.old) (W.contents out.new) (Some (told_of Unjudged))) }
{
    writeln!(out, "nj: audit: the traces could not be looked at")?;
    out.flush()
}

/// Tells by these lines what commands did, and how many were looked at and keep all premises.
fn tell_found<W: Write>(lines: &str, counts: Counts, out: &mut W) -> io::Result<()>
    ensures { OnOk result (Adds (W.contents out.old) (W.contents out.new) (Some (told_of (Found lines.now counts)))) }
{
    out.write_all(lines.as_bytes())?;
    tell_how(counts.looked, out)?;
    tell_counts(counts, out)
}

/// Tells how all commands can be looked at, where none was.
fn tell_how<W: Write>(looked: usize, out: &mut W) -> io::Result<()>
    ensures { OnOk result (Adds (W.contents out.old) (W.contents out.new) (Some (how_to_look looked))) }
{
    if looked == 0 {
        writeln!(
            out,
            "nj: audit: no command was looked at: remove .nj_log to have all of them run and looked at"
        )?;
    }
    out.flush()
}

/// Tells how many commands were looked at, and how many keep all premises.
fn tell_counts<W: Write>(counts: Counts, out: &mut W) -> io::Result<()>
    ensures { OnOk result (Adds (W.contents out.old) (W.contents out.new) (Some (counts_told counts))) }
{
    let Counts {
        commands,
        looked,
        kept,
    } = counts;
    writeln!(
        out,
        "nj: audit: {looked} of {commands} commands of the cone looked at, {kept} keep all premises, as far as the trace shows"
    )?;
    out.flush()
}
