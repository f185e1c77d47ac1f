//! What the program tells when it ends, and its status.

ghost use Rattle.std.specs.Prelude.{◌≡◌, ◌≢◌, ◌≤◌, Some, IfOk, OnOk, is_some};
ghost use Rattle.clap.specs.Words.{kind_of};
ghost use Rattle.nj_run.specs.Ends.{Comes, EndsBy};
ghost use Rattle.nj_run.specs.Status.{status_of};
ghost use Rattle.nj_run.specs.Texts.{Adds, after_failure, after_success, err_of, no_memory, out_of, stopped, traced_over};

use builder::{Refusal, Report};
use clap::Error;
use clap::error::ErrorKind;
use host::Trouble;
use site::SiteFault;
use std::io;
use std::io::Write;

/// Tells how a build ended: on the standard output that there was nothing to do, on the standard error what went wrong.
/// Where the site failed, a second line says at which path, and why. The status is 0 after a success, else 1.
pub fn report<W: Write, E: Write>(
    report: &Report,
    trouble: Option<&Trouble>,
    out: &mut W,
    err: &mut E,
) -> io::Result<u8>
    ensures status { IfOk result (λ status. status ≡ status_of report.now) }
    ensures range { IfOk result (λ status. status ≤ 1) }
    ensures out { OnOk result (Adds (W.contents out.old) (W.contents out.new) (out_of report.now)) }
    ensures err { OnOk result (Adds (E.contents err.old) (E.contents err.new) (err_of report.now (is_some trouble.entry))) }
{
    match report {
        Report::Success { started } => {
            success(*started, out)?;
            Ok(0)
        }
        Report::Failed { outputs } => {
            failed(outputs.len(), err)?;
            Ok(1)
        }
        Report::Refused(refusal) => {
            refused(refusal, err)?;
            Ok(1)
        }
        Report::Fault(SiteFault::Memory) => {
            memory(err)?;
            Ok(1)
        }
        Report::Fault(_) => {
            failed_site(trouble, err)?;
            Ok(1)
        }
    }
}

/// Tells in the same way why it could not be told which commands are due. The status is 1.
pub fn refusal<W: Write, E: Write>(
    refusal: &Report,
    trouble: Option<&Trouble>,
    out: &mut W,
    err: &mut E,
) -> io::Result<u8>
    ensures status { IfOk result (λ status. status ≡ 1) }
    ensures out { OnOk result (Adds (W.contents out.old) (W.contents out.new) (out_of refusal.now)) }
    ensures err { OnOk result (Adds (E.contents err.old) (E.contents err.new) (err_of refusal.now (is_some trouble.entry))) }
{
    report(refusal, trouble, out, err)?;
    Ok(1)
}

/// Tells that there was nothing to do, where nothing was started.
fn success<W: Write>(started: usize, out: &mut W) -> io::Result<()>
    ensures { OnOk result (Adds (W.contents out.old) (W.contents out.new) (Some (after_success started))) }
{
    if started == 0 {
        writeln!(out, "nj: no work to do.")?;
    }
    out.flush()
}

/// Tells how many commands failed.
fn failed<E: Write>(count: usize, err: &mut E) -> io::Result<()>
    ensures { OnOk result (Adds (E.contents err.old) (E.contents err.new) (Some (stopped count))) }
{
    writeln!(err, "nj: build stopped, failed commands: {count}")?;
    err.flush()
}

fn refused<E: Write>(refusal: &Refusal, err: &mut E) -> io::Result<()> {
    writeln!(err, "nj: error: {refusal}")?;
    err.flush()
}

fn memory<E: Write>(err: &mut E) -> io::Result<()>
    ensures { OnOk result (Adds (E.contents err.old) (E.contents err.new) (Some no_memory)) }
{
    writeln!(err, "nj: error: N61: out of memory")?;
    err.flush()
}

fn failed_site<E: Write>(trouble: Option<&Trouble>, err: &mut E) -> io::Result<()>
    ensures { OnOk result (Adds (E.contents err.old) (E.contents err.new) (after_failure (is_some trouble.entry))) }
{
    writeln!(err, "nj: error: N60: the site failed")?;
    if let Some(trouble) = trouble {
        writeln!(err, "nj: {trouble}")?;
    }
    err.flush()
}

/// Tells that build lines name this path, to which traces are written. The status is 1.
pub fn traced_over<E: Write>(path: &str, err: &mut E) -> io::Result<u8>
    ensures status { IfOk result (λ status. status ≡ 1) }
    ensures told { OnOk result (Adds (E.contents err.old) (E.contents err.new) (Some (traced_over path.now))) }
{
    writeln!(
        err,
        "nj: error: nothing was started, since traces would be written over what build lines name: {path}"
    )?;
    err.flush()?;
    Ok(1)
}

/// Tells that the folder in which to build cannot be gone to. The status is 1.
pub fn folder<E: Write>(folder: &str, reason: &io::Error, err: &mut E) -> io::Result<u8>
    ensures { IfOk result (λ status. status ≡ 1) }
{
    writeln!(err, "nj: error: N60: the site failed")?;
    writeln!(err, "nj: {folder}: {reason}")?;
    err.flush()?;
    Ok(1)
}

/// Tells what words came to that ask for no build: on the standard output help, with the status 0, and on the standard
/// error what is wrong with them, with the status 2, or that memory was refused, with the status 1.
pub fn words<W: Write, E: Write>(error: &Error, out: &mut W, err: &mut E) -> io::Result<u8>
    ensures range { IfOk result (λ status. status ≤ 2) }
    ensures refused { IfOk result (λ status. status ≡ 2 → kind_of error.now ≢ ErrorKind.OutOfMemory) }
    ensures comes { Comes (EndsBy (kind_of error.now)) W.contents E.contents out.old out.new err.old err.new result }
{
    if error.kind() == ErrorKind::OutOfMemory {
        memory(err)?;
        return Ok(1);
    }
    if !error.use_stderr() {
        show(error, out)?;
        return Ok(0);
    }
    show(error, err)?;
    Ok(2)
}

fn show<W: Write>(error: &Error, to: &mut W) -> io::Result<()> {
    write!(to, "{error}")?;
    to.flush()
}
