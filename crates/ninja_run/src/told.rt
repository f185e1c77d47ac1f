//! What the stand-in tells, and its status.

ghost use Rattle.std.specs.Prelude.{◌≡◌, ◌≤◌, IfOk};
ghost use Rattle.ninja_run.specs.Ends.{why_stopped};

use builder::{Explained, Report};
use host::Trouble;
use ninja_words::{Information, Options, Shown, WordFault};
use nj_run::tell_why;
use site::SiteFault;
use stand_in::{Due, Ended, Outcome};
use std::alloc::Global;
use std::io;
use std::io::Write;
use tools::Tool;

/// The version of ninja up to which build files are read.
const VERSION: &str = "1.12.0";

const MODES: &str = "debugging modes:
  stats        print operation counts/timing info
  explain      explain what caused a command to execute
  keepdepfile  don't delete depfiles after they're read by ninja
  keeprsp      don't delete @response files on success
multiple modes can be enabled via -d FOO -d BAR
";

const WARNINGS: &str = "warning flags:
  phonycycle={err,warn}  phony build statement references itself
";

const USAGE: &str = "usage: ninja [options] [targets...]

if targets are unspecified, builds the 'default' target (see manual).

options:
  --version      print ninja version (\"1.12.0\")
  -v, --verbose  show all command lines while building
  --quiet        don't show progress status, just command output

  -C DIR   change to DIR before doing anything else
  -f FILE  specify input build file [default=build.ninja]

";

const USAGE_BEHIND: &str = "  -k N     keep going until N jobs fail (0 means infinity) [default=1]
  -l N     do not start new jobs if the load average is greater than N
  -n       dry run (don't run commands but act like they succeeded)

  -d MODE  enable debugging (use '-d list' to list modes)
  -t TOOL  run a subtool (use '-t list' to list subtools)
    terminates toplevel options; further flags are passed to the tool
  -w FLAG  adjust warnings (use '-w list' to list warnings)
";

/// Tells what was asked for beside builds and tools.
pub fn information<W: Write, E: Write>(
    information: Information,
    jobs: u32,
    out: &mut W,
    err: &mut E,
) -> io::Result<u8>
    ensures { IfOk result (λ status. status ≤ 1) }
{
    let status = match information {
        Information::Version => {
            writeln!(out, "{VERSION}")?;
            0
        }
        Information::Tools => {
            write!(out, "{}", Tool::LIST)?;
            0
        }
        Information::Modes => {
            write!(out, "{MODES}")?;
            1
        }
        Information::Warnings => {
            write!(out, "{WARNINGS}")?;
            1
        }
        Information::Help => {
            usage(jobs, err)?;
            1
        }
    };
    out.flush()?;
    Ok(status)
}

fn usage<E: Write>(jobs: u32, err: &mut E) -> io::Result<()> {
    write!(err, "{USAGE}")?;
    writeln!(
        err,
        "  -j N     run N jobs in parallel (0 means infinity) [default={jobs} on this system]"
    )?;
    write!(err, "{USAGE_BEHIND}")?;
    err.flush()
}

/// Tells what is wrong with the words.
pub fn words<E: Write>(fault: &WordFault<'_>, jobs: u32, err: &mut E) -> io::Result<u8>
    ensures { IfOk result (λ status. status ≤ 1) }
{
    writeln!(err, "{fault}")?;
    if fault.wants_help() {
        usage(jobs, err)?;
    }
    err.flush()?;
    Ok(1)
}

/// Tells that the folder cannot be gone to.
pub fn folder<E: Write>(folder: &str, reason: &io::Error, err: &mut E) -> io::Result<u8>
    ensures { IfOk result (λ status. status ≤ 1) }
{
    writeln!(err, "ninja: fatal: chdir to '{folder}' - {reason}")?;
    err.flush()?;
    Ok(1)
}

/// Tells why something is not done.
pub fn error<E: Write>(text: &str, err: &mut E) -> io::Result<u8>
    ensures { IfOk result (λ status. status ≤ 1) }
{
    writeln!(err, "ninja: error: {text}")?;
    err.flush()?;
    Ok(1)
}

/// What is told of the end of a build beside its report.
#[derive(Clone, Copy)]
pub struct Telling<'a> {
    pub file: &'a str,
    pub keep: u32,
    pub shown: Shown,
    /// Whether it is said how many commands were started.
    pub stats: bool,
    pub trouble: Option<&'a Trouble>,
}

impl<'a> Telling<'a> {
    pub fn new(file: &'a str, given: &Options<'_>, trouble: Option<&'a Trouble>) -> Telling<'a> {
        Telling {
            file,
            keep: given.keep,
            shown: given.shown,
            stats: given.stats,
            trouble,
        }
    }
}

/// Tells how the whole ended, and answers the status.
pub fn ended<W: Write, E: Write>(
    ended: &Ended,
    telling: Telling<'_>,
    out: &mut W,
    err: &mut E,
) -> io::Result<u8>
    ensures { IfOk result (λ status. status ≤ 1) }
{
    let file = telling.file;
    if ended.old {
        writeln!(
            err,
            "ninja: warning: '{file}' is out of date still, behind its generator"
        )?;
    }
    let status = match &ended.outcome {
        Outcome::Built(report) => built(report, telling, out, err)?,
        Outcome::Refused(fault) => {
            writeln!(err, "ninja: error: {fault}")?;
            1
        }
        Outcome::NotRebuilt(Some(report)) if !matches!(report, Report::Failed { .. }) => {
            built(report, telling, out, err)?;
            writeln!(
                err,
                "ninja: error: rebuilding '{file}': what it needs could not be built"
            )?;
            1
        }
        Outcome::NotRebuilt(_) => {
            writeln!(err, "ninja: error: rebuilding '{file}': subcommand failed")?;
            1
        }
    };
    out.flush()?;
    err.flush()?;
    Ok(status)
}

/// Tells how a build ended.
fn built<W: Write, E: Write>(
    report: &Report,
    telling: Telling<'_>,
    out: &mut W,
    err: &mut E,
) -> io::Result<u8>
    ensures { IfOk result (λ status. status ≤ 1) }
{
    match report {
        Report::Success { started } => {
            if *started == 0 && telling.shown != Shown::Printed {
                writeln!(out, "ninja: no work to do.")?;
            }
            if telling.stats {
                writeln!(out, "ninja: commands started: {started}")?;
            }
            return Ok(0);
        }
        Report::Failed { outputs } => {
            let why = why_stopped(outputs.len(), telling.keep);
            writeln!(out, "ninja: build stopped: {why}.")?;
        }
        Report::Refused(refusal) => writeln!(err, "ninja: error: {refusal}")?,
        Report::Fault(SiteFault::Memory) => writeln!(err, "ninja: error: N61: out of memory")?,
        Report::Fault(_) => failed_site(telling.trouble, err)?,
    }
    Ok(1)
}

/// Tells why commands are due, before they run.
pub fn why<E: Write>(alloc: Global, due: &Due, file: &str, err: &mut E) -> io::Result<()> {
    match due {
        Due::Generator(explained) => {
            writeln!(
                err,
                "ninja explain: {file}: it is out of date, and made by a generator"
            )?;
            if let Some(explained) = explained {
                whys(alloc, explained, err)?;
            }
        }
        Due::Commands(explained) => whys(alloc, explained, err)?,
    }
    err.flush()
}

fn whys<E: Write>(alloc: Global, explained: &Explained, err: &mut E) -> io::Result<()> {
    for explanation in &explained.commands {
        write!(err, "ninja explain: ")?;
        tell_why(alloc, explanation, err)?;
    }
    Ok(())
}

/// Tells what would run, behind the lines of commands that are shown already.
pub fn would_run<W: Write>(due: &Due, file: &str, shown: Shown, out: &mut W) -> io::Result<u8>
    ensures { IfOk result (λ status. status ≤ 1) }
{
    match due {
        Due::Generator(_) => writeln!(out, "ninja: '{file}' would be rebuilt")?,
        Due::Commands(explained) => rest(explained, shown, out)?,
    }
    out.flush()?;
    Ok(0)
}

/// Tells that more may follow, or that there is nothing to do.
fn rest<W: Write>(explained: &Explained, shown: Shown, out: &mut W) -> io::Result<()> {
    if let Some(file) = &explained.unloaded {
        return writeln!(out, "ninja: more may follow: {file} is yet to be loaded");
    }
    if explained.commands.is_empty() && shown != Shown::Printed {
        return writeln!(out, "ninja: no work to do.");
    }
    Ok(())
}

/// Why a build stopped in which so many commands failed, as other programs look for it.
fn why_stopped(failed: usize, keep: u32) -> &'static str
    ensures { result.now ≡ why_stopped failed keep }
{
    if keep == 0 || failed < keep as usize {
        "cannot make progress due to previous errors"
    } else if keep > 1 {
        "subcommands failed"
    } else {
        "subcommand failed"
    }
}

/// Tells that the site failed, and at which path.
pub fn failed_site<E: Write>(trouble: Option<&Trouble>, err: &mut E) -> io::Result<()> {
    writeln!(err, "ninja: error: N60: the site failed")?;
    if let Some(trouble) = trouble {
        writeln!(err, "ninja: {trouble}")?;
    }
    Ok(())
}
