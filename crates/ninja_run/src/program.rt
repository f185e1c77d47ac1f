//! The run of the program.

ghost use Rattle.std.specs.Prelude.{◌≡◌, ◌≤◌, false, IfOk};

use crate::told::{self, Telling};
use builder::{Held, Options, Report};
use host::{Host, Trouble};
use measure::Measured;
use ninja_asked::{Asking, default_jobs};
use ninja_words::{
    Asked, Front, Heading, HeadingFault, Options as Given, Output, PATTERN, Shown, asked,
};
use seen::Seen;
use site::{Site, SiteFault};
use stand_in::{
    Due, Ended, NoAnswer, Outcome, Patient, Place, answer, build_here, due_here, site_here,
};
use status::Pattern;
use std::alloc::{AllocError, Global};
use std::io::Write;
use std::marker::Brand;
use std::mem::forget;
use std::{env, io};
use text::Text;
use tools::{Fault, Switches, Tool, Usage, split_switches};

/// What the program finds around it.
#[derive(Clone, Copy)]
pub struct Around<'a> {
    /// What the environment has as `NINJA_STATUS`, if it has that.
    pub heading: Option<&'a str>,
    /// What its standard output is.
    pub output: Output,
    /// Whether stamps are trusted, by `NJ_TRUST_STAMPS`: nothing is noted of files, and what is noted counts for nothing.
    pub trusts_stamps: bool,
}

/// The same, and how lines are shown.
#[derive(Clone, Copy)]
struct Lines<'a> {
    heading: &'a Heading,
    around: Around<'a>,
}

/// The whole program: does what the words ask for, without the program's name among them, and answers the exit status: 0 after a
/// success, 3 where dependencies are missing, else 1.
pub fn run<W: Write + Drop, E: Write>(
    rt: &HostRuntime,
    words: &[&str],
    around: Around<'_>,
    out: &mut W,
    err: &mut E,
) -> u8
    ensures { result ≤ 3 }
{
    let done = match asked(rt.alloc(), words) {
        Ok(Asked::Told(information)) => {
            let jobs = jobs_here(rt);
            told::information(information, jobs, out, err)
        }
        Ok(Asked::Build(given)) => run_build(rt, &given, around, out, err),
        Ok(Asked::Tool(tool, given)) => {
            let trusts_stamps = around.trusts_stamps;
            run_tool(rt, tool, &given, trusts_stamps, out, err)
        }
        Err(fault) => {
            let jobs = jobs_here(rt);
            told::words(&fault, jobs, err)
        }
    };
    done.unwrap_or(1)
}

/// How many commands run at once on this machine where nothing is said.
fn jobs_here(rt: &HostRuntime) -> u32 {
    let alloc = rt.alloc();
    let mut host = Host::new(alloc, rt, Vec::new(alloc));
    let jobs = default_jobs(alloc, &mut host);
    let _ = host.into_trouble();
    jobs
}

/// Goes to the folder that was named, if one was.
fn enter<E: Write>(rt: &HostRuntime, given: &Given<'_>, err: &mut E) -> io::Result<bool> {
    let Some(folder) = given.folder else {
        return Ok(true);
    };
    match env::set_current_dir(rt, folder) {
        Ok(()) => Ok(true),
        Err(reason) => {
            told::folder(folder, &reason, err)?;
            Ok(false)
        }
    }
}

fn run_build<W: Write + Drop, E: Write>(
    rt: &HostRuntime,
    given: &Given<'_>,
    around: Around<'_>,
    out: &mut W,
    err: &mut E,
) -> io::Result<u8>
    ensures { IfOk result (λ status. status ≤ 3) }
{
    match Heading::parse(rt.alloc(), around.heading.unwrap_or(Heading::DEFAULT)) {
        Ok(heading) => {
            let lines = Lines {
                heading: &heading,
                around,
            };
            build_under(rt, given, lines, out, err)
        }
        Err(HeadingFault::Memory) => told::error("N61: out of memory", err),
        Err(HeadingFault::Unknown(letter)) => unknown_field(letter, err),
    }
}

/// Builds in the folder that was named, and shows lines so.
fn build_under<W: Write + Drop, E: Write>(
    rt: &HostRuntime,
    given: &Given<'_>,
    lines: Lines<'_>,
    out: &mut W,
    err: &mut E,
) -> io::Result<u8>
    ensures { IfOk result (λ status. status ≤ 3) }
{
    if given.shown != Shown::Printed {
        tell_folder(given, out)?;
    }
    if !enter(rt, given, err)? {
        return Ok(1);
    }
    if given.keeps {
        writeln!(out, "ninja: -d keepdepfile and -d keeprsp do nothing here")?;
        out.flush()?;
    }
    if given.dry || given.explain {
        let status = tell_due(rt, given, lines, out, err)?;
        if given.dry {
            return Ok(status);
        }
    }
    let (ended, trouble) = build_in(rt, given, lines, out)?;
    let trouble = trouble.as_ref();
    told::ended(&ended, Telling::new(given.file, given, trouble), out, err)
}

/// Tells what is due, and why, before anything runs. What is refused tells the build, where there is one.
fn tell_due<W: Write + Drop, E: Write>(
    rt: &HostRuntime,
    given: &Given<'_>,
    lines: Lines<'_>,
    out: &mut W,
    err: &mut E,
) -> io::Result<u8>
    ensures { IfOk result (λ status. status ≤ 3) }
{
    let (due, trouble) = due_in(rt, given, lines, out)?;
    let due = match due {
        Ok(due) => due,
        Err(fault) => {
            if !given.dry {
                return Ok(1);
            }
            return no_answer(&fault, trouble.as_ref(), err);
        }
    };
    if given.explain {
        told::why(rt.alloc(), &due, given.file, err)?;
    }
    if !given.dry {
        return Ok(0);
    }
    told::would_run(&due, given.file, given.shown, out)
}

fn unknown_field<E: Write>(letter: u8, err: &mut E) -> io::Result<u8>
    ensures { IfOk result (λ status. status ≤ 3) }
{
    let letter = char::from(letter);
    writeln!(
        err,
        "ninja: fatal: unknown placeholder '%{letter}' in $NINJA_STATUS"
    )?;
    err.flush()?;
    Ok(1)
}

fn tell_folder<W: Write>(given: &Given<'_>, out: &mut W) -> io::Result<()> {
    if let Some(folder) = given.folder {
        writeln!(out, "ninja: Entering directory `{folder}'")?;
        out.flush()?;
    }
    Ok(())
}

/// Builds in the working folder. With a fault of the site comes what the device refused last.
fn build_in<'a, W: Write + Drop>(
    rt: &'a HostRuntime,
    given: &Given<'_>,
    lines: Lines<'a>,
    out: &'a mut W,
) -> io::Result<(Ended, Option<Trouble>)> {
    let options = build_options(rt.alloc(), given, jobs_of(rt, given))?;
    build_with(rt, given, &options, lines, out)
}

/// How many commands run at once: so many as are given, else what this machine has.
fn jobs_of(rt: &HostRuntime, given: &Given<'_>) -> u32 {
    match given.jobs {
        Some(jobs) => jobs,
        None => jobs_here(rt),
    }
}

/// The same with these options.
fn build_with<'a, W: Write + Drop>(
    rt: &'a HostRuntime,
    given: &Given<'_>,
    options: &Options,
    lines: Lines<'a>,
    out: &'a mut W,
) -> io::Result<(Ended, Option<Trouble>)> {
    let front = front_of(given, lines, lines.around.output, options.jobs);
    let site = site_here(rt.alloc(), rt, out, front, given.load)?;
    if lines.around.trusts_stamps {
        return Ok(build_by_stamps(rt.alloc(), site, given, options));
    }
    Ok(build_at(rt.alloc(), site, given, options))
}

/// The same on a site, by what was seen there before.
fn build_at<'a, W: Write + Drop>(
    alloc: Global,
    site: Patient<'a, W>,
    given: &Given<'_>,
    options: &Options,
) -> (Ended, Option<Trouble>) {
    let (ended, left, site) = build_over(alloc, site, given, options);
    let trouble = finish(site.into_site(), given.keep, &ended);
    // no build file is read any more: the program ends right after this, and then all goes at once
    forget(left);
    (ended, trouble)
}

/// The same on any site, which is given back.
fn build_over<S: Place + Measured + Drop>(
    alloc: Global,
    site: S,
    given: &Given<'_>,
    options: &Options,
) -> (Ended, Option<Held>, S)
    requires { S.tells ≡ false }
{
    let mut seen: Seen<S, Brand> = Seen::new(alloc, site);
    let (ended, left) = build_there(alloc, &mut seen, given, options);
    (ended, left, seen.into_site())
}

/// The same by stamps alone.
fn build_by_stamps<'a, W: Write + Drop>(
    alloc: Global,
    mut site: Patient<'a, W>,
    given: &Given<'_>,
    options: &Options,
) -> (Ended, Option<Trouble>) {
    let (ended, left) = build_there(alloc, &mut site, given, options);
    let trouble = finish(site.into_site(), given.keep, &ended);
    // no build file is read any more: the program ends right after this, and then all goes at once
    forget(left);
    (ended, trouble)
}

/// The same as [`build_here`], from a start at which no command runs, and with nothing said of it: what that says is of any site, and
/// would be told here of this one.
fn build_there<S: Place>(
    alloc: Global,
    site: &mut S,
    given: &Given<'_>,
    options: &Options,
) -> (Ended, Option<Held>) {
    site.restart();
    build_here(alloc, site, given, options)
}

/// Ends the screen, and waits until what is written from now on is seen to be later than each start. With a fault of the site comes what
/// the device refused last.
fn finish<W: Write + Drop>(mut host: Host<'_, W>, keep: u32, ended: &Ended) -> Option<Trouble> {
    host.finish_screen();
    recall(&mut host, keep, ended);
    // where the clock stands still for seconds there is nothing more to do about it
    let _ = host.wait_for_clock();
    host.into_trouble()
}

/// Tells once more which outputs failed, where rows are drawn and more than one command may fail.
fn recall<W: Write>(host: &mut Host<'_, W>, keep: u32, ended: &Ended) {
    if keep == 1 {
        return;
    }
    if let Outcome::Built(Report::Failed { outputs }) = &ended.outcome {
        for output in outputs.as_slice() {
            host.recall(output.as_str());
        }
    }
}

/// What is due in the working folder; rows are drawn for nobody. With a fault of the site comes what the device refused last.
fn due_in<'a, W: Write + Drop>(
    rt: &'a HostRuntime,
    given: &Given<'_>,
    lines: Lines<'a>,
    out: &'a mut W,
) -> io::Result<(Result<Due, NoAnswer>, Option<Trouble>)> {
    let alloc = rt.alloc();
    let options = build_options(alloc, given, 1)?;
    let front = front_of(given, lines, lines.around.output.undrawn(), 1);
    let site = site_here(alloc, rt, out, front, None)?;
    if lines.around.trusts_stamps {
        return Ok(due_by_stamps(alloc, site, given, &options));
    }
    Ok(due_at(alloc, site, given, &options))
}

/// The same on a site, by what was seen there before.
fn due_at<'a, W: Write + Drop>(
    alloc: Global,
    site: Patient<'a, W>,
    given: &Given<'_>,
    options: &Options,
) -> (Result<Due, NoAnswer>, Option<Trouble>) {
    let (due, site) = due_over(alloc, site, given, options);
    let host = site.into_site();
    (due, host.into_trouble())
}

/// The same on any site, which is given back.
fn due_over<S: Place + Measured + Drop>(
    alloc: Global,
    site: S,
    given: &Given<'_>,
    options: &Options,
) -> (Result<Due, NoAnswer>, S)
    requires { S.tells ≡ false }
{
    let mut seen: Seen<S, Brand> = Seen::new(alloc, site);
    let due = due_there(alloc, &mut seen, given, options);
    (due, seen.into_site())
}

/// The same by stamps alone.
fn due_by_stamps<'a, W: Write + Drop>(
    alloc: Global,
    mut site: Patient<'a, W>,
    given: &Given<'_>,
    options: &Options,
) -> (Result<Due, NoAnswer>, Option<Trouble>) {
    let due = due_there(alloc, &mut site, given, options);
    let host = site.into_site();
    (due, host.into_trouble())
}

/// The same as [`due_here`], from a start at which no command runs, and with nothing said of it.
fn due_there<S: Place>(
    alloc: Global,
    site: &mut S,
    given: &Given<'_>,
    options: &Options,
) -> Result<Due, NoAnswer> {
    site.restart();
    due_here(alloc, site, given, options)
}

fn front_of<'a>(given: &Given<'_>, lines: Lines<'a>, output: Output, jobs: u32) -> Front<'a> {
    Front {
        heading: lines.heading,
        output,
        shown: given.shown,
        jobs,
    }
}

fn build_options(alloc: Global, given: &Given<'_>, jobs: u32) -> Result<Options, AllocError> {
    Ok(Options {
        file: Text::from_str(alloc, given.file)?,
        jobs,
        keep: given.keep,
        verbose: given.shown == Shown::Commands,
        pattern: Pattern::parse(alloc, PATTERN)?,
    })
}

fn run_tool<W: Write, E: Write>(
    rt: &HostRuntime,
    tool: Tool,
    given: &Given<'_>,
    trusts_stamps: bool,
    out: &mut W,
    err: &mut E,
) -> io::Result<u8>
    ensures { IfOk result (λ status. status ≤ 3) }
{
    let alloc = rt.alloc();
    if !enter(rt, given, err)? {
        return Ok(1);
    }
    match switches_of(alloc, tool, given.words.as_slice()) {
        Ok(found) => {
            let asking = Asking::new(tool, given, &found, trusts_stamps);
            answer_in(rt, asking, out, err)
        }
        Err(Usage::Memory) => told::error("N61: out of memory", err),
        Err(usage) => {
            if let Usage::Letter(letter) = usage {
                let letter = char::from(letter);
                writeln!(err, "ninja: invalid option -- '{letter}'")?;
                err.flush()?;
            }
            write!(out, "{}", tool.usage())?;
            out.flush()?;
            Ok(1)
        }
    }
}

/// The words of a tool, taken apart where it has letters.
fn switches_of<'a>(alloc: Global, tool: Tool, words: &[&'a str]) -> Result<Switches<'a>, Usage> {
    if tool.has_letters() {
        return split_switches(alloc, tool.letters(), words);
    }
    Ok(Switches {
        letters: Vec::new(alloc),
        words: Vec::from_slice(alloc, words)?,
    })
}

/// What the tool answers in the working folder.
fn answer_in<W: Write, E: Write>(
    rt: &HostRuntime,
    asking: Asking<'_>,
    out: &mut W,
    err: &mut E,
) -> io::Result<u8>
    ensures { IfOk result (λ status. status ≤ 3) }
{
    let alloc = rt.alloc();
    let folder = env::current_dir(rt)?;
    let mut host = Host::new(alloc, rt, Vec::new(alloc));
    let answered = answer(alloc, &mut host, asking, folder.as_str());
    let trouble = host.into_trouble();
    match answered {
        Ok(answer) => {
            err.write_all(answer.beside.as_bytes())?;
            err.flush()?;
            out.write_all(answer.text.as_bytes())?;
            out.flush()?;
            Ok(answer.status)
        }
        Err(fault) => no_answer(&fault, trouble.as_ref(), err),
    }
}

fn no_answer<E: Write>(fault: &NoAnswer, trouble: Option<&Trouble>, err: &mut E) -> io::Result<u8>
    ensures { IfOk result (λ status. status ≤ 3) }
{
    match fault {
        NoAnswer::Unread(Report::Refused(refusal)) => writeln!(err, "ninja: error: {refusal}")?,
        NoAnswer::Unread(Report::Fault(SiteFault::Memory)) | NoAnswer::Fault(Fault::Memory) => {
            writeln!(err, "ninja: error: N61: out of memory")?
        }
        NoAnswer::Unread(_) | NoAnswer::Fault(Fault::Site(_)) => told::failed_site(trouble, err)?,
        NoAnswer::Fault(fault) => writeln!(err, "ninja: error: {fault}")?,
    }
    err.flush()?;
    Ok(1)
}
