//! The run of the program.

ghost use Rattle.std.specs.Prelude.{◌≡◌, ◌≤◌, IfOk, IfSome, Some, true, false, map};
ghost use Rattle.clap.specs.Words.{takes};
ghost use Rattle.model.specs.Calls.{OnlyLooks};
ghost use Rattle.model.specs.World.{World, IsIdle};
ghost use Rattle.nj_run.specs.Options.{nj};
ghost use Rattle.host.specs.World.{any_outcome, fresh};
ghost use Rattle.nj_run.specs.Alone.{BuildsAlone};
ghost use Rattle.nj_run.specs.Asked.{AreHandedOn, pattern_text};
ghost use Rattle.nj_run.specs.Ends.{Comes, Ends, EndsFor, EndsNoted, EndsWell};

use crate::alone::{Alone, build_alone, explain_alone};
use crate::audited::audit_asked;
use crate::command::options;
use crate::environment::Environment;
use crate::given::Options as Asked;
use crate::noted::Noted;
use crate::{told, whys};
use builder::{Explained, Held, Options, Report};
use host::{Host, Trouble};
use measure::Measured;
use seen::Seen;
use site::SiteFault;
use status::Pattern;
use std::alloc::{AllocError, Global};
use std::convert::AsStr;
use std::io::Write;
use std::marker::Brand;
use std::mem::forget;
use std::{env, io};
use text::Text;

/// The whole program: does what the words ask for, without the program's name among them, and answers the exit status: 0
/// after a success, 1 where the build failed or could not be done, or where a text could not be written, and 2 where the
/// words are no command line.
pub fn run<S: AsStr, W: Write, E: Write>(
    rt: &HostRuntime,
    words: &[S],
    environment: Environment<'_>,
    out: &mut W,
    err: &mut E,
) -> u8
    ensures range { result ≤ 2 }
    ensures refused { result ≡ 2 → takes nj (map S.text words.entry.now) ≡ false }
    ensures well { result ≡ 0 → EndsWell (map S.text words.entry.now) }
    ensures ends { Ends (map S.text words.entry.now) W.contents E.contents out.old out.new err.old err.new result }
{
    let mut noted = Noted::unwanted(rt);
    run_words(words, environment, out, err, &mut noted)
}

/// The same for somebody who watches: after all that [`run`] tells, on the standard error, one line for each note that may help. They are
/// found beside the build, which is the same; and rows may be drawn below what it shows.
pub fn run_watched<S: AsStr, W: Write, E: Write>(
    mut noted: Noted<'_>,
    words: &[S],
    environment: Environment<'_>,
    out: &mut W,
    err: &mut E,
) -> u8
    ensures range { result ≤ 2 }
    ensures refused { result ≡ 2 → takes nj (map S.text words.entry.now) ≡ false }
    ensures well { result ≡ 0 → EndsWell (map S.text words.entry.now) }
    ensures ends { EndsNoted (map S.text words.entry.now) W.contents E.contents out.old out.new err.old result }
{
    let status = run_words(words, environment, out, err, &mut noted);
    // who does not see the notes has seen what was built
    let _ = noted.tell(err);
    status
}

/// Does what the words ask for, tells it, and notes what may help.
fn run_words<S: AsStr, W: Write, E: Write>(
    words: &[S],
    environment: Environment<'_>,
    out: &mut W,
    err: &mut E,
    noted: &mut Noted<'_>,
) -> u8
    ensures range { result ≤ 2 }
    ensures refused { result ≡ 2 → takes nj (map S.text words.entry.now) ≡ false }
    ensures well { result ≡ 0 → EndsWell (map S.text words.entry.now) }
    ensures ends { Ends (map S.text words.entry.now) W.contents E.contents out.old out.new err.old err.new result }
{
    let told = match options(noted.rt().alloc(), words) {
        Ok(asked) => build_asked(&asked, environment, out, err, noted),
        Err(error) => told::words(&error, out, err),
    };
    told.unwrap_or(1)
}

/// Builds what is asked for, and tells how it ended.
fn build_asked<W: Write, E: Write>(
    asked: &Asked<'_>,
    environment: Environment<'_>,
    out: &mut W,
    err: &mut E,
    noted: &mut Noted<'_>,
) -> io::Result<u8>
    ensures range { IfOk result (λ status. status ≤ 1) }
    ensures comes { Comes (EndsFor asked.now) W.contents E.contents out.old out.new err.old err.new result }
{
    if let Some(folder) = to_go_to(asked, environment) {
        if let Err(reason) = env::set_current_dir(noted.rt(), folder) {
            return told::folder(folder, &reason, err);
        }
    }
    if asked.why {
        return explain_asked(asked, environment, out, err, noted);
    }
    if asked.audits() {
        return audit_asked(asked, environment, out, err, noted);
    }
    let (report, trouble) = build_here(asked, environment, out, noted);
    told::report(&report, trouble.as_ref(), out, err)
}

/// The folder that is asked for, unless it has been gone to.
fn to_go_to<'a>(asked: &Asked<'a>, environment: Environment<'_>) -> Option<&'a str>
    ensures { IfSome result (λ folder. asked.now.folder ≡ Some folder.now) }
{
    if environment.is_in_folder {
        return None;
    }
    asked.folder
}

/// Tells why commands are due of what is asked for, or why that cannot be told.
fn explain_asked<W: Write, E: Write>(
    asked: &Asked<'_>,
    environment: Environment<'_>,
    out: &mut W,
    err: &mut E,
    noted: &mut Noted<'_>,
) -> io::Result<u8>
    requires { asked.now.why ≡ true }
    ensures range { IfOk result (λ status. status ≤ 1) }
    ensures comes { Comes (EndsFor asked.now) W.contents E.contents out.old out.new err.old err.new result }
{
    let (explained, trouble) = explain_here(asked, environment, out, noted);
    match explained {
        Ok(explained) => whys::tell(noted.rt().alloc(), &explained, out),
        Err(report) => told::refusal(&report, trouble.as_ref(), out, err),
    }
}

/// Why commands are due of what is asked for in the working folder. With a fault of the site comes what the device refused last.
fn explain_here<W: Write>(
    asked: &Asked<'_>,
    environment: Environment<'_>,
    out: &mut W,
    noted: &mut Noted<'_>,
) -> (Result<Explained, Report>, Option<Trouble>)
    ensures { (later : World) × OnlyLooks false fresh later }
{
    let rt = noted.rt();
    let alloc = rt.alloc();
    let host = Host::new(alloc, rt, out);
    let (explained, host) = explain_over(alloc, host, asked, environment);
    (explained, host.into_trouble())
}

/// The same on this site, by what was seen there before, unless stamps are to be trusted, and the site back.
#[tactic(auto, using(crate::proofs::Passing::looks_later))]
fn explain_over<S: Alone + Measured + Drop>(
    alloc: Global,
    site: S,
    asked: &Asked<'_>,
    environment: Environment<'_>,
) -> (Result<Explained, Report>, S)
    requires idle { IsIdle (S.world site).events }
    requires untold { S.tells ≡ false }
    ensures { (later : World) × OnlyLooks false (S.world site) later }
{
    if environment.trusts_stamps {
        return explain_by_stamps(alloc, site, asked, environment.pattern);
    }
    let mut seen: Seen<S, Brand> = Seen::new(alloc, site);
    let explained = explain_on(alloc, &mut seen, asked, environment.pattern);
    (explained, seen.into_site())
}

/// The same by stamps alone.
fn explain_by_stamps<S: Alone + Drop>(
    alloc: Global,
    site: S,
    asked: &Asked<'_>,
    pattern: Option<&str>,
) -> (Result<Explained, Report>, S)
    requires idle { IsIdle (S.world site).events }
    ensures { (later : World) × OnlyLooks S.tells (S.world site) later }
{
    let mut site = site;
    let explained = explain_on(alloc, &mut site, asked, pattern);
    (explained, site)
}

/// Why commands are due on a site, of what is asked for, once nobody else is at work there. Nothing is started or written.
pub fn explain_on<S: Alone>(
    alloc: Global,
    site: &mut S,
    asked: &Asked<'_>,
    pattern: Option<&str>,
) -> Result<Explained, Report>
    requires idle { IsIdle (S.world site.old).events }
    ensures { OnlyLooks S.tells (S.world site.old) (S.world site.new) }
{
    match build_options(alloc, asked, pattern) {
        Ok((options, targets)) => explain_alone(alloc, site, &options, targets.as_slice()),
        Err(_) => Err(Report::Fault(SiteFault::Memory)),
    }
}

/// Builds what is asked for in the working folder, and waits until what is written from now on is seen to be later than each start. With a
/// fault of the site comes what the device refused last.
fn build_here<W: Write>(
    asked: &Asked<'_>,
    environment: Environment<'_>,
    out: &mut W,
    noted: &mut Noted<'_>,
) -> (Report, Option<Trouble>)
    ensures { (later : World) × BuildsAlone false any_outcome asked.now fresh later result.0 }
{
    let rt = noted.rt();
    let alloc = rt.alloc();
    let mut host = Host::new(alloc, rt, out);
    host.draw(
        noted.look(asked.verbose),
        environment.pattern.unwrap_or(Pattern::DEFAULT),
    );
    let (report, left, mut host) = build_over(alloc, host, asked, environment, noted);
    host.finish_screen();
    recall(&mut host, asked.keep, &report);
    leave(left, noted.may_read(&report));
    // where the clock stands still for seconds there is nothing more to do about it but to say so
    noted.waited(host.wait_for_clock());
    noted.built(&mut host, asked.file, &report);
    (report, host.into_trouble())
}

/// What is left of the build has served. Where no build file is read any more the program ends right after this, and then all goes at once.
fn leave(left: Option<Held>, may_read: bool) {
    if may_read {
        drop(left);
    } else {
        forget(left);
    }
}

/// Tells once more which outputs failed, where rows are drawn and more than one command may fail.
pub(crate) fn recall<W: Write>(host: &mut Host<'_, W>, keep: u32, report: &Report) {
    if keep == 1 {
        return;
    }
    if let Report::Failed { outputs } = report {
        for output in outputs.as_slice() {
            host.recall(output.as_str());
        }
    }
}

/// Builds what is asked for on this site, by what was seen there before, unless stamps are to be trusted, and gives the site back.
#[tactic(auto, using(crate::proofs::Passing::builds_untold))]
pub(crate) fn build_over<S: Alone + Measured + Drop>(
    alloc: Global,
    site: S,
    asked: &Asked<'_>,
    environment: Environment<'_>,
    noted: &mut Noted<'_>,
) -> (Report, Option<Held>, S)
    requires idle { IsIdle (S.world site).events }
    requires untold { S.tells ≡ false }
    ensures { (later : World) × BuildsAlone false S.outcome asked.now (S.world site) later result.0 }
{
    if environment.trusts_stamps {
        return build_by_stamps(alloc, site, asked, environment.pattern, noted);
    }
    let mut seen: Seen<S, Brand> = Seen::new(alloc, site);
    let (report, left) = build_on(alloc, &mut seen, asked, environment.pattern, noted);
    (report, left, seen.into_site())
}

/// The same by stamps alone.
fn build_by_stamps<S: Alone + Drop>(
    alloc: Global,
    site: S,
    asked: &Asked<'_>,
    pattern: Option<&str>,
    noted: &mut Noted<'_>,
) -> (Report, Option<Held>, S)
    requires idle { IsIdle (S.world site).events }
    ensures { (later : World) × BuildsAlone S.tells S.outcome asked.now (S.world site) later result.0 }
{
    let mut site = site;
    let (report, left) = build_on(alloc, &mut site, asked, pattern, noted);
    (report, left, site)
}

/// Builds what is asked for on a site, whatever folder is asked for, once nobody else is at work there. Where no pattern is given,
/// lines have the default one. What it holds at its end comes with the report, if it came so far.
pub fn build_on<S: Alone>(
    alloc: Global,
    site: &mut S,
    asked: &Asked<'_>,
    pattern: Option<&str>,
    noted: &mut Noted<'_>,
) -> (Report, Option<Held>)
    requires idle { IsIdle (S.world site.old).events }
    ensures { BuildsAlone S.tells S.outcome asked.now (S.world site.old) (S.world site.new) result.0 }
{
    match build_options(alloc, asked, pattern) {
        Ok((options, targets)) => build_alone(alloc, site, &options, targets.as_slice(), noted),
        Err(_) => (Report::Fault(SiteFault::Memory), None),
    }
}

/// The options and the targets of a build. Where no pattern is given, lines have the default one.
pub(crate) fn build_options(
    alloc: Global,
    asked: &Asked<'_>,
    pattern: Option<&str>,
) -> Result<(Options, Vec<Text>), AllocError>
    ensures { IfOk result (λ made. AreHandedOn asked.now (pattern_text pattern.entry) made.0 made.1.items) }
{
    let options = Options {
        file: Text::from_str(alloc, asked.file)?,
        jobs: asked.jobs,
        keep: asked.keep,
        verbose: asked.verbose,
        pattern: Pattern::parse(alloc, pattern.unwrap_or(Pattern::DEFAULT))?,
    };
    Ok((options, copies(alloc, asked.targets.as_slice())?))
}

fn copies(alloc: Global, words: &[&str]) -> Result<Vec<Text>, AllocError>
    ensures { IfOk result (λ texts. texts.items ≡ map (λ word. word.now) words.now) }
{
    let mut texts = Vec::new(alloc);
    for word in words {
        texts.push(Text::from_str(alloc, word)?)?;
    }
    Ok(texts)
}
