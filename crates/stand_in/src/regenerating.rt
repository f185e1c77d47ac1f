//! Regenerating: what the program does between two builds, in the user's place.

ghost use Rattle.std.specs.Prelude.{◌≡◌, false};
ghost use Rattle.ninja_asked.specs.Above.{AreEdges};
ghost use Rattle.stand_in.specs.Moves.{AsksWell, OnlyAsks};

use crate::judged::is_out_of_date;
use crate::place::Place;
use builder::Options;
use model::SiteFault;
use ninja_asked::Above;
use paths::{Command, EdgeId};
use site::Site;
use status::{Counts, Ending, Failure, line, push_ending, said_of};
use std::alloc::{AllocError, Global};
use tools::{Declared, outputs_at, text_at};

/// What became of the generators of a file.
#[derive(Clone, Copy, Debug, PartialEq, Eq)]
pub enum Regenerated {
    /// None was out of date.
    Nothing,
    /// Some ran, and ended well. `old` says that the file is out of date still.
    Ran { old: bool },
    /// One failed, and none was run behind it.
    Failed,
}

/// Runs those of the generators that are out of date by stamps, makers first, one after the other, each with the program's own input and
/// output. None of it is put into a log.
///
/// As moves this is a list of edits: to the site nobody but others wrote, no command was started, and all that was has ended. Where nothing
/// was out of date, no call was refused: what cannot be looked at counts as later.
pub fn regenerate<S: Place>(
    alloc: Global,
    site: &mut S,
    declared: &Declared,
    above: &Above,
    options: &Options,
) -> Result<Regenerated, SiteFault>
    requires { AreEdges declared.now above.now.generators.items }
    ensures { OnlyAsks S.tells (λ ran. ran ≡ Regenerated.Nothing) (S.world site.old) (S.world site.new) result }
{
    let mut some = false;
    let mut done = 0usize;
    for generator in above.generators.as_slice() {
        if !is_out_of_date(alloc, site, declared, *generator, above.file)? {
            continue;
        }
        let turn = Turn {
            options,
            done,
            total: above.generators.len(),
        };
        if !run_one(alloc, site, declared, *generator, turn)? {
            return Ok(Regenerated::Failed);
        }
        some = true;
        done = done.saturating_add(1);
    }
    if !some {
        return Ok(Regenerated::Nothing);
    }
    let old = is_last_old(alloc, site, declared, above)?;
    Ok(Regenerated::Ran { old })
}

/// Whether the generator that is nearest to the file is out of date.
fn is_last_old<S: Site>(
    alloc: Global,
    site: &mut S,
    declared: &Declared,
    above: &Above,
) -> Result<bool, SiteFault>
    requires { AreEdges declared.now above.now.generators.items }
    ensures { OnlyAsks S.tells (λ later. later ≡ false) (S.world site.old) (S.world site.new) result }
{
    match above.generators.last() {
        Some(last) => is_out_of_date(alloc, site, declared, *last, above.file),
        None => Ok(false),
    }
}

/// Whether one of the generators is out of date.
pub fn would_run<S: Site>(
    alloc: Global,
    site: &mut S,
    declared: &Declared,
    above: &Above,
) -> Result<bool, SiteFault>
    requires { AreEdges declared.now above.now.generators.items }
    ensures { OnlyAsks S.tells (λ later. later ≡ false) (S.world site.old) (S.world site.new) result }
{
    for generator in above.generators.as_slice() {
        if is_out_of_date(alloc, site, declared, *generator, above.file)? {
            return Ok(true);
        }
    }
    Ok(false)
}

/// How lines are shown, how many generators ran, and how many there are.
#[derive(Clone, Copy)]
struct Turn<'a> {
    options: &'a Options,
    done: usize,
    total: usize,
}

/// Runs one, and answers whether it ended well.
fn run_one<S: Place>(
    alloc: Global,
    site: &mut S,
    declared: &Declared,
    edge: EdgeId,
    turn: Turn<'_>,
) -> Result<bool, SiteFault>
    ensures { AsksWell S.tells (S.world site.old) (S.world site.new) result }
{
    let Some(command) = declared.command(edge) else {
        return Ok(true);
    };
    show_line(alloc, site, command, turn)?;
    make_folders(site, declared, edge)?;
    let ok = site.run_generator(&command.act)?;
    if ok {
        return Ok(true);
    }
    show_failure(alloc, site, declared, edge, command)?;
    Ok(false)
}

/// Shows the line of a command that is about to be started.
fn show_line<S: Site>(
    alloc: Global,
    site: &mut S,
    command: &Command,
    turn: Turn<'_>,
) -> Result<(), SiteFault>
    ensures { AsksWell S.tells (S.world site.old) (S.world site.new) result }
{
    let started = turn.done.saturating_add(1);
    let counts = Counts {
        started,
        total: turn.total.max(started),
        running: 1,
        finished: turn.done,
    };
    show_command(alloc, site, command, &counts, turn.options)
}

/// Shows the line of a command under these counts.
pub fn show_command<S: Site>(
    alloc: Global,
    site: &mut S,
    command: &Command,
    counts: &Counts,
    options: &Options,
) -> Result<(), SiteFault>
    ensures { AsksWell S.tells (S.world site.old) (S.world site.new) result }
{
    let shown = command.act.command.to_text(alloc)?;
    let said = said_of(
        options.verbose,
        command.description.as_str(),
        shown.as_str(),
    );
    let line = line(alloc, &options.pattern, counts, said)?;
    site.show(line.as_slice())
}

/// Shows which command failed. What it printed stands there already.
fn show_failure<S: Site>(
    alloc: Global,
    site: &mut S,
    declared: &Declared,
    edge: EdgeId,
    command: &Command,
) -> Result<(), SiteFault>
    ensures { AsksWell S.tells (S.world site.old) (S.world site.new) result }
{
    let outputs = texts(alloc, declared, edge)?;
    let line = command.act.command.to_text(alloc)?;
    let mut shown = Vec::new(alloc);
    push_failed(&mut shown, outputs.as_slice(), line.as_str())?;
    site.show(shown.as_slice())
}

/// Puts behind a text that a command failed, which printed nothing that is to be shown.
fn push_failed<'x>(
    text: &mut Vec<u8>,
    outputs: &'x [&'x str],
    command: &'x str,
) -> Result<(), AllocError> {
    let failure = Failure {
        outputs,
        command,
        depfile: None,
    };
    let ending = Ending {
        failure: Some(failure),
        output: b"",
    };
    push_ending(text, &ending)
}

fn texts<'a>(
    alloc: Global,
    declared: &'a Declared,
    edge: EdgeId,
) -> Result<Vec<&'a str>, AllocError> {
    let mut texts = Vec::new(alloc);
    for output in outputs_at(&declared.graph, edge) {
        texts.push(text_at(&declared.graph, *output))?;
    }
    Ok(texts)
}

/// Makes the folders of the outputs.
fn make_folders<S: Site>(site: &mut S, declared: &Declared, edge: EdgeId) -> Result<(), SiteFault>
    ensures { AsksWell S.tells (S.world site.old) (S.world site.new) result }
{
    for output in outputs_at(&declared.graph, edge) {
        make_folder(site, text_at(&declared.graph, *output))?;
    }
    Ok(())
}

/// Makes the folder of a path, if it has one.
fn make_folder<S: Site>(site: &mut S, path: &str) -> Result<(), SiteFault>
    ensures { AsksWell S.tells (S.world site.old) (S.world site.new) result }
{
    let Some((folder, _)) = path.rsplit_once('/') else {
        return Ok(());
    };
    if folder.is_empty() {
        return Ok(());
    }
    site.make_dirs(folder)
}
