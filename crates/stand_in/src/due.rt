//! What is due, before anything runs.

ghost use Rattle.std.specs.Prelude.{◌≡◌, false, OnOk};
ghost use Rattle.model.specs.Calls.{OnlyLooks};
ghost use Rattle.model.specs.World.{IsIdle};

use crate::build::{read_alone, read_here};
use crate::regenerating::{show_command, would_run};
use crate::tools_here::NoAnswer;
use builder::{Explained, Explanation, Options, Report, explain};
use model::SiteFault;
use ninja_asked::{Above, all_above, left_targets};
use ninja_words::Options as Given;
use nj_run::Alone;
use paths::Command;
use site::Site;
use status::Counts;
use std::alloc::Global;
use tools::Declared;

/// What is due of what is asked for.
#[derive(Debug, Drop)]
pub enum Due {
    /// A generator of the file that was read: what else is due is known once it has run. Where commands are run, these are due by the file
    /// as it is.
    Generator(Option<Explained>),
    /// These commands.
    Commands(Explained),
}

/// What is due of what is asked for, and why, by what stands there now. Where nothing is to be run, it waits until nobody else is at work
/// in the folder, and shows a line of each command. Nothing is started or written.
#[tactic(auto, using(crate::proofs::Looking::looking))]
pub fn due_here<S: Alone>(
    alloc: Global,
    site: &mut S,
    given: &Given<'_>,
    options: &Options,
) -> Result<Due, NoAnswer>
    requires { IsIdle (S.world site.old).events }
    ensures { OnlyLooks S.tells (S.world site.old) (S.world site.new) }
{
    let mut declared = read_for(alloc, site, given, options.file.as_str())?;
    site.learn(alloc, &declared.graph.manifest, options.verbose);
    due_of(alloc, site, given, options, &mut declared)
}

/// Reads the build files, once nobody else is at work where nothing is to be run.
fn read_for<S: Alone>(
    alloc: Global,
    site: &mut S,
    given: &Given<'_>,
    file: &str,
) -> Result<Declared, Report>
    ensures looks { OnlyLooks S.tells (S.world site.old) (S.world site.new) }
    ensures goes { OnOk result ((S.world site.new).stopped ≡ false) }
{
    if given.dry {
        return read_alone(alloc, site, file);
    }
    read_here(alloc, site, file)
}

/// What is due by what was read.
#[tactic(auto, using(crate::proofs::Looking::looking))]
fn due_of<S: Site>(
    alloc: Global,
    site: &mut S,
    given: &Given<'_>,
    options: &Options,
    declared: &mut Declared,
) -> Result<Due, NoAnswer>
    requires idle { IsIdle (S.world site.old).events }
    requires running { (S.world site.old).stopped ≡ false }
    ensures { OnlyLooks S.tells (S.world site.old) (S.world site.new) }
{
    let above = all_above(alloc, declared, options.file.as_str())?;
    if would_run(alloc, site, declared, &above)? {
        return Ok(Due::Generator(due_beside(alloc, site, given, options, declared, &above)));
    }
    let explained = explain_left(alloc, site, given, options, declared, &above)?;
    show_dry(alloc, site, given, options, declared, &explained)?;
    Ok(Due::Commands(explained))
}

/// What is due beside a generator, by the file as it is, where commands are run. What is not to be had is told by the build itself.
#[tactic(auto, using(crate::proofs::Looking::looking))]
fn due_beside<S: Site>(
    alloc: Global,
    site: &mut S,
    given: &Given<'_>,
    options: &Options,
    declared: &mut Declared,
    above: &Above,
) -> Option<Explained>
    requires idle { IsIdle (S.world site.old).events }
    requires running { (S.world site.old).stopped ≡ false }
    ensures { OnlyLooks S.tells (S.world site.old) (S.world site.new) }
{
    if given.dry {
        return None;
    }
    match explain_left(alloc, site, given, options, declared, above) {
        Ok(explained) => Some(explained),
        Err(_) => None,
    }
}

/// Which commands are due of what is asked for beside what generators make, and why.
#[tactic(auto, using(crate::proofs::Telling::telling))]
fn explain_left<S: Site>(
    alloc: Global,
    site: &mut S,
    given: &Given<'_>,
    options: &Options,
    declared: &mut Declared,
    above: &Above,
) -> Result<Explained, NoAnswer>
    requires idle { IsIdle (S.world site.old).events }
    requires running { (S.world site.old).stopped ≡ false }
    ensures { OnlyLooks S.tells (S.world site.old) (S.world site.new) }
{
    let left = left_targets(alloc, site, declared, given.words.as_slice(), above)?;
    if left.is_nothing() {
        return Ok(Explained {
            commands: Vec::new(alloc),
            unloaded: None,
        });
    }
    Ok(explain(alloc, site, options, left.as_slice())?)
}

/// Shows a line of each of these commands, as if it had ended, where nothing is to be run.
#[tactic(auto, using(crate::proofs::Looking::looking))]
fn show_dry<S: Site>(
    alloc: Global,
    site: &mut S,
    given: &Given<'_>,
    options: &Options,
    declared: &Declared,
    explained: &Explained,
) -> Result<(), SiteFault>
    ensures { OnlyLooks S.tells (S.world site.old) (S.world site.new) }
{
    if given.dry {
        return show_all(alloc, site, options, declared, &explained.commands);
    }
    Ok(())
}

/// Shows a line of each of these commands.
#[tactic(auto, using(crate::proofs::Looking::looking))]
fn show_all<S: Site>(
    alloc: Global,
    site: &mut S,
    options: &Options,
    declared: &Declared,
    commands: &[Explanation],
) -> Result<(), SiteFault>
    ensures { OnlyLooks S.tells (S.world site.old) (S.world site.new) }
{
    let mut shown = 0usize;
    for explanation in commands {
        let counts = counts_behind(shown, commands.len());
        shown = shown.saturating_add(1);
        show_one(
            alloc,
            site,
            options,
            declared.command(explanation.edge),
            &counts,
        )?;
    }
    Ok(())
}

/// How far it has come with one command more than these.
fn counts_behind(done: usize, total: usize) -> Counts {
    let shown = done.saturating_add(1);
    Counts {
        started: shown,
        total: total.max(shown),
        running: 0,
        finished: shown,
    }
}

/// Shows the line of a command, if there is one.
fn show_one<S: Site>(
    alloc: Global,
    site: &mut S,
    options: &Options,
    command: Option<&Command>,
    counts: &Counts,
) -> Result<(), SiteFault>
    ensures { OnlyLooks S.tells (S.world site.old) (S.world site.new) }
{
    match command {
        Some(command) => show_command(alloc, site, command, counts, options),
        None => Ok(()),
    }
}
