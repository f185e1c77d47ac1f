//! What somebody else wrote where a command had made a path, by what builds have noted.

ghost use Rattle.std.specs.Prelude.{◌≡◌, IfOk, OnOk, false, true};
ghost use Rattle.std.specs.Map.Iter.{deref};
ghost use Rattle.std.specs.Option.{option_map};
ghost use Rattle.model.specs.Calls.{OnlyLooks};
ghost use Rattle.tools.specs.Clean.{AddsJust};
ghost use Rattle.ninja_asked.specs.Written.{ArePartedBy, FoundBy, IsToldBy, PartsBy, PartsSome, StandsForSome, is_others, is_others_file};

use lexer::{ReadFault, canonical};
use log_text::Records;
use measure::{Measure, Measured};
use paths::Paths;
use seen::{Past, judge};
use seen_log::{Log, Noted};
use site::{Site, SiteFault};
use std::alloc::{AllocError, Global};
use tools::{Fault, path_at};

/// The name of the file of the notes, which lies beside the logs.
const SEEN: &str = ".nj_seen";

/// Paths that commands made, told apart.
#[derive(Drop)]
pub struct Parted {
    /// Where nothing stands, or what the command left, or of which nothing is noted.
    pub left: Paths,
    /// Where somebody else wrote what stands there.
    pub others: Paths,
}

/// What builds have noted of paths whose logs lie in the folder that `builddir` names; nothing where the notes are absent or damaged.
#[tactic(auto, using(crate::proofs::Looking::looking))]
pub fn read_notes<S: Site>(alloc: Global, site: &mut S, builddir: &str) -> Result<Log, Fault>
    ensures looks { OnlyLooks S.tells (S.world site.old) (S.world site.new) }
    ensures some { IfOk result StandsForSome }
{
    let path = notes_path(alloc, builddir)?;
    let content = site.read(path.as_str())?;
    match content {
        Some(content) => Ok(noted_in(alloc, content.as_slice())?),
        None => Ok(no_notes(alloc)),
    }
}

/// The path of the notes.
fn notes_path(alloc: Global, builddir: &str) -> Result<String, AllocError> {
    match canonical(alloc, builddir) {
        Ok(folder) => path_in(alloc, folder.as_str()),
        Err(ReadFault::EmptyPath) => path_in(alloc, "."),
        Err(ReadFault::Memory) => Err(AllocError),
    }
}

/// The same in a folder of this canonical path.
fn path_in(alloc: Global, folder: &str) -> Result<String, AllocError> {
    match folder {
        "." => String::from_str(alloc, SEEN),
        "/" => format!(in alloc; "/{SEEN}"),
        _ => format!(in alloc; "{folder}/{SEEN}"),
    }
}

/// What this text of the notes tells.
fn noted_in(alloc: Global, text: &[u8]) -> Result<Log, AllocError>
    ensures { IfOk result (IsToldBy text.now) }
{
    let read = Log::parse(alloc, text)?;
    Ok(read.0)
}

/// Nothing is noted.
pub fn no_notes(alloc: Global) -> Log
    ensures { StandsForSome result }
{
    Log::new(alloc)
}

/// The paths, told apart by what builds have noted of them. It only looks.
#[tactic(auto, using(crate::proofs::Looking::looking))]
pub fn part<S: Measured>(
    alloc: Global,
    site: &mut S,
    notes: &Log,
    paths: &Paths,
) -> Result<Parted, Fault>
    ensures looks { OnlyLooks S.tells (S.world site.old) (S.world site.new) }
    ensures parted { IfOk result (ArePartedBy S.tells (S.world site.old) (S.world site.new) notes.now paths.now) }
{
    let left = Paths::new(alloc);
    let others = Paths::new(alloc);
    let mut parted = Parted { left, others };
    for place in 0..paths.len() {
        part_some(alloc, site, notes, path_at(paths, place), &mut parted)?;
    }
    Ok(parted)
}

/// Puts a path, if there is one, where it belongs.
#[tactic(auto, using(crate::proofs::Looking::looking))]
fn part_some<S: Measured>(
    alloc: Global,
    site: &mut S,
    notes: &Log,
    path: Option<&str>,
    parted: &mut Parted,
) -> Result<(), Fault>
    ensures looks { OnlyLooks S.tells (S.world site.old) (S.world site.new) }
    ensures parts { OnOk result (PartsSome S.tells (S.world site.old) (S.world site.new) notes.now (option_map deref path.entry) parted.old parted.new) }
{
    match path {
        Some(path) => part_path(alloc, site, notes, path, parted),
        None => Ok(()),
    }
}

/// Puts a path where it belongs.
#[tactic(auto, using(crate::proofs::Looking::looking))]
fn part_path<S: Measured>(
    alloc: Global,
    site: &mut S,
    notes: &Log,
    path: &str,
    parted: &mut Parted,
) -> Result<(), Fault>
    ensures looks { OnlyLooks S.tells (S.world site.old) (S.world site.new) }
    ensures parts { OnOk result (PartsBy S.tells (S.world site.old) (S.world site.new) notes.now path.now parted.old parted.new) }
{
    let written = is_written(site, notes, path)?;
    put(alloc, path, written, parted)?;
    Ok(())
}

/// Puts a path behind those where somebody else wrote what stands there, or behind the others.
fn put(alloc: Global, path: &str, written: bool, parted: &mut Parted) -> Result<(), AllocError>
    ensures left { OnOk result (AddsJust parted.old.left parted.new.left (λ text. (text ≡ path.now) × (written ≡ false))) }
    ensures others { OnOk result (AddsJust parted.old.others parted.new.others (λ text. (text ≡ path.now) × (written ≡ true))) }
{
    if written {
        parted.others.add(alloc, path)?;
        return Ok(());
    }
    parted.left.add(alloc, path)?;
    Ok(())
}

/// Whether somebody else wrote what stands at the path, by what builds have noted of it.
#[tactic(auto, using(crate::proofs::Looking::looking))]
fn is_written<S: Measured>(site: &mut S, notes: &Log, path: &str) -> Result<bool, SiteFault>
    ensures looks { OnlyLooks S.tells (S.world site.old) (S.world site.new) }
    ensures found { IfOk result (FoundBy S.tells (S.world site.old) (S.world site.new) notes.now path.now) }
{
    let noted = notes.lookup(path);
    let found = site.measure(path)?;
    Ok(is_others(noted, found))
}

/// Whether what is found at a path, of which this is noted, is what somebody else wrote. Where nothing is noted, nothing is.
fn is_others(noted: Option<Noted>, found: Option<Measure>) -> bool
    ensures { result ≡ is_others noted found }
{
    let Some(noted) = noted else {
        return false;
    };
    match found {
        Some(found) => is_others_file(noted, found),
        None => false,
    }
}

/// Whether a file, of which this is noted, is what somebody else wrote: a build in which a command makes its path counts it as absent.
fn is_others_file(noted: Noted, found: Measure) -> bool
    ensures { result ≡ is_others_file noted found.stamp found.size }
{
    let past = Past {
        noted: Some(noted),
        is_output: true,
        since: None,
    };
    let how = judge(past, 0, Some(found));
    how.counts.is_none()
}
