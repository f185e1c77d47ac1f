//! What breaks a premise of all that a command did.

use crate::found::deed_of;
use audit::{Around, By, Lists, Uses, Way, Whole, breaches, uses_of};
use paths::Paths;
use std::alloc::{AllocError, Global};
use tables::{push_word, word};
use text::{Items, Path};
use trace::Deed;

/// `edge PATHS DEEDS`: what breaks a premise, path by path.
pub fn push_edge(alloc: Global, row: &str, told: &mut String) -> Result<(), AllocError> {
    let (paths, deeds) = word(row);
    let lists = Lists {
        outputs: listed(alloc, paths, "output")?,
        sides: listed(alloc, paths, "side")?,
        inputs: listed(alloc, paths, "input")?,
        order_only: listed(alloc, paths, "order_only")?,
        reported: listed(alloc, paths, "reported")?,
        restat: false,
    };
    let uses = uses_in(alloc, deeds, &lists)?;
    push_breaches(alloc, paths, &lists, &uses, told)
}

/// The paths that stand in the row behind this name and a colon.
fn listed(alloc: Global, paths: &str, name: &str) -> Result<Paths, AllocError> {
    let mut table = Paths::new(alloc);
    for one in paths.split(',') {
        if let Some((first, path)) = one.split_once(':') {
            if first == name {
                table.add(alloc, path)?;
            }
        }
    }
    Ok(table)
}

/// What was done path by path, and the outputs at which nothing was done. Behind an equals sign stands the path that the kernel has, by which a
/// thing counts then; behind a plus one by which it counts too.
fn uses_in(alloc: Global, deeds: &str, lists: &Lists) -> Result<Uses, AllocError> {
    let mut wholes = Items::new(alloc);
    let mut bys = Vec::new(alloc);
    for one in deeds.split(',') {
        if let Some((name, path)) = one.split_once(':') {
            if let Some(deed) = deed_of(name) {
                bys.push(by_in(path))?;
                wholes.push(whole_of(alloc, deed, path)?)?;
            }
        }
    }
    let mut uses = uses_of(alloc, wholes.as_slice(), bys.as_slice())?;
    uses.add_untouched(alloc, &lists.outputs)?;
    Ok(uses)
}

/// By which of the two paths in this text a thing counts.
fn by_in(path: &str) -> By {
    if path.contains('+') {
        By::Both
    } else if path.contains('=') {
        By::Kernel
    } else {
        By::Name
    }
}

fn whole_of(alloc: Global, deed: Deed, path: &str) -> Result<Whole, AllocError> {
    let (path, other) = cut(path, path.split_once('<'));
    let (path, real) = cut(path, path.split_once('=').or(path.split_once('+')));
    Ok(Whole {
        deed,
        path: Path::from_str(alloc, path)?,
        real: path_if(alloc, real)?,
        other: path_if(alloc, other)?,
        up: false,
        way: Way::Plain,
    })
}

/// The two parts of a text that was cut, or the text alone.
fn cut<'a>(text: &'a str, parts: Option<(&'a str, &'a str)>) -> (&'a str, Option<&'a str>) {
    match parts {
        Some((front, back)) => (front, Some(back)),
        None => (text, None),
    }
}

fn path_if(alloc: Global, path: Option<&str>) -> Result<Option<Path>, AllocError> {
    match path {
        Some(path) => Ok(Some(Path::from_str(alloc, path)?)),
        None => Ok(None),
    }
}

fn push_breaches(
    alloc: Global,
    paths: &str,
    lists: &Lists,
    uses: &Uses,
    told: &mut String,
) -> Result<(), AllocError> {
    let made = listed(alloc, paths, "made")?;
    let above = listed(alloc, paths, "above")?;
    let mut arounds = Vec::new(alloc);
    for place in 0..uses.len() {
        let path = uses.path(place).unwrap_or("");
        arounds.push(around(path, &made, &above))?;
    }
    for breach in breaches(alloc, lists, arounds.as_slice(), uses)?.as_slice() {
        push_word(told, breach.finding.verb())?;
        told.push(' ')?;
        told.push_str(uses.path(breach.place).unwrap_or(""))?;
        told.push_str(breach.finding.why())?;
        told.push(';')?;
    }
    Ok(())
}

/// All paths are below the folder but those that begin with a slash; those that commands make are named.
fn around(path: &str, made: &Paths, above: &Paths) -> Around {
    let is_above = above.number_of(path).is_some();
    let is_made = made.number_of(path).is_some() || is_above;
    Around {
        made: is_made,
        above: is_above,
        named: is_made,
        recorded: false,
        inside: !path.as_bytes().starts_with(b"/"),
        own: false,
        scratch: false,
        left: false,
        filled: false,
    }
}
