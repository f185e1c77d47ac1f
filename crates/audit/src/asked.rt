//! At which paths it has to be asked whether a link stands.

use crate::lead::{Links, is_up, walked};
use crate::standing::Standing;
use crate::whole::whole_by;
use paths::Paths;
use std::alloc::{AllocError, Global};
use std::str::from_utf8;
use text::{Bytes, Text};
use trace::Fact;

/// The paths that names of these facts lead through, or to, or that they go up from, and of which it is not known whether a link stands there that
/// the command did not make: those that are met as long as no link is known there.
pub fn unasked(alloc: Global, old: &Standing, facts: &[Fact]) -> Result<Paths, AllocError> {
    let mut own = Standing::none(alloc);
    let mut found = Paths::new(alloc);
    for fact in facts {
        push_unasked(alloc, &own, old, &fact.path, &mut found)?;
        if let Some(other) = &fact.other {
            push_unasked(alloc, &own, old, other, &mut found)?;
        }
        let Some(whole) = whole_by(alloc, &own, old, fact)? else {
            return Ok(found);
        };
        own.take(alloc, &whole)?;
    }
    Ok(found)
}

/// Takes in those of one name.
fn push_unasked<'k>(
    alloc: Global,
    own: &'k Standing,
    old: &'k Standing,
    path: &Bytes,
    found: &mut Paths,
) -> Result<(), AllocError> {
    let Ok(name) = from_utf8(path.as_slice()) else {
        return Ok(());
    };
    let links = Links { own, old };
    let mut text = Text::from_str(alloc, name)?;
    for _ in 0..40 {
        push_left(alloc, &links, text.as_str(), found)?;
        let walk = walked(alloc, &links, true, text.as_str())?;
        walk.push_unknown(alloc, &links, found)?;
        if !walk.goes_on(true) {
            return Ok(());
        }
        text = walk.into_next();
    }
    Ok(())
}

/// Takes in those that the name leads through and goes up from: where a link stands there, it goes up from where that leads.
fn push_left(
    alloc: Global,
    links: &Links<'_>,
    name: &str,
    found: &mut Paths,
) -> Result<(), AllocError> {
    if !goes_up(name) {
        return Ok(());
    }
    let mut front = String::new(alloc);
    let mut was_up = false;
    for part in name.split('/') {
        if is_up(part) && !was_up {
            let walk = walked(alloc, links, true, front.as_str())?;
            walk.push_unknown(alloc, links, found)?;
        }
        was_up = is_up(part);
        front.push('/')?;
        front.push_str(part)?;
    }
    Ok(())
}

/// Whether a part of the name goes up.
fn goes_up(name: &str) -> bool {
    for part in name.split('/') {
        if is_up(part) {
            return true;
        }
    }
    false
}
