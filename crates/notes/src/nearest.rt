//! The nearest path to a target that no build line names.

ghost use Rattle.std.specs.Prelude.{◌≡◌, ◌≤◌, IfOk, IfSome, length};
ghost use Rattle.std.specs.Str.{chars};
ghost use Rattle.notes.specs.Found.{FindsOnly, IsOfNearest};
ghost use Rattle.notes.specs.Nearest.{IsNear, most_steps, steps};

use crate::alike::{LOOKS, may_be_near};
use crate::note::Note;
use paths::{Manifest, PathId};
use std::alloc::{AllocError, Global};
use strsim::osa_distance;
use text::Path;

/// So many characters may be other ones at most.
const MOST: usize = 3;

/// A target of more bytes has no nearest path: the steps between two texts take a time of the order of the product of their lengths.
const LONGEST: usize = 1000;

/// The path of the build lines that is nearest to this canonical path of a target, where one is near: a step is a character that is added,
/// left out or another one, or two neighbours that are exchanged, and a third of the target's characters, up to three, may be stepped over.
///
/// What is found is near. That none is found promises nothing: paths are looked at while looks are left ([`LOOKS`]), which suffice for a
/// million of them, and each is compared by its bytes before it is by its characters. It takes some tenths of a second at most.
pub fn nearest_target(
    alloc: Global,
    manifest: &Manifest,
    target: &str,
) -> Result<Option<Note>, AllocError>
    ensures { FindsOnly (IsOfNearest target.now) result }
{
    match nearest_path(alloc, manifest, target)? {
        Some(path) => Ok(Some(Note::Nearest(Path::from_str(alloc, path)?))),
        None => Ok(None),
    }
}

/// The first of the nearest paths that build lines name.
fn nearest_path<'a>(
    alloc: Global,
    manifest: &'a Manifest,
    target: &str,
) -> Result<Option<&'a str>, AllocError>
    ensures { IfOk result (λ found. IfSome found (λ path. IsNear target.now path.now)) }
{
    let mut most = most_of(target);
    let mut looks = LOOKS;
    let mut nearest = None;
    for place in 0..manifest.named {
        if let Some(path) = path_at(manifest, place) {
            if let Some(steps) = steps_within(alloc, target, path, most, &mut looks)? {
                nearest = Some(path);
                most = steps.saturating_sub(1);
            }
        }
    }
    Ok(nearest)
}

/// The path at this place of the table.
fn path_at(manifest: &Manifest, place: usize) -> Option<&str> {
    manifest.paths.get(PathId::at(place)?)
}

/// How many steps may be between the target and what was meant.
fn most_of(target: &str) -> usize
    ensures { result ≤ most_steps (length (chars target.now)) }
{
    if target.len() > LONGEST {
        return 0;
    }
    let size = size_of(target);
    (size.saturating_add(2) / 3)
        .min(MOST)
        .min(size.saturating_sub(1))
}

/// How many characters the text has.
fn size_of(text: &str) -> usize
    ensures { result ≡ length (chars text.now) }
{
    text.chars().count()
}

/// How many steps lie between the two, where they are not more than so many. None where no looks are left.
fn steps_within(
    alloc: Global,
    target: &str,
    path: &str,
    most: usize,
    looks: &mut usize,
) -> Result<Option<usize>, AllocError>
    ensures steps { IfOk result (λ found. IfSome found (λ count. count ≡ steps target.now path.now)) }
    ensures most { IfOk result (λ found. IfSome found (λ count. count ≤ most)) }
{
    if !may_be_near(target.as_bytes(), path.as_bytes(), most, looks) {
        return Ok(None);
    }
    let steps = osa_distance(alloc, target, path)?;
    if steps > most {
        return Ok(None);
    }
    Ok(Some(steps))
}
