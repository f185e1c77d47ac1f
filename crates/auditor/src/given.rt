//! Files that a command opened by another name than the kernel has.

ghost use Rattle.std.specs.Prelude.{◌≡◌, IfOk, false};
ghost use Rattle.std.specs.List.{AllZip};
ghost use Rattle.auditor.specs.Things.{IsGiven, may_be_renamed};

use crate::around::Names;
use crate::links::is_at_own;
use crate::scratch::Scratch;
use crate::ways::counts_by_given;
use audit::{Whole, writes};
use indexmap::IndexMap;
use std::alloc::{AllocError, Global};
use text::{Items, Path};
use trace::Deed;

/// The same things, but that what is told by a descriptor alone, with the kernel's name, is told by the name by which it was opened, where that
/// one counts.
pub fn by_given_names(
    alloc: Global,
    names: &Names,
    scratch: &Scratch,
    wholes: Items<Whole>,
) -> Result<Items<Whole>, AllocError>
    ensures { IfOk result (AllZip IsGiven wholes) }
{
    let given = given_names(alloc, names, scratch, wholes.as_slice())?;
    if given.is_empty() {
        return Ok(wholes);
    }
    renamed_all(alloc, &given, wholes.as_slice())
}

/// The same things by the names that were given.
fn renamed_all(
    alloc: Global,
    given: &IndexMap<String, String>,
    wholes: &[Whole],
) -> Result<Items<Whole>, AllocError>
    ensures { IfOk result (AllZip IsGiven wholes.now) }
{
    let mut renamed = Items::new(alloc);
    for whole in wholes {
        renamed.push(renamed_by(alloc, given, whole)?)?;
    }
    Ok(renamed)
}

/// For the kernel's name of each file that was opened by another name, by which that counts, the other name.
fn given_names(
    alloc: Global,
    names: &Names,
    scratch: &Scratch,
    wholes: &[Whole],
) -> Result<IndexMap<String, String>, AllocError> {
    let mut given = IndexMap::new(alloc);
    for whole in wholes {
        if let Some(real) = &whole.real {
            if *real != whole.path && is_given(names, scratch, whole) {
                push_name(alloc, real.as_str(), whole.path.as_str(), &mut given)?;
            }
        }
    }
    Ok(given)
}

/// Whether a file was opened by a name by which that counts, and which is not that of a link of the command's own.
fn is_given(names: &Names, scratch: &Scratch, whole: &Whole) -> bool {
    is_opened(whole.deed) && !is_at_own(whole) && counts_by_given(names, scratch, whole)
}

/// Whether such a thing may be that a file was opened.
fn is_opened(deed: Deed) -> bool {
    writes(deed) || matches!(deed, Deed::Read | Deed::Asked | Deed::Folder)
}

fn push_name(
    alloc: Global,
    real: &str,
    path: &str,
    given: &mut IndexMap<String, String>,
) -> Result<(), AllocError> {
    let _ = given.insert(
        String::from_str(alloc, real)?,
        String::from_str(alloc, path)?,
    )?;
    Ok(())
}

fn renamed_by(
    alloc: Global,
    given: &IndexMap<String, String>,
    whole: &Whole,
) -> Result<Whole, AllocError>
    ensures { IfOk result (IsGiven whole.now) }
{
    Ok(Whole {
        deed: whole.deed,
        path: path_by(alloc, given, whole)?,
        real: copied(&whole.real)?,
        other: copied(&whole.other)?,
        up: whole.up,
        way: whole.way,
    })
}

/// The path of what was done, or the name by which the file was opened.
fn path_by(
    alloc: Global,
    given: &IndexMap<String, String>,
    whole: &Whole,
) -> Result<Path, AllocError>
    ensures { IfOk result (λ path. may_be_renamed whole.now.deed ≡ false → path ≡ whole.now.path) }
{
    match &whole.real {
        Some(_) => Ok(whole.path.clone()?),
        None => Path::from_str(alloc, name_by(given, whole.deed, whole.path.as_str())),
    }
}

/// A copy of a path, if there is one.
fn copied(path: &Option<Path>) -> Result<Option<Path>, AllocError>
    ensures { IfOk result (λ copy. copy ≡ path.now) }
{
    match path {
        Some(path) => Ok(Some(path.clone()?)),
        None => Ok(None),
    }
}

/// The name by which the file at this path was opened, of what may be told by a descriptor alone; else the path.
fn name_by<'n>(given: &'n IndexMap<String, String>, deed: Deed, path: &'n str) -> &'n str
    ensures { may_be_renamed deed ≡ false → result.now ≡ path.now }
{
    if !may_be_renamed(deed) {
        return path;
    }
    match given.get(path) {
        Some(name) => name.as_str(),
        None => path,
    }
}

/// Whether such a thing may be told by a descriptor alone.
fn may_be_renamed(deed: Deed) -> bool
    ensures { result ≡ may_be_renamed deed }
{
    matches!(deed, Deed::Asked | Deed::Listed | Deed::Emptied)
}
