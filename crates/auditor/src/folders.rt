//! Which folders a trace shows.

ghost use Rattle.std.specs.Prelude.{IfOk};
ghost use Rattle.auditor.specs.Things.{AreFolders};

use audit::{Way, Whole};
use paths::{PathId, Paths};
use std::alloc::{AllocError, Global};
use text::{Items, Path};
use trace::Deed;

/// That the working folder is one, that for scratch files, of which the front is given, and each path above another at which something was: of a
/// call that only asks whether a path is there, a trace does not tell whether that is a folder. It stands in front of the things, so that a
/// folder is known to be one once it is given another path.
pub fn folders_of(
    alloc: Global,
    folder: &str,
    scratch: &str,
    wholes: &[Whole],
) -> Result<Items<Whole>, AllocError>
    ensures { IfOk result AreFolders }
{
    let folders = folders_in(alloc, folder, scratch, wholes)?;
    told(alloc, &folders)
}

/// That each of these is a folder.
fn told(alloc: Global, folders: &Paths) -> Result<Items<Whole>, AllocError>
    ensures { IfOk result AreFolders }
{
    let mut wholes = Items::new(alloc);
    for place in 0..folders.len() {
        if let Some(number) = PathId::at(place) {
            wholes.push(Whole {
                deed: Deed::Folder,
                path: Path::from_str(alloc, folders.get(number).unwrap_or(""))?,
                real: None,
                other: None,
                up: false,
                way: Way::Plain,
            })?;
        }
    }
    Ok(wholes)
}

/// The working folder and that for scratch files, and all that is above these or above a path at which something was. Each is looked at once.
fn folders_in(
    alloc: Global,
    folder: &str,
    scratch: &str,
    wholes: &[Whole],
) -> Result<Paths, AllocError> {
    let mut folders = Paths::new(alloc);
    push_above(alloc, folder, &mut folders)?;
    push_above(alloc, scratch, &mut folders)?;
    folders.add(alloc, folder)?;
    for whole in wholes {
        if was_there(whole.deed) {
            push_above(alloc, whole.path.as_str(), &mut folders)?;
            push_above(alloc, real_path(whole), &mut folders)?;
        }
    }
    Ok(folders)
}

/// Whether something was at the path of such a thing, before it or after it.
fn was_there(deed: Deed) -> bool {
    deed != Deed::Missed && deed != Deed::Sought && deed != Deed::Connected
}

/// The path that the kernel has, where it is known.
fn real_path(whole: &Whole) -> &str {
    match &whole.real {
        Some(real) => real.as_str(),
        None => "",
    }
}

/// Puts the folders above a path into the table. Where one is there, those above it are.
fn push_above(alloc: Global, path: &str, folders: &mut Paths) -> Result<(), AllocError> {
    let mut below = path;
    for _ in 0..usize::MAX {
        let Some((above, _)) = below.rsplit_once('/') else {
            return Ok(());
        };
        if above.is_empty() || folders.number_of(above).is_some() {
            return Ok(());
        }
        folders.add(alloc, above)?;
        below = above;
    }
    Ok(())
}
