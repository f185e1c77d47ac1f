//! What is below a folder that was given another path.

ghost use Rattle.std.specs.Prelude.{◌≡◌, ◌++◌, IfOk, OnOk, nat_eq, option_map, slice_get};
ghost use Rattle.std.specs.List.{starts_with};
ghost use Rattle.std.specs.Map.Iter.{deref};
ghost use Rattle.audit.specs.Below.{behind, below, is_below, is_slash, renamed, with_one};

use paths::{PathId, Paths};
use std::alloc::{AllocError, Global};
use text::{Items, Path};

/// A path that became another one.
#[derive(Drop)]
pub struct Carried {
    pub from: Path,
    pub to: Path,
}

/// Those of these paths that are below the first folder, with what they are called where that is the second one. Each is looked at once.
pub fn below(
    alloc: Global,
    paths: &Paths,
    from: &str,
    to: &str,
) -> Result<Items<Carried>, AllocError>
    ensures { IfOk result (λ found. found ≡ below from.now to.now paths.now) }
{
    let mut found = Items::new(alloc);
    for place in 0..paths.len() {
        let Some(path) = path_at(paths, place) else {
            return Ok(found);
        };
        push(alloc, from, to, path, &mut found)?;
    }
    Ok(found)
}

/// Puts the path at the end, with what it is called then, if it is below the first folder.
fn push(
    alloc: Global,
    from: &str,
    to: &str,
    path: &str,
    found: &mut Items<Carried>,
) -> Result<(), AllocError>
    ensures { OnOk result (found.new ≡ found.old ++ with_one from.now to.now path.now) }
{
    if let Some(rest) = behind(from, path) {
        found.push(renamed(alloc, to, path, rest)?)?;
    }
    Ok(())
}

/// The path, and what it is called where its folder is this one.
fn renamed(alloc: Global, to: &str, path: &str, rest: &str) -> Result<Carried, AllocError>
    ensures { IfOk result (λ one. one ≡ renamed to.now path.now rest.now) }
{
    let mut name = String::from_str(alloc, to)?;
    name.push('/')?;
    name.push_str(rest)?;
    Ok(Carried {
        from: Path::from_str(alloc, path)?,
        to: Path::from_string(name),
    })
}

/// What stands behind the folder and a slash, where the path is below it.
fn behind<'p>(folder: &str, path: &'p str) -> Option<&'p str>
    ensures { option_map (λ rest. rest.now) result ≡ behind folder.now path.now }
{
    if is_below(folder, path) {
        return Some(&path[folder.len() + 1..]);
    }
    None
}

/// Whether the path begins with the folder and a slash.
#[tactic(auto, unfolding(crate::specs::Below::is_below))]
fn is_below(folder: &str, path: &str) -> bool
    ensures { result ≡ is_below folder.now path.now }
{
    begins(path, folder) && is_slash_at(path, folder.len())
}

fn begins(path: &str, front: &str) -> bool
    ensures { result ≡ starts_with nat_eq path.now front.now }
{
    path.as_bytes().starts_with(front.as_bytes())
}

/// Whether a slash stands in this place.
fn is_slash_at(path: &str, place: usize) -> bool
    ensures { result ≡ is_slash (slice_get path.now place) }
{
    is_slash(byte_at(path.as_bytes(), place))
}

/// The byte in this place.
fn byte_at(bytes: &[u8], place: usize) -> Option<u8>
    ensures { result ≡ slice_get bytes.now place }
{
    bytes.get(place).copied()
}

fn is_slash(byte: Option<u8>) -> bool
    ensures { result ≡ is_slash byte }
{
    match byte {
        Some(byte) => byte == b'/',
        None => false,
    }
}

/// The path in this place of a table.
fn path_at(paths: &Paths, place: usize) -> Option<&str>
    ensures { option_map deref result ≡ slice_get paths.now place }
{
    if place >= paths.len() {
        return None;
    }
    match PathId::at(place) {
        Some(number) => paths.get(number),
        None => None,
    }
}
