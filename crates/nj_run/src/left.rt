//! Which files stand below the folder for scratch files before a build begins.

use paths::Paths;
use std::alloc::Global;
use std::{env, fs, io};

/// The files below the folder to which `TMPDIR` leads, links followed, where that is below the working folder, each from the root; none where
/// there is no such folder. Nothing where one of its folders cannot be read.
pub fn left_before(rt: &HostRuntime) -> Option<Paths> {
    let alloc = rt.alloc();
    match scratch_folder(rt) {
        Some(folder) => files_below(alloc, rt, folder).ok(),
        None => Some(Paths::new(alloc)),
    }
}

/// The folder to which `TMPDIR` leads, if it leads below the working one.
fn scratch_folder(rt: &HostRuntime) -> Option<String> {
    let named = env::var(rt, "TMPDIR").ok()?;
    let folder = fs::canonicalize(rt, named.as_str()).ok()?;
    let here = env::current_dir(rt).ok()?;
    let rest = folder.as_str().strip_prefix(here.as_str())?;
    if here.as_str() != "/" && !rest.starts_with('/') {
        return None;
    }
    String::from_str(rt.alloc(), folder.as_str()).ok()
}

/// The files below a folder; those of folders to which links lead stand elsewhere.
fn files_below(alloc: Global, rt: &HostRuntime, folder: String) -> io::Result<Paths> {
    let mut found = Paths::new(alloc);
    let mut open = Vec::with_capacity(alloc, 1)?;
    open.push(folder)?;
    for _ in 0..usize::MAX {
        let Some(folder) = open.pop() else {
            return Ok(found);
        };
        push_files(alloc, rt, folder.as_str(), &mut open, &mut found)?;
    }
    Ok(found)
}

/// Takes in the files right in a folder, and puts the folders there at the end.
fn push_files(
    alloc: Global,
    rt: &HostRuntime,
    folder: &str,
    open: &mut Vec<String>,
    found: &mut Paths,
) -> io::Result<()> {
    for entry in fs::read_dir(rt, folder)? {
        let entry = entry?;
        let path = entry.path();
        if fs::symlink_metadata(rt, path.as_str())?.is_dir() {
            open.push(String::from_str(alloc, path.as_str())?)?;
        } else {
            found.add(alloc, path.as_str())?;
        }
    }
    Ok(())
}
