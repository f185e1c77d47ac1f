//! Files outside of the folder that commands read or wrote.

use crate::around::Names;
use audit::{Use, Uses};
use paths::{PathId, Paths};
use std::alloc::{AllocError, Global};

const READ: &str = "read outside of the folder";

const WRITTEN: &str = "written outside of the folder";

const LOOKED: &str = "looked for, and then found outside of the folder";

/// Files outside of the folder that no build line names, each once: those that were read, and those that were written and left. Beside them those
/// of the folder that were looked for and were not there, before such a one was read that was reported.
#[derive(Drop)]
pub struct Outside {
    read: Paths,
    written: Paths,
    looked: Paths,
}

/// Folders, and how many files were seen in each.
#[derive(Drop)]
struct Counts {
    folders: Paths,
    counts: Vec<usize>,
}

impl Outside {
    /// None. This takes no memory.
    pub fn new(alloc: Global) -> Outside {
        Outside {
            read: Paths::new(alloc),
            written: Paths::new(alloc),
            looked: Paths::new(alloc),
        }
    }

    /// Takes in that a file was looked for before one outside of the folder.
    pub fn look(&mut self, alloc: Global, path: &str) -> Result<(), AllocError> {
        self.looked.add(alloc, path)?;
        Ok(())
    }

    /// Takes in what a command did.
    pub fn take(&mut self, alloc: Global, names: &Names, uses: &Uses) -> Result<(), AllocError> {
        for place in 0..uses.len() {
            if let Some(path) = uses.path(place) {
                if path.starts_with('/') && !names.counts(path) {
                    self.take_at(alloc, path, uses.used(place).unwrap_or(Use::none()))?;
                }
            }
        }
        Ok(())
    }

    fn take_at(&mut self, alloc: Global, path: &str, used: Use) -> Result<(), AllocError> {
        if used.reads {
            self.read.add(alloc, path)?;
        }
        if used.writes && !used.gone {
            self.written.add(alloc, path)?;
        }
        Ok(())
    }

    /// The lines that tell of them: one for each folder, or where they are to be listed one for each file.
    pub fn push_lines(
        &self,
        alloc: Global,
        is_listed: bool,
        lines: &mut String,
    ) -> Result<(), AllocError> {
        if is_listed {
            push_files(alloc, READ, &self.read, lines)?;
            push_files(alloc, WRITTEN, &self.written, lines)?;
            return push_files(alloc, LOOKED, &self.looked, lines);
        }
        push_folders(alloc, READ, &self.read, lines)?;
        push_folders(alloc, WRITTEN, &self.written, lines)?;
        push_folders(alloc, LOOKED, &self.looked, lines)
    }
}

fn push_files(
    alloc: Global,
    done: &str,
    files: &Paths,
    lines: &mut String,
) -> Result<(), AllocError> {
    for place in 0..files.len() {
        let path = path_at(files, place);
        let line = format!(in alloc; "note: {done}: {path}\n")?;
        lines.push_str(line.as_str())?;
    }
    Ok(())
}

fn push_folders(
    alloc: Global,
    done: &str,
    files: &Paths,
    lines: &mut String,
) -> Result<(), AllocError> {
    let counts = counts_of(alloc, files)?;
    for place in 0..counts.folders.len() {
        let folder = path_at(&counts.folders, place);
        let count = counts.counts.get(place).copied().unwrap_or(0);
        let line = format!(in alloc; "note: {done}: {folder}/, files: {count}\n")?;
        lines.push_str(line.as_str())?;
    }
    Ok(())
}

fn counts_of(alloc: Global, files: &Paths) -> Result<Counts, AllocError> {
    let mut counts = Counts {
        folders: Paths::new(alloc),
        counts: Vec::new(alloc),
    };
    for place in 0..files.len() {
        counts.count(alloc, folder_of(path_at(files, place)))?;
    }
    Ok(counts)
}

impl Counts {
    fn count(&mut self, alloc: Global, folder: &str) -> Result<(), AllocError> {
        let place = self.folders.add(alloc, folder)?.index();
        if place < self.counts.len() {
            self.counts[place] = self.counts[place].saturating_add(1);
            return Ok(());
        }
        self.counts.push(1)?;
        Ok(())
    }
}

/// The path in this place.
fn path_at(paths: &Paths, place: usize) -> &str {
    match PathId::at(place) {
        Some(number) => paths.get(number).unwrap_or(""),
        None => "",
    }
}

/// The folder of a file, without its last slash.
fn folder_of(path: &str) -> &str {
    match path.rsplit_once('/') {
        Some((folder, _)) => folder,
        None => "",
    }
}
