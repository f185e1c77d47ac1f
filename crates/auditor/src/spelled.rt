//! Which commands took files that build lines spell in two ways.

use paths::{PathId, Paths};
use std::alloc::{AllocError, Global};

/// Files that commands took, each once, by how build lines spell it; and who took it.
#[derive(Drop)]
pub struct Spelled {
    /// Both spellings of each file.
    files: Paths,
    takings: Vec<Taking>,
}

/// Who took a file.
#[derive(Drop)]
struct Taking {
    /// The first output of the command that took it first.
    name: String,
    /// The path by which that one took it.
    path: String,
    /// How many commands took it.
    commands: usize,
    /// How many were looked at before the last one that took it.
    last: usize,
}

impl Spelled {
    /// None. This takes no memory.
    pub fn new(alloc: Global) -> Spelled {
        Spelled {
            files: Paths::new(alloc),
            takings: Vec::new(alloc),
        }
    }

    /// Takes in that the command of this name, before which so many were looked at, took a file with these two spellings by this path.
    pub fn take(
        &mut self,
        alloc: Global,
        name: &str,
        path: &str,
        both: &str,
        before: usize,
    ) -> Result<(), AllocError> {
        let place = self.files.add(alloc, both)?.index();
        if place < self.takings.len() {
            self.again(place, before);
            return Ok(());
        }
        self.takings.push(Taking {
            name: String::from_str(alloc, name)?,
            path: String::from_str(alloc, path)?,
            commands: 1,
            last: before,
        })?;
        Ok(())
    }

    /// Counts a command that took the file in this place, once.
    fn again(&mut self, place: usize, before: usize) {
        if place < self.takings.len() && self.takings[place].last != before {
            let commands = self.takings[place].commands;
            self.takings[place].commands = commands.saturating_add(1);
            self.takings[place].last = before;
        }
    }

    /// The lines that tell of them, one for each file.
    pub fn push_lines(&self, alloc: Global, lines: &mut String) -> Result<(), AllocError> {
        for place in 0..self.takings.len() {
            let both = both_at(&self.files, place);
            let Taking {
                name,
                path,
                commands,
                ..
            } = &self.takings[place];
            let line = format!(in alloc;
                "{name}: takes {path}, which build lines name as {both} (a path is the only name of its file), commands: {commands}\n"
            )?;
            lines.push_str(line.as_str())?;
        }
        Ok(())
    }
}

/// Both spellings of the file in this place.
fn both_at(files: &Paths, place: usize) -> &str {
    match PathId::at(place) {
        Some(number) => files.get(number).unwrap_or(""),
        None => "",
    }
}
