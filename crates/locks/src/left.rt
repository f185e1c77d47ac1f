//! The files by which the commands of a build that was killed are known.

ghost use Rattle.std.specs.Prelude.{◌≡◌, Some, true, false};

use crate::asked::{Asked, HERE, ask_file, is_file};
use crate::entered::{Entered, enter};
use crate::identity::is_at;
use crate::names::{INPUT, is_output, maker_of, path_in};
use crate::sight::{Lineage, Sight};
use crate::wait::{Awaited, Outcome, wait_for};
use std::alloc::{AllocError, Global};
use std::fs;
use std::fs::File;

/// Looks whether an earlier build was killed and left commands that still run, and waits for these. `folder` is the folder of the
/// logs, `None` where that is the working folder. The answer is what the build holds of the working folder from now on, and whether
/// it waited, so that everything is to be read anew.
///
/// Only where `INPUT` is there, the folder is looked at. Of that file, and of those whose names begin with `OUTPUT`, each is removed
/// that nobody has a lock on, `INPUT` as the last, and where there are no locks, but for those that the build which made them has open
/// still: one that is at work in another folder keeps files without a lock for its next commands. Where another process holds one, the working folder is given back
/// for as long as that lasts, and then entered anew. A file that somebody deletes meanwhile is not waited for, and where `INPUT` is
/// deleted, none is.
///
/// An inner build looks at nothing. A build that holds such a file itself, or by a parent of its program, was started by a command
/// of the earlier build: it waits for none of them, and is an inner one from now on. So is one that for ten seconds saw no process
/// that holds a file which is held.
pub fn wait_for_left(
    alloc: Global,
    rt: &HostRuntime,
    entered: Entered,
    folder: Option<&str>,
) -> (Entered, bool)
    ensures { entered ≡ Some true → (result.0 ≡ Some true) × (result.1 ≡ false) }
{
    let mut entered = entered;
    let sight = Sight { alloc, rt };
    let Ok(input) = path_in(alloc, folder, INPUT) else {
        return (entered, false);
    };
    if !is_file(rt, input.as_str()) || entered.is_inner(alloc, rt) {
        return (entered, false);
    }
    match clear(sight, folder, input.as_str()) {
        Cleared::All => (entered, false),
        Cleared::Own => (entered.into_inner(), false),
        Cleared::But(held) => {
            drop(entered);
            (enter_after(sight, input.as_str(), held.as_slice()), true)
        }
    }
}

/// Whether a file for what a command prints stands in the folder of this input: where the folder cannot be listed, none is seen.
pub fn has_outputs(rt: &HostRuntime, input: &str) -> bool {
    let Ok(entries) = fs::read_dir(rt, folder_of(input)) else {
        return false;
    };
    for entry in entries {
        if let Ok(entry) = entry {
            if is_output(entry.file_name()) && is_file(rt, entry.path().as_str()) {
                return true;
            }
        }
    }
    false
}

/// The folder in which the input at this path stands.
fn folder_of(input: &str) -> &str {
    match input.rsplit_once('/') {
        Some(("", _)) => "/",
        Some((folder, _)) => folder,
        None => HERE,
    }
}

/// What became of left files.
#[derive(Drop)]
enum Cleared {
    /// None is held: all are removed.
    All,
    /// The program itself or a parent of it holds one.
    Own,
    /// Others hold those at these paths, the input as the first.
    But(Vec<String>),
}

/// Waits until nobody holds the files at the paths, or the input is not there any more, and enters the folder.
fn enter_after(sight: Sight<'_>, input: &str, held: &[String]) -> Entered {
    let mut is_seen = true;
    for path in held {
        if is_file(sight.rt, input) && !wait_at(sight, path.as_str()) {
            is_seen = false;
            break;
        }
    }
    let entered = enter(sight.alloc, sight.rt);
    if is_seen {
        entered
    } else {
        entered.into_inner()
    }
}

/// Waits until nobody holds the file at the path, and answers whether it came to that: not, where no process is seen that holds it.
fn wait_at(sight: Sight<'_>, path: &str) -> bool {
    match ask_file(sight.rt, path) {
        Asked::Free(_) | Asked::Lockless(_) | Asked::Nothing => true,
        Asked::Held(refused) => {
            let outcome = wait_for(sight, Awaited::Left(path), refused);
            !matches!(outcome, Outcome::Unseen)
        }
    }
}

/// Removes left files that nobody holds.
fn clear(sight: Sight<'_>, folder: Option<&str>, input: &str) -> Cleared {
    let mut left = Left {
        sight,
        lineage: sight.lineage(),
        is_own: false,
        held: Vec::new(sight.alloc),
    };
    // what there is no memory for is not seen
    let _ = left.clear_all(folder, input);
    left.cleared()
}

/// Left files, as far as they were looked at.
#[derive(Drop)]
struct Left<'a> {
    sight: Sight<'a>,
    lineage: Lineage<'a>,
    /// Whether the program itself or a parent of it holds one.
    is_own: bool,
    /// The paths of those that others hold.
    held: Vec<String>,
}

impl<'a> Left<'a> {
    fn clear_all(&mut self, folder: Option<&str>, input: &str) -> Result<(), AllocError> {
        if let Asked::Held(file) = ask_file(self.sight.rt, input) {
            self.note(String::from_str(self.sight.alloc, input)?, &file)?;
        }
        self.clear_outputs(folder)?;
        if self.held.is_empty() && !self.is_own {
            self.clear_input(input);
        }
        Ok(())
    }

    /// Removes the input, unless somebody has it by now.
    fn clear_input(&self, input: &str) {
        match ask_file(self.sight.rt, input) {
            Asked::Free(file) => self.remove(input, &file),
            Asked::Lockless(file) => self.remove(input, &file),
            Asked::Held(_) => {}
            Asked::Nothing => self.remove_closed(input),
        }
    }

    /// Removes an input that cannot be opened. Where it was gone alone, another build may have made a new one by now, which can be.
    fn remove_closed(&self, input: &str) {
        let rt = self.sight.rt;
        if is_file(rt, input) && matches!(ask_file(rt, input), Asked::Nothing) {
            let _ = fs::remove_file(rt, input);
        }
    }

    fn clear_outputs(&mut self, folder: Option<&str>) -> Result<(), AllocError> {
        let listed = match folder {
            Some(folder) => path_in(self.sight.alloc, Some(folder), "")?,
            None => String::from_str(self.sight.alloc, HERE)?,
        };
        let Ok(entries) = fs::read_dir(self.sight.rt, listed.as_str()) else {
            return Ok(());
        };
        for entry in entries {
            match entry {
                Ok(entry) if is_output(entry.file_name()) => {
                    let path = path_in(self.sight.alloc, folder, entry.file_name())?;
                    self.clear_output(entry.file_name(), path)?;
                }
                _ => {}
            }
        }
        Ok(())
    }

    /// Removes the file of this name at the path, where nobody holds it.
    fn clear_output(&mut self, name: &str, path: String) -> Result<(), AllocError> {
        match ask_file(self.sight.rt, path.as_str()) {
            Asked::Free(file) => {
                self.remove_unused(name, path.as_str(), &file);
                Ok(())
            }
            Asked::Lockless(file) => {
                self.remove_unused(name, path.as_str(), &file);
                Ok(())
            }
            Asked::Held(file) => self.note(path, &file),
            Asked::Nothing => Ok(()),
        }
    }

    /// Removes the file of this name at the path, unless the build that made it is at work still, and has it open.
    fn remove_unused(&self, name: &str, path: &str, file: &File) {
        let is_used = match maker_of(name) {
            Some(process) => self.sight.may_use(process, file),
            None => false,
        };
        if !is_used {
            self.remove(path, file);
        }
    }

    /// Notes that the file at the path is held.
    fn note(&mut self, path: String, file: &File) -> Result<(), AllocError> {
        if self.lineage.holds(file) {
            self.is_own = true;
        } else {
            self.held.push(path)?;
        }
        Ok(())
    }

    /// Removes the file of this opening, which has its lock where there are locks, so that nobody gets it before the file is gone. Another
    /// build may have removed it between its opening and its lock, and made a new one at the path: that stays, and so does one that cannot
    /// be removed.
    fn remove(&self, path: &str, file: &File) {
        let rt = self.sight.rt;
        if is_at(rt, path, file) {
            let _ = fs::remove_file(rt, path);
        }
    }

    fn cleared(self) -> Cleared {
        if self.is_own {
            Cleared::Own
        } else if self.held.is_empty() {
            Cleared::All
        } else {
            Cleared::But(self.held)
        }
    }
}
