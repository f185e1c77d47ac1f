//! Asking for a lock, by calls that never wait.

use std::fs;
use std::fs::{File, TryLockError};

/// The working folder.
pub const HERE: &str = ".";

/// The answer to who has a lock on a file.
#[derive(Drop)]
pub enum Asked {
    /// Nobody else: this opening has it, exclusively, until it is closed.
    Free(File),
    /// Another opening. This one has none.
    Held(File),
    /// There are no locks here.
    Lockless(File),
    /// There is no file that can be opened.
    Nothing,
}

/// Opens the working folder and asks for its lock, exclusively.
pub fn ask_folder(rt: &HostRuntime) -> Asked {
    ask(rt, HERE)
}

/// Opens the file and asks for its lock, exclusively. What is no file of its own, as a pipe or a link, is not opened.
pub fn ask_file(rt: &HostRuntime, path: &str) -> Asked {
    if is_file(rt, path) {
        ask(rt, path)
    } else {
        Asked::Nothing
    }
}

/// Whether there is a file at the path, and no link, pipe or folder.
pub fn is_file(rt: &HostRuntime, path: &str) -> bool {
    match fs::symlink_metadata(rt, path) {
        Ok(metadata) => metadata.is_file(),
        Err(_) => false,
    }
}

fn ask(rt: &HostRuntime, path: &str) -> Asked {
    match File::open(rt, path) {
        Ok(file) => ask_again(file),
        Err(_) => Asked::Nothing,
    }
}

/// Asks for the lock of an open file, exclusively.
pub fn ask_again(file: File) -> Asked {
    match file.try_lock() {
        Ok(()) => Asked::Free(file),
        Err(TryLockError::WouldBlock) => Asked::Held(file),
        Err(TryLockError::Error(_)) => Asked::Lockless(file),
    }
}
