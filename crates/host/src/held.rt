//! Openings of files under a lock, by which builds know of one another.
//!
//! A lock is one of a whole file, and of the opening for which it was taken: it ends with that, also where a program is killed. No call here
//! waits for one: it is asked for, and asked for again after a rest. Any answer but that another has it means that there are no locks here,
//! and then nobody is known of.

ghost use Rattle.std.specs.Prelude.{◌≡◌, true, false};
ghost use Rattle.std.specs.Fs.{asks_append, asks_truncate};

use crate::disk::{appending, unless_absent};
use locks::{Identity, is_at};
use std::fs::{File, Metadata, OpenOptions, TryLockError};
use std::io::ErrorKind;
use std::os::unix::fs::MetadataExt;
use std::time::Duration;
use std::{fs, io, thread};

/// The longest rest between two looks at a lock that another has, in milliseconds.
const LONGEST_REST: u64 = 50;

/// So many looks take ten seconds.
pub const MOST_LOOKS: u64 = 225;

/// So many looks take half a second.
pub const FEW_LOOKS: u64 = 32;

/// What came of asking for a lock that others may have too.
#[derive(Clone, Copy, PartialEq, Eq)]
pub enum Lock {
    /// Nobody has the file for itself while this is held.
    Shared,
    /// Another has the file for itself.
    Refused,
    /// There are no locks here.
    Missing,
}

/// An opening of a file, asked for the lock that others may have too.
#[derive(Drop)]
pub struct Held {
    pub file: File,
    pub metadata: Metadata,
    pub lock: Lock,
}

/// What came of asking for a lock that nobody else has.
#[derive(Drop)]
pub enum Alone {
    /// Nobody else has a lock while this is open.
    Yes(File),
    /// Others have a lock.
    No,
    /// There are no locks here.
    Missing,
}

/// Rests after so many looks before, each time a little longer.
pub fn rest(rt: &HostRuntime, looks: u64) {
    let rest = looks.saturating_add(1).min(LONGEST_REST);
    thread::sleep(rt, Duration::from_millis(rest));
}

/// Opens the file at the path for reading, and takes the lock that others may have too. While another has the file for itself it waits for
/// so many looks, then it answers the opening without a lock. It fails as opening does.
pub fn open_held(rt: &HostRuntime, path: &str, looks: u64) -> io::Result<Held> {
    for look in 0..looks {
        let held = open_asked(rt, path)?;
        if held.is_settled(rt, path) {
            return Ok(held);
        }
        rest(rt, look);
    }
    open_asked(rt, path)
}

fn open_asked(rt: &HostRuntime, path: &str) -> io::Result<Held> {
    let file = File::open(rt, path)?;
    let lock = ask_shared(&file);
    let metadata = file.metadata()?;
    Ok(Held {
        file,
        metadata,
        lock,
    })
}

/// Asks for the lock of an open file that others may have too.
pub fn ask_shared(file: &File) -> Lock {
    match file.try_lock_shared() {
        Ok(()) => Lock::Shared,
        Err(TryLockError::WouldBlock) => Lock::Refused,
        Err(TryLockError::Error(_)) => Lock::Missing,
    }
}

impl Held {
    /// Whether no other look would give more: a file that was replaced before it was locked is not the one at the path any more.
    fn is_settled(&self, rt: &HostRuntime, path: &str) -> bool {
        match self.lock {
            Lock::Shared => has_name(rt, path, &self.metadata),
            Lock::Refused => false,
            Lock::Missing => true,
        }
    }
}

/// Whether the file has a name. Where none is counted, as on file systems that count none, it is looked for at the path.
fn has_name(rt: &HostRuntime, path: &str, metadata: &Metadata) -> bool {
    metadata.nlink() > 0 || Identity::at(rt, path) == Some(Identity::of(metadata))
}

/// Locks the file at the path, so that no other opening has a lock of it, where that is done at once. It fails as opening does.
pub fn lock_alone(rt: &HostRuntime, path: &str) -> io::Result<Alone> {
    let file = reading_and_appending().open(rt, path)?;
    Ok(alone_with(rt, path, file))
}

/// Locks the file of this opening in the same way. Where the path leads to another file by then, others were at work.
fn alone_with(rt: &HostRuntime, path: &str, file: File) -> Alone {
    match file.try_lock() {
        Ok(()) => {
            if is_at(rt, path, &file) {
                Alone::Yes(file)
            } else {
                Alone::No
            }
        }
        Err(TryLockError::WouldBlock) => Alone::No,
        Err(TryLockError::Error(_)) => Alone::Missing,
    }
}

/// A new and empty file at the path, which is this program's alone as long as the opening is there: another that wants to make it waits
/// for so many looks. What was left there is removed, and not written to.
pub fn make_alone(rt: &HostRuntime, path: &str, looks: u64) -> io::Result<File> {
    for look in 0..looks {
        if let Some(file) = try_make_alone(rt, path)? {
            return Ok(file);
        }
        rest(rt, look);
    }
    unless_absent(fs::remove_file(rt, path))?;
    make_new(rt, path)
}

/// The same, if there is nothing at the path. What was left there is removed for the next look.
fn try_make_alone(rt: &HostRuntime, path: &str) -> io::Result<Option<File>> {
    match make_new(rt, path) {
        Ok(file) => Ok(locked_new(rt, path, file)),
        Err(error) => match error.kind() {
            ErrorKind::AlreadyExists => {
                remove_left(rt, path)?;
                Ok(None)
            }
            _ => Err(error),
        },
    }
}

/// The new file, unless another took it for one that was left, and removed it.
fn locked_new(rt: &HostRuntime, path: &str, file: File) -> Option<File> {
    match file.try_lock() {
        Ok(()) => {
            if is_at(rt, path, &file) {
                Some(file)
            } else {
                None
            }
        }
        Err(TryLockError::WouldBlock) => None,
        Err(TryLockError::Error(_)) => Some(file),
    }
}

/// Removes a file that another program left, unless one has it for itself.
fn remove_left(rt: &HostRuntime, path: &str) -> io::Result<()> {
    let found = lock_alone(rt, path);
    if is_in_use(&found) {
        return Ok(());
    }
    unless_absent(fs::remove_file(rt, path))?;
    Ok(())
}

/// Whether a file was found that another has for itself, or is gone by now.
fn is_in_use(found: &io::Result<Alone>) -> bool {
    match found {
        Ok(alone) => matches!(alone, Alone::No),
        Err(error) => error.kind() == ErrorKind::NotFound,
    }
}

fn make_new(rt: &HostRuntime, path: &str) -> io::Result<File> {
    let mut how = appending();
    how.create_new(true).open(rt, path)
}

/// How a file is opened that is locked: where it may be written to, each file system that has locks gives each of them. What it holds stays.
fn reading_and_appending() -> OpenOptions
    ensures append { asks_append result ≡ true }
    ensures kept { asks_truncate result ≡ false }
{
    let mut how = OpenOptions::new();
    how.read(true).append(true);
    how
}
