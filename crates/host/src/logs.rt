//! The logs of builds, which several builds may read and put records behind at once.
//!
//! A log is guarded by the lock of the build log in its folder: each build has it together with others from before it reads that log to its
//! end, and only one that has it alone may put another text in the place of a log. So no record goes into a file that is the log no more.
//! Records are put behind each log by one call each, and whoever reads them takes them from any build. Contracts tell nothing of that: of
//! files and locks they do not speak.

ghost use Rattle.std.specs.Prelude.{◌≡◌, ◌<◌, IfSome, OnOk, Some, None, vec_len};
ghost use Rattle.text.specs.Handed.{TakesMore};

use crate::content::{content_of, hand_content};
use crate::disk::unless_absent;
use crate::held::{
    Alone, FEW_LOOKS, Held, Lock, MOST_LOOKS, lock_alone, make_alone, open_held, rest,
};
use locks::Identity;
use std::alloc::{AllocError, Global};
use std::fs::{File, Metadata};
use std::io::Write;
use std::os::unix::fs::FileExt;
use std::{fs, io};
use text::Takes;

/// The last part of the path of a build log.
const LOG: &str = ".nj_log";

/// The last part of the path of a deps log.
const DEPS_LOG: &str = ".nj_deps";

/// The last part of the path of a log of what was seen.
const SEEN_LOG: &str = ".nj_seen";

/// A first line of a log is shorter than this, in bytes.
const LINE: usize = 32;

/// What is known of the logs that were read, and the lock that guards them.
#[derive(Drop)]
pub struct Logs<'a> {
    rt: &'a HostRuntime,
    alloc: Global,
    /// The opening of the build log that has the lock, from when there is such a log.
    guard: Option<File>,
    /// Whether that opening has it: not where there are no locks, or another does not let go.
    is_locked: bool,
    /// Whether another has the build log for itself, and did not let go in ten seconds.
    is_refused: bool,
    read: Vec<Log>,
}

/// A log as it was read, and grew since then by what this program put behind it.
#[derive(Drop)]
struct Log {
    path: String,
    identity: Identity,
    length: u64,
}

/// How the text of a log ends that begins with the first line that is written today.
#[derive(Clone, Copy, PartialEq, Eq)]
enum Ending {
    /// It ends with the end of a line.
    Whole,
    /// It ends within a line.
    Torn,
}

/// What is done with a log that is to be replaced.
#[derive(Drop)]
enum Way {
    /// It stays: what is put behind it is read well.
    Stay,
    /// It is replaced, while this keeps others away, if there is such a lock.
    Replace(Option<File>),
    /// Its whole lines are put in its place, in the same way: others put some there, and it is torn behind them.
    Mend(Option<File>),
}

/// A file that is to get the name of a log, and is this program's alone.
#[derive(Drop)]
struct New {
    path: String,
    file: File,
}

/// Whether a path is that of a log.
pub fn is_log(path: &str) -> bool {
    is_named(path, LOG) || is_named(path, DEPS_LOG) || is_named(path, SEEN_LOG)
}

/// What was opened, or nothing where it is the notes and their folder is not there: a command that removes that folder removes all logs of its
/// build, which are put there no more either.
pub fn unless_lost<T>(path: &str, opened: io::Result<T>) -> io::Result<Option<T>> {
    if is_named(path, SEEN_LOG) {
        unless_absent(opened)
    } else {
        Ok(Some(opened?))
    }
}

/// Whether this is the last part of the path.
fn is_named(path: &str, name: &str) -> bool {
    match path.rsplit_once('/') {
        Some((_, last)) => last == name,
        None => path == name,
    }
}

impl<'a> Logs<'a> {
    /// No log was read. This takes no memory.
    pub fn new(alloc: Global, rt: &'a HostRuntime) -> Logs<'a> {
        Logs {
            rt,
            alloc,
            guard: None,
            is_locked: false,
            is_refused: false,
            read: Vec::new(alloc),
        }
    }

    /// What the log at the path holds. A build log is locked before, together with others, and is so until it is read or replaced again.
    pub fn read(&mut self, path: &str) -> io::Result<Vec<u8>> {
        let held = self.open(path)?;
        let content = content_of(self.alloc, &held.file, held.metadata.len())?;
        self.settle(path, held, content.len() as u64)?;
        Ok(content)
    }

    /// Hands what the log at the path holds to the taker, piece by piece, and nothing where there is none. The lock is as with `read`.
    pub fn read_into<T: Takes>(&mut self, path: &str, taker: &mut T) -> io::Result<()>
        ensures { OnOk result (TakesMore T.Took taker.old taker.new) }
    {
        let Some(held) = unless_absent(self.open(path))? else {
            return Ok(());
        };
        let length = hand_content(self.alloc, &held.file, taker)?;
        self.settle(path, held, length)?;
        Ok(())
    }

    /// Opens the log at the path. A build log is locked, together with others; no other log has a lock.
    fn open(&mut self, path: &str) -> io::Result<Held> {
        self.forget(path);
        if is_named(path, LOG) {
            let looks = self.looks();
            return open_held(self.rt, path, looks);
        }
        let file = File::open(self.rt, path)?;
        let metadata = file.metadata()?;
        Ok(Held {
            file,
            metadata,
            lock: Lock::Missing,
        })
    }

    /// Keeps in mind which file was read, and how long it was, and the lock of a build log. One that is empty is as one that is absent: others
    /// may be about to replace it.
    fn settle(&mut self, path: &str, held: Held, length: u64) -> Result<(), AllocError> {
        if !is_named(path, LOG) {
            return self.keep(path, &held.metadata, length);
        }
        if length == 0 {
            self.guard = None;
            return Ok(());
        }
        self.keep(path, &held.metadata, length)?;
        self.guard_by(held);
        Ok(())
    }

    /// How often it is looked whether another lets go.
    fn looks(&self) -> u64 {
        if self.is_refused { 1 } else { MOST_LOOKS }
    }

    fn guard_by(&mut self, held: Held) {
        let Held { file, lock, .. } = held;
        self.is_locked = lock == Lock::Shared;
        self.is_refused = lock == Lock::Refused;
        self.guard = Some(file);
    }

    /// Whether no other build may put another file in the place of a log, by the lock of the build log.
    pub fn are_guarded(&self) -> bool {
        self.guard.is_some() && self.is_locked
    }

    /// Keeps in mind which file was read, and how long it was.
    fn keep(&mut self, path: &str, metadata: &Metadata, length: u64) -> Result<(), AllocError> {
        let log = Log {
            path: String::from_str(self.alloc, path)?,
            identity: Identity::of(metadata),
            length,
        };
        self.read.push(log).map_err(AllocError::from)
    }

    fn forget(&mut self, path: &str) {
        if let Some(place) = self.place_of(path) {
            let _ = self.read.remove(place);
        }
    }

    /// The place of what is known of the log at this path.
    fn place_of(&self, path: &str) -> Option<usize>
        ensures { IfSome result (λ place. place < vec_len self.now.read) }
    {
        self.read.iter().position(|log| log.path.as_str() == path)
    }

    /// So many bytes were put behind the file at the path.
    pub fn grow(&mut self, path: &str, length: usize) {
        if let Some(place) = self.place_of(path) {
            let log = &mut self.read[place];
            log.length = log.length.saturating_add(length as u64);
        }
    }

    /// Puts the content in the place of what the log at the path holds, whole or not at all, or lets it stay, where it is a log behind which
    /// records may be put, and others have it open or put some there. Of one that is torn behind records of others, the whole lines stay.
    /// What was left of a replacement is removed.
    ///
    /// The content is written under the path with `.new` behind it, and gets its name then. A program that has made that file is the only one
    /// that replaces this log. What the log is, is looked at only then: one that was absent or empty when two builds read it gets one text.
    /// Where its folder was removed, the notes are lost, which is no error.
    pub fn replace(&mut self, path: &str, content: &[u8]) -> io::Result<()> {
        let looks = self.looks();
        self.guard = None;
        if let Some(new) = unless_lost(path, self.make_new(path, looks))? {
            let way = self.way(path, content, looks)?;
            self.go(way, new, path, content)?;
        }
        self.forget(path);
        self.hold(path)
    }

    /// The file that is to get the name of the log at this path.
    fn make_new(&self, path: &str, looks: u64) -> io::Result<New> {
        let path = format!(in self.alloc; "{path}.new")?;
        let file = make_alone(self.rt, path.as_str(), looks)?;
        Ok(New { path, file })
    }

    /// Goes this way with the log at the path. The new file gets its name, or is removed.
    fn go(&self, way: Way, new: New, path: &str, content: &[u8]) -> io::Result<()> {
        match way {
            Way::Stay => new.remove(self.rt),
            Way::Replace(_) => new.put(self.rt, path, content),
            Way::Mend(_) => {
                let lines = whole_lines(self.alloc, self.rt, path)?;
                new.put(self.rt, path, lines.as_slice())
            }
        }
    }

    /// Takes the lock of the build log in the folder of this path, together with others, on what is the log now.
    pub fn hold(&mut self, path: &str) -> io::Result<()> {
        let looks = self.looks();
        self.guard = None;
        let guarding = self.guarding(path)?;
        if let Some(held) = unless_absent(open_held(self.rt, guarding.as_str(), looks))? {
            self.guard_by(held);
        }
        Ok(())
    }

    /// The path of the build log in the folder of this path.
    fn guarding(&self, path: &str) -> Result<String, AllocError> {
        match path.rsplit_once('/') {
            Some((folder, _)) => format!(in self.alloc; "{folder}/{LOG}"),
            None => String::from_str(self.alloc, LOG),
        }
    }

    /// What is done with the log that is to be replaced by the content. One that is torn may be so because another puts a record behind it
    /// just now: it is looked at for half a second.
    fn way(&self, path: &str, content: &[u8], looks: u64) -> Result<Way, AllocError> {
        let guarding = self.guarding(path)?;
        for look in 0..looks.min(FEW_LOOKS) {
            let Some(ending) = ending_at(self.rt, path, content) else {
                return Ok(Way::Replace(None));
            };
            if let Some(way) = self.way_of(path, guarding.as_str(), ending) {
                return Ok(way);
            }
            rest(self.rt, look);
        }
        Ok(Way::Mend(None))
    }

    /// What is done with a log that ends so, if that is known by now.
    fn way_of(&self, path: &str, guarding: &str, ending: Ending) -> Option<Way> {
        match lock_alone(self.rt, guarding) {
            Ok(Alone::Yes(lock)) => Some(self.way_alone(path, ending, lock)),
            Ok(Alone::No) => way_beside(ending),
            Ok(Alone::Missing) => Some(Way::Replace(None)),
            Err(_) => Some(Way::Replace(None)),
        }
    }

    /// What is done with a log that ends so, while nobody else has the lock.
    fn way_alone(&self, path: &str, ending: Ending, lock: File) -> Way {
        if self.is_as_read(path) {
            return Way::Replace(Some(lock));
        }
        match ending {
            Ending::Whole => Way::Stay,
            Ending::Torn => Way::Mend(Some(lock)),
        }
    }

    /// Whether the file at the path is the one that was read, and nobody else put something behind it.
    fn is_as_read(&self, path: &str) -> bool {
        let Some(place) = self.place_of(path) else {
            return false;
        };
        let log = &self.read[place];
        match fs::metadata(self.rt, path) {
            Ok(now) => Identity::of(&now) == log.identity && now.len() == log.length,
            Err(_) => false,
        }
    }
}

/// What is done with a log that ends so, while others have the lock, if that is known by now.
fn way_beside(ending: Ending) -> Option<Way>
    ensures whole { ending ≡ Ending.Whole → result ≡ Some Way.Stay }
    ensures torn { ending ≡ Ending.Torn → result ≡ None }
{
    match ending {
        Ending::Whole => Some(Way::Stay),
        Ending::Torn => None,
    }
}

impl New {
    /// Writes the content, and gives the file this name.
    fn put(self, rt: &HostRuntime, name: &str, content: &[u8]) -> io::Result<()> {
        let New { path, mut file } = self;
        file.write_all(content)?;
        fs::rename(rt, path.as_str(), name)
    }

    fn remove(self, rt: &HostRuntime) -> io::Result<()> {
        unless_absent(fs::remove_file(rt, self.path.as_str()))?;
        Ok(())
    }
}

/// What the file at the path holds up to the end of its last line.
fn whole_lines(alloc: Global, rt: &HostRuntime, path: &str) -> io::Result<Vec<u8>> {
    let file = File::open(rt, path)?;
    let size = file.metadata()?.len();
    let mut lines = content_of(alloc, &file, size)?;
    let end = match lines.iter().rposition(|byte| *byte == b'\n') {
        Some(place) => place.saturating_add(1),
        None => 0,
    };
    lines.truncate(end);
    Ok(lines)
}

/// How the log at the path ends, where it begins with the first line of the content: an absent and an empty one do not.
fn ending_at(rt: &HostRuntime, path: &str, content: &[u8]) -> Option<Ending> {
    let file = File::open(rt, path).ok()?;
    if !begins_as(&file, content) {
        return None;
    }
    if ends_line(&file) {
        Some(Ending::Whole)
    } else {
        Some(Ending::Torn)
    }
}

/// Whether the file begins with the first line of the content.
fn begins_as(file: &File, content: &[u8]) -> bool {
    let Some(place) = content.iter().position(|byte| *byte == b'\n') else {
        return false;
    };
    if place >= LINE {
        return false;
    }
    let mut room = [0u8; LINE];
    file.read_exact_at(&mut room[..=place], 0).is_ok() && room[..=place] == content[..=place]
}

/// Whether the file ends with the end of a line.
fn ends_line(file: &File) -> bool {
    let Ok(metadata) = file.metadata() else {
        return false;
    };
    let Some(place) = metadata.len().checked_sub(1) else {
        return false;
    };
    let mut last = [0u8; 1];
    file.read_exact_at(&mut last, place).is_ok() && last[0] == b'\n'
}
