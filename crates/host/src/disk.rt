//! Real files, as a site needs them.

ghost use Rattle.std.specs.Prelude.{◌≡◌, ◌<◌, true, false, IsTrue, OnOk};
ghost use Rattle.text.specs.Handed.{TakesMore};
ghost use Rattle.std.specs.Fs.{asks_append, asks_truncate};

use crate::clock::Touches;
use crate::content::{content_of, hand_content};
use crate::held::rest;
use crate::logs::{Logs, is_log, unless_lost};
use locks::Identity;
use std::alloc::{AllocError, Global};
use std::fs::{File, Metadata, OpenOptions};
use std::io::{ErrorKind, Write};
use std::os::unix::fs::{FileExt, MetadataExt};
use std::time::{Duration, Instant};
use std::{fs, io, thread};
use text::{Bytes, Takes};

/// How many files that are appended to are kept open.
const MOST_KEPT: usize = 4;

const NANOS: u64 = 1_000_000_000;

/// How long a rest is between two touches of a file whose clock does not go on, in milliseconds.
const REST: u64 = 4;

/// So many rests are at most three seconds.
const MOST_RESTS: u64 = 700;

/// For so many milliseconds a log counts as seen at its path, while no other build may replace it.
const SEEN: u128 = 10;

/// How often it is tried to make a file anew, where others do the same.
const TRIES: u32 = 20;

/// The files of the system. Those that get stamps and those that are appended to are kept open, and so is the build log that was read.
#[derive(Drop)]
pub struct Disk<'a> {
    rt: &'a HostRuntime,
    alloc: Global,
    /// The file of the last tick.
    tick: Option<Kept>,
    /// Files that were appended to, the last one opened at the end.
    appended: Vec<Appended>,
    logs: Logs<'a>,
}

/// What stands at a path.
#[derive(Clone, Copy)]
pub struct Standing {
    /// When it was written last, in nanoseconds since 1970.
    pub stamp: u64,
    /// How many bytes the file holds; nothing of a folder.
    pub size: Option<u64>,
    /// When it was put there or changed last, in the same way. That cannot be set back.
    pub placed: u64,
}

/// A file that was read: what it holds, and what stands there.
#[derive(Drop)]
pub struct Found {
    pub content: Bytes,
    pub standing: Standing,
}

/// A file that is kept open.
#[derive(Drop)]
struct Kept {
    path: String,
    file: File,
}

/// A file that is kept open to be appended to, and which one it is.
#[derive(Drop)]
struct Appended {
    kept: Kept,
    identity: Identity,
    /// When it was seen at its path, where it is a log that no other build may replace.
    seen: Option<Instant>,
}

impl<'a> Disk<'a> {
    /// No file is open. This takes no memory.
    pub fn new(alloc: Global, rt: &'a HostRuntime) -> Disk<'a> {
        Disk {
            rt,
            alloc,
            tick: None,
            appended: Vec::new(alloc),
            logs: Logs::new(alloc, rt),
        }
    }

    /// What the file at the path holds, or nothing where there is no file.
    ///
    /// A build log, whose path ends in `.nj_log`, is locked before, together with other builds that read it or put records behind it, and
    /// is so from then on. It is waited for while another build replaces it, for ten seconds at most.
    pub fn read(&mut self, path: &str) -> io::Result<Option<Bytes>> {
        if is_log(path) {
            return self.read_log(path);
        }
        match unless_absent(self.found(path))? {
            Some(found) => Ok(Some(found.content)),
            None => Ok(None),
        }
    }

    /// Hands what the file at the path holds to the taker, piece by piece, and nothing where there is no file. The lock of a build log is as
    /// with `read`.
    pub fn read_into<T: Takes>(&mut self, path: &str, taker: &mut T) -> io::Result<()>
        ensures { OnOk result (TakesMore T.Took taker.old taker.new) }
    {
        if is_log(path) {
            self.logs.read_into(path, taker)?;
            return Ok(());
        }
        let Some(file) = unless_absent(File::open(self.rt, path))? else {
            return Ok(());
        };
        hand_content(self.alloc, &file, taker)?;
        Ok(())
    }

    /// The same as `read`, and what stands there, by one look at the file that is read. A log is looked at by its path, once it was read.
    pub fn read_found(&mut self, path: &str) -> io::Result<Option<Found>> {
        if !is_log(path) {
            return unless_absent(self.found(path));
        }
        let Some(content) = self.read_log(path)? else {
            return Ok(None);
        };
        match self.measure(path)? {
            Some(standing) => Ok(Some(Found { content, standing })),
            None => Ok(None),
        }
    }

    fn read_log(&mut self, path: &str) -> io::Result<Option<Bytes>> {
        match unless_absent(self.logs.read(path))? {
            Some(content) => Ok(Some(Bytes::from_vec(content))),
            None => Ok(None),
        }
    }

    /// What the file at the path holds, and what stood there when it was opened.
    fn found(&self, path: &str) -> io::Result<Found> {
        let file = File::open(self.rt, path)?;
        let metadata = file.metadata()?;
        let content = content_of(self.alloc, &file, metadata.len())?;
        Ok(Found {
            content: Bytes::from_vec(content),
            standing: standing_of(&metadata),
        })
    }

    /// The stamp of the file at the path, or nothing where there is no file, as at a path that no file can have. A depfile may
    /// list such a path, and were it a fault, each later build would end with it.
    pub fn stamp(&self, path: &str) -> io::Result<Option<u64>> {
        let found = fs::metadata(self.rt, path);
        if is_no_name(&found) {
            return Ok(None);
        }
        match unless_absent(found)? {
            Some(metadata) => Ok(Some(stamp_of(&metadata))),
            None => Ok(None),
        }
    }

    /// What stands at the path, in one look, or nothing where nothing stands there.
    #[inline(always)]
    pub fn measure(&self, path: &str) -> io::Result<Option<Standing>> {
        let found = fs::metadata(self.rt, path);
        if is_no_name(&found) {
            return Ok(None);
        }
        match unless_absent(found)? {
            Some(metadata) => Ok(Some(standing_of(&metadata))),
            None => Ok(None),
        }
    }

    /// Touches the file at the path twice, and answers both stamps: the first is no earlier than that of any file that was
    /// written before, the second no later than that of any that is written after, as long as the clock does not fall. The file
    /// holds one byte, or the same bytes but for the first. At the first tick it is made anew.
    ///
    /// A file is touched by a write to it, since a time that is set is not in line with those of writes. One touch often has
    /// the time of the write before it or after it; so there are two.
    pub fn tick(&mut self, path: &str) -> io::Result<Touches> {
        let kept = match self.tick.take() {
            Some(kept) if kept.path.as_str() == path => kept,
            _ => Kept {
                path: String::from_str(self.alloc, path)?,
                file: self.new_file(path, &mut writing())?,
            },
        };
        let first = touch(&kept.file)?;
        let second = touch(&kept.file)?;
        self.tick = Some(kept);
        Ok(Touches { first, second })
    }

    /// Touches the file of the last tick, with rests, until it gets a later stamp than this, and answers whether it came to that:
    /// not, where the clock does not go on for three seconds, or where the file cannot be touched.
    pub fn wait_past(&self, stamp: u64) -> bool {
        let Some(kept) = &self.tick else {
            return false;
        };
        for _ in 0..MOST_RESTS {
            match touch(&kept.file) {
                Ok(touched) if touched > stamp => return true,
                Ok(_) => thread::sleep(self.rt, Duration::from_millis(REST)),
                Err(_) => return false,
            }
        }
        false
    }

    /// Puts the bytes behind what the file at the path holds. Where it fails, a beginning of them may stand there. A file that was put in
    /// its place since the last time is seen, by one look at the path: at once, or within ten milliseconds where it is a log whose lock keeps
    /// other builds from that. Where its folder was removed, the notes are lost, which is no error.
    pub fn append(&mut self, path: &str, bytes: &[u8]) -> io::Result<()> {
        let Some(mut appended) = unless_lost(path, self.open_appended(path))? else {
            return Ok(());
        };
        if self.appended.len() >= MOST_KEPT {
            self.appended.clear();
        }
        self.appended.reserve(1)?;
        appended.kept.file.write_all(bytes)?;
        self.appended.push(appended).map_err(AllocError::from)?;
        self.logs.grow(path, bytes.len());
        Ok(())
    }

    /// The file at the path, as it was opened the last time, unless the path leads to another one now.
    fn open_appended(&mut self, path: &str) -> io::Result<Appended> {
        if let Some(appended) = self.take_appended(path) {
            let now = Instant::now(self.rt).ok();
            if self.logs.are_guarded() && appended.is_seen(now) {
                return Ok(appended);
            }
            if !is_elsewhere(self.rt, path, appended.identity) {
                return Ok(appended.looked_for(now));
            }
            if is_log(path) {
                self.look_again();
                self.logs.hold(path)?;
            }
        }
        open_appended(self.alloc, self.rt, path)
    }

    /// No file that is appended to counts as seen at its path: another build may replace a log now.
    fn look_again(&mut self) {
        for appended in &mut self.appended {
            appended.seen = None;
        }
    }

    /// Puts the content in the place of what the file at the path holds, whole or not at all: it is written under the path
    /// with `.new` behind it, and gets its name then.
    ///
    /// A log, whose path ends in `.nj_log` or `.nj_deps`, may stay as it is instead, which is no error: where it is one behind which lines may
    /// be put, since it begins with the first line of the content and ends with the end of a line, it is only replaced if no other build
    /// has it open, and it is the file that was read, with nothing behind it since but what this site put there. Behind a log that stays, a
    /// line tells what it tells behind the content, and what others put there stays. Of one that is torn behind what others put there, the
    /// whole lines stay. Where the file system has no locks, a log is replaced.
    pub fn replace(&mut self, path: &str, content: &[u8]) -> io::Result<()> {
        self.close(path);
        if is_log(path) {
            self.look_again();
            return self.logs.replace(path, content);
        }
        let new = format!(in self.alloc; "{path}.new")?;
        let mut file = self.new_file(new.as_str(), &mut writing())?;
        file.write_all(content)?;
        drop(file);
        fs::rename(self.rt, new.as_str(), path)
    }

    /// Writes a new file at the path: a link that stands there is removed, and not followed. Where it fails, the file may hold anything.
    pub fn write(&mut self, path: &str, content: &[u8]) -> io::Result<()> {
        let mut file = self.new_file(path, &mut writing())?;
        file.write_all(content)
    }

    /// Deletes the file at the path, if it is there.
    pub fn remove(&mut self, path: &str) -> io::Result<()> {
        self.close(path);
        unless_absent(fs::remove_file(self.rt, path))?;
        Ok(())
    }

    /// Makes the folder and those above it, where they are absent.
    pub fn make_dirs(&self, path: &str) -> io::Result<()> {
        if is_folder(self.rt, path) {
            return Ok(());
        }
        fs::create_dir_all(self.rt, path)
    }

    /// The folder of the file of the last tick, if it is named.
    pub fn folder(&self) -> Option<&str> {
        let (folder, _) = self.tick.as_ref()?.path.as_str().rsplit_once('/')?;
        Some(folder)
    }

    /// The file at the path, opened for reading.
    pub fn open(&self, path: &str) -> io::Result<File> {
        File::open(self.rt, path)
    }

    /// The file at the path, opened to append to it.
    pub fn open_to_append(&self, path: &str) -> io::Result<File> {
        let mut how = OpenOptions::new();
        how.append(true);
        how.open(self.rt, path)
    }

    /// Rests after so many tries before, each time a little longer.
    pub fn rest(&self, tries: u64) {
        rest(self.rt, tries);
    }

    /// The system whose files they are.
    pub fn runtime(&self) -> &'a HostRuntime {
        self.rt
    }

    /// Whether there is something at the path but an empty file that can be read: a link, for example.
    pub fn has_other(&self, path: &str) -> bool {
        match fs::symlink_metadata(self.rt, path) {
            Ok(metadata) => !is_empty_file(&metadata) || unless_absent(self.open(path)).is_err(),
            Err(_) => false,
        }
    }

    /// A new and empty file at the path, or nothing where something stands there.
    pub fn make_new(&self, path: &str, how: &mut OpenOptions) -> io::Result<Option<File>> {
        how.create_new(true);
        match how.open(self.rt, path) {
            Ok(file) => Ok(Some(file)),
            Err(error) => match error.kind() {
                ErrorKind::AlreadyExists => Ok(None),
                _ => Err(error),
            },
        }
    }

    /// A new and empty file at the path. What stood there is removed and not written to, since it may be a link to a file of
    /// somebody else. Where there is something again right after that, another build may just have made it: it is tried a few times, and
    /// then refused.
    pub fn new_file(&mut self, path: &str, how: &mut OpenOptions) -> io::Result<File> {
        how.create_new(true);
        for _ in 0..TRIES {
            self.remove(path)?;
            let made = how.open(self.rt, path);
            if !is_taken(&made) {
                return made;
            }
        }
        self.remove(path)?;
        how.open(self.rt, path)
    }

    /// Closes the file at the path, where it is open, as it is about to be another file.
    fn close(&mut self, path: &str) {
        let _ = self.take_appended(path);
    }

    fn take_appended(&mut self, path: &str) -> Option<Appended> {
        let place = self
            .appended
            .iter()
            .position(|appended| appended.kept.path.as_str() == path)?;
        Some(self.appended.remove(place))
    }
}

impl Appended {
    /// It was seen at its path.
    fn looked_for(self, now: Option<Instant>) -> Appended {
        let Appended { kept, identity, .. } = self;
        let seen = if is_log(kept.path.as_str()) {
            now
        } else {
            None
        };
        Appended {
            kept,
            identity,
            seen,
        }
    }

    /// Whether it counts as seen at its path.
    fn is_seen(&self, now: Option<Instant>) -> bool {
        match (self.seen, now) {
            (Some(seen), Some(now)) => is_recent(now.duration_since(seen).as_millis()),
            _ => false,
        }
    }
}

/// Whether a look that was so many milliseconds ago counts.
fn is_recent(elapsed: u128) -> bool
    ensures { IsTrue result → elapsed < 10 }
{
    elapsed < SEEN
}

fn is_empty_file(metadata: &Metadata) -> bool {
    metadata.is_file() && metadata.len() == 0
}

/// Whether a file was not made since there is something at its path.
fn is_taken(made: &io::Result<File>) -> bool {
    match made {
        Ok(_) => false,
        Err(error) => error.kind() == ErrorKind::AlreadyExists,
    }
}

/// How a file is opened that is only written to.
pub fn writing() -> OpenOptions {
    let mut how = OpenOptions::new();
    how.write(true);
    how
}

/// How a file is opened that is appended to: what it holds stays.
pub fn appending() -> OpenOptions
    ensures append { asks_append result ≡ true }
    ensures kept { asks_truncate result ≡ false }
{
    let mut how = OpenOptions::new();
    how.append(true).create(true);
    how
}

/// Opens the file at the path to be appended to. One that is absent is made.
fn open_appended(alloc: Global, rt: &HostRuntime, path: &str) -> io::Result<Appended> {
    let file = appending().open(rt, path)?;
    let identity = Identity::of(&file.metadata()?);
    let path = String::from_str(alloc, path)?;
    Ok(Appended {
        kept: Kept { path, file },
        identity,
        seen: None,
    })
}

/// Whether the path leads to another file than this one. Where it leads to none, the file was deleted, and what is put behind it is lost,
/// as the file is.
fn is_elsewhere(rt: &HostRuntime, path: &str, identity: Identity) -> bool {
    match Identity::at(rt, path) {
        Some(now) => now != identity,
        None => false,
    }
}

/// Whether a folder is there. Most are: to ask costs less than to be refused.
fn is_folder(rt: &HostRuntime, path: &str) -> bool {
    match fs::metadata(rt, path) {
        Ok(found) => found.is_dir(),
        Err(_) => false,
    }
}

/// Writes one byte in place, and answers the stamp of that.
fn touch(file: &File) -> io::Result<u64> {
    file.write_all_at(b".", 0)?;
    Ok(stamp_of(&file.metadata()?))
}

fn standing_of(metadata: &Metadata) -> Standing {
    Standing {
        stamp: stamp_of(metadata),
        size: size_of(metadata),
        placed: nanos_of(metadata.ctime(), metadata.ctime_nsec()),
    }
}

/// When a file was written last, in nanoseconds since 1970: 0 where that lies before, and the greatest number where it lies
/// past that.
fn stamp_of(metadata: &Metadata) -> u64 {
    nanos_of(metadata.mtime(), metadata.mtime_nsec())
}

/// So many seconds and nanoseconds in nanoseconds: 0 where that lies before 1970, and the greatest number where it lies past that.
fn nanos_of(seconds: i64, nanos: i64) -> u64 {
    let Ok(seconds) = u64::try_from(seconds) else {
        return 0;
    };
    let nanos = u64::try_from(nanos).unwrap_or(0);
    seconds.saturating_mul(NANOS).saturating_add(nanos)
}

/// How many bytes a file holds; nothing for a folder.
fn size_of(metadata: &Metadata) -> Option<u64> {
    if metadata.is_dir() {
        None
    } else {
        Some(metadata.len())
    }
}

/// Whether no file can have the path that was asked for: it has a NUL, or a part of it is too long.
fn is_no_name(found: &io::Result<Metadata>) -> bool {
    match found {
        Ok(_) => false,
        Err(error) => is_of_a_name(error.kind()),
    }
}

fn is_of_a_name(kind: ErrorKind) -> bool {
    matches!(kind, ErrorKind::InvalidInput | ErrorKind::InvalidFilename)
}

/// What was found, or nothing where there is no such file.
pub fn unless_absent<T>(found: io::Result<T>) -> io::Result<Option<T>> {
    match found {
        Ok(found) => Ok(Some(found)),
        Err(error) => match error.kind() {
            ErrorKind::NotFound | ErrorKind::NotADirectory => Ok(None),
            _ => Err(error),
        },
    }
}
