//! What /proc tells of processes and of what they have open. Processes end while one looks, and much is hidden: what cannot be read
//! counts as not found.

use crate::asked::HERE;
use crate::identity::Identity;
use crate::lines::Holders;
use crate::lists::{FileNumber, Lock, device_of, field, is_builder, lock_in, lock_of};
use crate::names::{TRACE, is_left, name_told};
use std::alloc::Global;
use std::fs::{DirEntry, File, ReadDir};
use std::os::fd::AsRawFd;
use std::os::unix::fs::MetadataExt;
use std::{fs, str};

/// So many parents are looked at.
const MOST_PARENTS: usize = 4096;

/// Whether a process has a file open with a lock on it.
#[derive(Clone, Copy, PartialEq, Eq)]
enum Holds {
    Yes,
    No,
    /// What it has open cannot be read: it belongs to somebody else, or has ended.
    Hidden,
}

/// What this program sees of processes.
#[derive(Clone, Copy)]
pub struct Sight<'a> {
    pub alloc: Global,
    pub rt: &'a HostRuntime,
}

impl<'a> Sight<'a> {
    /// What a file of /proc holds.
    fn read(&self, path: &str) -> Option<Vec<u8>> {
        fs::read(self.rt, path).ok()
    }

    /// Which file the path leads to.
    fn identity(&self, path: &str) -> Option<Identity> {
        Identity::at(self.rt, path)
    }

    /// The program's own process.
    fn itself(&self) -> Option<u32> {
        let number = fs::read_link(self.rt, "/proc/self").ok()?;
        number.as_path().as_str().parse::<u32>().ok()
    }

    /// What /proc says of the state of a process.
    fn status(&self, process: u32) -> Option<Vec<u8>> {
        let path = format!(in self.alloc; "/proc/{process}/status").ok()?;
        self.read(path.as_str())
    }

    /// The process that has started this one, or that has taken it over.
    fn parent(&self, process: u32) -> Option<u32> {
        let status = self.status(process)?;
        let parent = field(status.as_slice(), "PPid:")?.parse::<u32>().ok()?;
        (parent > 0).then_some(parent)
    }

    /// Whether the process is there.
    fn is_there(&self, process: u32) -> bool {
        match format!(in self.alloc; "/proc/{process}") {
            Ok(path) => fs::metadata(self.rt, path.as_str()).is_ok(),
            Err(_) => false,
        }
    }

    /// Whether it is a build.
    fn makes_builds(&self, process: u32) -> bool {
        let Some(status) = self.status(process) else {
            return false;
        };
        match field(status.as_slice(), "Name:") {
            Some(name) => is_builder(name),
            None => false,
        }
    }

    /// Whether it is a build with this working folder. A working folder that cannot be read counts as this one.
    fn is_builder_in(&self, process: u32, folder: Identity) -> bool {
        if !self.makes_builds(process) {
            return false;
        }
        match format!(in self.alloc; "/proc/{process}/cwd") {
            Ok(path) => match self.identity(path.as_str()) {
                Some(found) => found == folder,
                None => true,
            },
            Err(_) => true,
        }
    }

    /// Whether it is one that builds itself: it has not handed its words on to a program below a tracer, for which it waits.
    fn builds_in(&self, process: u32, folder: Identity) -> bool {
        self.is_builder_in(process, folder) && !self.hands_on(process)
    }

    /// Whether the process has the trace of an audit in this folder locked.
    fn hands_on(&self, process: u32) -> bool {
        match self.identity(TRACE) {
            Some(trace) => self.holds(process, trace) == Holds::Yes,
            None => false,
        }
    }

    /// What a process has open.
    fn openings(&self, process: u32) -> Option<ReadDir> {
        let folder = format!(in self.alloc; "/proc/{process}/fd").ok()?;
        fs::read_dir(self.rt, folder.as_str()).ok()
    }

    /// Whether the process has the file open with a lock of a whole file.
    fn holds(&self, process: u32, file: Identity) -> Holds {
        let Some(openings) = self.openings(process) else {
            return Holds::Hidden;
        };
        let mut answer = Holds::No;
        for opening in openings {
            if let Ok(opening) = opening {
                match self.identity(opening.path().as_str()) {
                    Some(found) if found != file => {}
                    Some(_) if self.is_locked(process, opening.file_name()) => return Holds::Yes,
                    Some(_) => {}
                    None => answer = Holds::Hidden,
                }
            }
        }
        answer
    }

    /// Whether the process has a file open, with a lock, by which commands are known of a build whose logs are in this folder, or which
    /// works in it and has taken the lock.
    fn is_command_in(&self, process: u32, folder: Identity) -> bool {
        let Some(openings) = self.openings(process) else {
            return false;
        };
        for opening in openings {
            if let Ok(opening) = opening {
                if self.is_of_command(process, &opening, folder) {
                    return true;
                }
            }
        }
        false
    }

    /// Whether this opening of the process is of such a file.
    fn is_of_command(&self, process: u32, opening: &DirEntry, folder: Identity) -> bool {
        let Ok(path) = fs::read_link(self.rt, opening.path()) else {
            return false;
        };
        let path = path.as_path().as_str();
        let Some((place, name)) = path.rsplit_once('/') else {
            return false;
        };
        if !is_left(name_told(name)) {
            return false;
        }
        let Some(lock) = self.lock(process, opening.file_name()) else {
            return false;
        };
        if let Some(taker) = lock.process {
            if self.is_builder_in(taker, folder) {
                return true;
            }
        }
        self.identity(place) == Some(folder)
            && self.identity(path) == self.identity(opening.path().as_str())
    }

    /// The lock of a whole file that an opening of a process has.
    fn lock(&self, process: u32, opening: &str) -> Option<Lock> {
        let path = format!(in self.alloc; "/proc/{process}/fdinfo/{opening}").ok()?;
        let told = self.read(path.as_str())?;
        lock_in(told.as_slice())
    }

    fn is_locked(&self, process: u32, opening: &str) -> bool {
        self.lock(process, opening).is_some()
    }

    /// Whether the process is seen to have one of the files open with a lock of a whole file.
    fn holds_any(&self, process: u32, files: &[Identity]) -> bool {
        if files.is_empty() {
            return false;
        }
        let Some(openings) = self.openings(process) else {
            return false;
        };
        for opening in openings {
            if let Ok(opening) = opening {
                if self.is_any(&opening, files) && self.is_locked(process, opening.file_name()) {
                    return true;
                }
            }
        }
        false
    }

    /// Whether the opening is of one of the files.
    fn is_any(&self, opening: &DirEntry, files: &[Identity]) -> bool {
        match self.identity(opening.path().as_str()) {
            Some(found) => files.contains(&found),
            None => false,
        }
    }

    /// The processes that are seen to have one of the files open with a lock on it. This looks at each process that there is.
    pub fn holders(&self, files: &[Identity]) -> Holders {
        let mut holders = Holders {
            first: None,
            more: 0,
        };
        let Ok(entries) = fs::read_dir(self.rt, "/proc") else {
            return holders;
        };
        for entry in entries {
            if let Ok(entry) = entry {
                if let Ok(process) = entry.file_name().parse::<u32>() {
                    if self.holds_any(process, files) {
                        holders.add(process);
                    }
                }
            }
        }
        holders
    }

    /// How the lists of locks name an open file.
    fn number(&self, file: &File) -> Option<FileNumber> {
        let opening = file.as_raw_fd();
        let inode = file.metadata().ok()?.ino();
        let path = format!(in self.alloc; "/proc/self/fdinfo/{opening}").ok()?;
        let told = self.read(path.as_str())?;
        let mounts = self.read("/proc/self/mountinfo")?;
        let mount = field(told.as_slice(), "mnt_id:")?;
        let (major, minor) = device_of(mounts.as_slice(), mount)?;
        Some(FileNumber {
            major,
            minor,
            inode,
        })
    }

    /// A process that has the file open with a lock on it, or that took the lock and does not let one see what it has open.
    pub fn holder(&self, file: &File) -> Option<u32> {
        let identity = Identity::of_file(file)?;
        match self.taker(file, identity) {
            Some(process) => Some(process),
            None => self.any_holder(identity),
        }
    }

    /// The process that took the lock, unless it does not have it any more.
    fn taker(&self, file: &File, identity: Identity) -> Option<u32> {
        let number = self.number(file)?;
        let locks = self.read("/proc/locks")?;
        for line in locks.split(|byte| *byte == b'\n') {
            if let Some(process) = process_on(line, number, false) {
                if self.may_have(process, identity) {
                    return Some(process);
                }
            }
        }
        None
    }

    /// Whether the process holds the file, or is there and hides what it holds.
    pub fn may_hold(&self, process: u32, file: &File) -> bool {
        match Identity::of_file(file) {
            Some(identity) => self.may_have(process, identity),
            None => false,
        }
    }

    fn may_have(&self, process: u32, file: Identity) -> bool {
        match self.holds(process, file) {
            Holds::Yes => true,
            Holds::No => false,
            Holds::Hidden => self.is_there(process),
        }
    }

    /// Whether another process has the file open, locked or not, or is a build that hides what it has open. The program itself does not
    /// count, which has it open to ask for the lock.
    pub fn may_use(&self, process: u32, file: &File) -> bool {
        let Some(identity) = Identity::of_file(file) else {
            return false;
        };
        if self.itself() == Some(process) {
            return false;
        }
        match self.openings(process) {
            Some(openings) => self.is_among(openings, identity),
            None => self.makes_builds(process) && !self.has_ended(process),
        }
    }

    /// Whether one of the openings is of the file.
    fn is_among(&self, openings: ReadDir, file: Identity) -> bool {
        for opening in openings {
            if let Ok(opening) = opening {
                if self.identity(opening.path().as_str()) == Some(file) {
                    return true;
                }
            }
        }
        false
    }

    /// Whether the process has ended, and who started it does not know yet.
    fn has_ended(&self, process: u32) -> bool {
        let Some(status) = self.status(process) else {
            return true;
        };
        match field(status.as_slice(), "State:") {
            Some(state) => state.starts_with('Z'),
            None => false,
        }
    }

    /// The first of all processes that is seen to have the file open with a lock on it.
    fn any_holder(&self, file: Identity) -> Option<u32> {
        for entry in fs::read_dir(self.rt, "/proc").ok()? {
            if let Ok(process) = entry.ok()?.file_name().parse::<u32>() {
                if self.holds(process, file) == Holds::Yes {
                    return Some(process);
                }
            }
        }
        None
    }

    /// A process that waits for the lock of the file in a call that blocks, and that a command of this program began: it is below this
    /// program, or it or one above it has one of these other files open with a lock.
    pub fn waiting(&self, file: &File, held: &[Identity]) -> Option<u32> {
        let number = self.number(file)?;
        let itself = self.itself()?;
        let locks = self.read("/proc/locks")?;
        for line in locks.split(|byte| *byte == b'\n') {
            if let Some(process) = process_on(line, number, true) {
                if self.is_begun(process, itself, held) {
                    return Some(process);
                }
            }
        }
        None
    }

    /// Whether the process is this one, or has one of the files open with a lock, or was started by one of which that is so.
    fn is_begun(&self, process: u32, above: u32, files: &[Identity]) -> bool {
        let mut next = process;
        for _ in 0..MOST_PARENTS {
            if next == above || self.holds_any(next, files) {
                return true;
            }
            match self.parent(next) {
                Some(parent) => next = parent,
                None => return false,
            }
        }
        false
    }

    /// The program's own process and its parents, up to the first that can be seen.
    pub fn lineage(self) -> Lineage<'a> {
        let mut processes = Vec::new(self.alloc);
        let mut next = self.itself();
        for _ in 0..MOST_PARENTS {
            let Some(process) = next else {
                break;
            };
            if processes.push(process).is_err() {
                break;
            }
            next = self.parent(process);
        }
        Lineage {
            sight: self,
            processes,
        }
    }
}

/// The process of a line of the list of locks that has to do with this file: one that took the lock, or one that asks for it.
fn process_on(line: &[u8], number: FileNumber, is_asked: bool) -> Option<u32> {
    let lock: Lock = lock_of(str::from_utf8(line).ok()?)?;
    if lock.file != number || lock.is_asked != is_asked {
        return None;
    }
    lock.process
}

/// A program and its parents, itself first.
#[derive(Drop)]
pub struct Lineage<'a> {
    sight: Sight<'a>,
    processes: Vec<u32>,
}

impl<'a> Lineage<'a> {
    /// Whether the program was started by a build with this working folder: a parent of it is one, or the program has from a parent
    /// a file by which commands of a build here are known. A parent that only waits for it, as it has handed an audit on, is none.
    pub fn has_build_here(&self) -> bool {
        match self.sight.identity(HERE) {
            Some(folder) => self.has_builder_in(folder) || self.has_command_in(folder),
            None => false,
        }
    }

    fn has_builder_in(&self, folder: Identity) -> bool {
        let parents = self.processes.get(1..).unwrap_or(&[]);
        parents
            .iter()
            .any(|process| self.sight.builds_in(*process, folder))
    }

    fn has_command_in(&self, folder: Identity) -> bool {
        self.processes
            .iter()
            .any(|process| self.sight.is_command_in(*process, folder))
    }

    /// Whether the program itself or one of the parents has the file open with a lock on it, or is the one that took the lock and
    /// hides what it has open.
    pub fn holds(&self, file: &File) -> bool {
        match Identity::of_file(file) {
            Some(identity) => self.has_open(identity) || self.has_taken(file, identity),
            None => false,
        }
    }

    fn has_open(&self, file: Identity) -> bool {
        self.processes
            .iter()
            .any(|process| self.sight.holds(*process, file) == Holds::Yes)
    }

    fn has_taken(&self, file: &File, identity: Identity) -> bool {
        match self.sight.taker(file, identity) {
            Some(taker) => self.processes.contains(&taker),
            None => false,
        }
    }
}
