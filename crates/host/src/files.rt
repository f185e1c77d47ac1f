//! The files that commands read and print into. They stand beside the logs, and a build removes them once it has taken in its commands: so
//! they are left only where it was killed. What is left is locked as long as a command has it, or a process that got it from there: an
//! exclusive lock on another opening is refused to a later build until then.
//!
//! Builds in several folders may have one folder of logs. Each gives the files for what its commands print names with its process, makes
//! none where something stands, and removes no other; all share one file for commands to read, which the last of them removes, unless
//! another file stands there still: that is of a build that was killed, and it is looked at only where the file to read is there. What
//! another build takes away between two steps is made anew.

ghost use Rattle.std.specs.Prelude.{◌≡◌, ◌↔◌, false, IfOk, IsTrue};
ghost use Rattle.host.specs.Process.{IsAlone, IsLetGo, IsLocked};

use crate::disk::{Disk, unless_absent, writing};
use crate::held::{Lock, ask_shared};
use crate::process::Streams;
use locks::{INPUT, Identity, OUTPUT, Watch as Passed, has_outputs, is_at, mode_at, path_in};
use std::alloc::{AllocError, Global};
use std::fs::{File, OpenOptions, Permissions, TryLockError};
use std::io::{ErrorKind, Read, Seek, SeekFrom};
use std::os::fd::AsRawFd;
use std::os::unix::fs::PermissionsExt;
use std::{fs, io};
use text::Bytes;

/// What commands of an inner build read.
const NULL: &str = "/dev/null";

/// The bit of the mode by which a file for commands to read is marked, as one beside which files of another build may stand: that it may
/// be run, which nobody does.
const MARK: u32 = 0o100;

/// How often the file for commands to read is made anew, where others take it away.
const TRIES: u64 = 20;

/// So many paths for a file to print into are tried, where something stands at each.
const MOST_PATHS: u32 = 10_000;

/// While so many commands print, a further one has its file put aside, and no more are kept for others: each opening that the program has
/// is copied and closed at each start, and a system gives it a thousand.
const MOST_OPEN: usize = 256;

/// The files of a build for its commands.
#[derive(Drop)]
pub struct Files {
    alloc: Global,
    /// Whether it is a build that a command of another build in the same folder began.
    is_inner: bool,
    /// Whether files of an earlier build may stand beside, since it was waited for.
    is_beside_left: bool,
    /// What commands read, from the first of them on.
    input: Option<Input>,
    /// How many files for what commands print got a path.
    outputs: u64,
    /// Files into which earlier commands printed, as good as new.
    unused: Vec<Printed>,
}

/// An empty file that all commands read.
#[derive(Drop)]
struct Input {
    /// Where it stands, unless it is one of the system.
    path: Option<String>,
    /// The opening that each of them gets, and so all hold its lock.
    file: File,
}

/// A file into which commands print, one after another, each both its output and its errors.
#[derive(Drop)]
pub struct Printed {
    path: String,
    /// For reading what was printed, unless it is put aside. A command has an opening of its own.
    file: Option<File>,
    /// Which file it is.
    identity: Option<Identity>,
    hold: Hold,
}

/// Who has the file into which a command prints.
#[derive(Clone, Copy)]
pub enum Hold {
    /// There are no locks here, and it cannot be told.
    Untold,
    /// It is locked until all processes have closed the opening of the last command that have it from there.
    Locked,
    /// No other opening has it locked.
    Alone,
}

/// What a command printed.
#[derive(Drop)]
pub struct Taken {
    pub output: Bytes,
    /// Whether the file is as a new one: it is empty, and no process that the command left behind has it open.
    pub is_unused: bool,
}

/// The answer of a call that makes files, and the path that it was about last.
#[derive(Drop)]
pub struct Made {
    pub path: String,
    pub opened: io::Result<Opened>,
}

/// The files for a command that is to be started.
#[derive(Drop)]
pub struct Opened {
    printed: Printed,
    /// Whether that is put aside once the command is started.
    is_aside: bool,
    /// The opening that it gets for its output and its errors.
    output: File,
    /// That for its input, which all commands share.
    input: i32,
}

/// An opening to print into.
#[derive(Drop)]
struct Output {
    file: File,
    /// Whether it has the lock: not where there are no locks.
    is_locked: bool,
}

impl Files {
    /// No file was made. This takes no memory.
    pub fn new(alloc: Global) -> Files {
        Files {
            alloc,
            is_inner: false,
            is_beside_left: false,
            input: None,
            outputs: 0,
            unused: Vec::new(alloc),
        }
    }

    /// From now on they are those of an inner build.
    pub fn set_inner(&mut self) {
        self.is_inner = true;
    }

    /// From now on files of an earlier build may stand beside, as where it was waited for until somebody removed some.
    pub fn set_beside_left(&mut self) {
        self.is_beside_left = true;
    }

    /// New files for a command that is to be started: to print into, where nothing stood before, and to read, if there is none yet.
    pub fn make(&mut self, disk: &mut Disk<'_>) -> Result<Made, AllocError> {
        if self.input.is_none() {
            let path = self.input_path(disk.folder())?;
            if let Err(reason) = self.make_input(disk, path.as_str()) {
                return Ok(Made {
                    path,
                    opened: Err(reason),
                });
            }
        }
        self.make_output(disk)
    }

    /// The path of the file for commands to read, where their files stand in this folder.
    fn input_path(&self, folder: Option<&str>) -> Result<String, AllocError> {
        if self.is_inner {
            return String::from_str(self.alloc, NULL);
        }
        path_in(self.alloc, folder, INPUT)
    }

    /// Makes the file for commands to read, or finds one that another build has made. Its lock, which not every file system allows, is held
    /// until this program and all commands that have it as their input have let it go. An inner build opens what is there.
    fn make_input(&mut self, disk: &mut Disk<'_>, path: &str) -> io::Result<()> {
        let input = if self.is_inner {
            mark_outer(self.alloc, disk);
            Input {
                path: None,
                file: disk.open(path)?,
            }
        } else {
            let own = String::from_str(self.alloc, path)?;
            let file = input_at(disk, path)?;
            if self.is_beside_left {
                mark(&file);
            }
            Input {
                path: Some(own),
                file,
            }
        };
        self.input = Some(input);
        Ok(())
    }

    /// The files for a command that is to be started, with one to print into that an earlier one left as good as new, if there is such a
    /// one. A command may have removed it, and something else may stand there since.
    pub fn reopen(&mut self, disk: &mut Disk<'_>) -> Option<Opened> {
        let printed = self.unused.pop()?;
        self.opened(disk, printed).ok()?
    }

    /// The files for a command, with a new one to print into: at the first path at which nothing stands, and from which nobody takes it
    /// away before it is locked.
    fn make_output(&mut self, disk: &mut Disk<'_>) -> Result<Made, AllocError> {
        for _ in 0..MOST_PATHS {
            let path = self.output_path(disk.folder())?;
            let tried = self.try_output(disk, path.as_str());
            if let Some(made) = made_at(path, tried) {
                return Ok(made);
            }
        }
        Ok(Made {
            path: self.output_path(disk.folder())?,
            opened: Err(io::Error::from(ErrorKind::AlreadyExists)),
        })
    }

    /// A path for a new file to print into, in this folder, which no other such file of the build had, and no such file of another build
    /// that is at work.
    fn output_path(&mut self, folder: Option<&str>) -> Result<String, AllocError> {
        self.outputs = self.outputs.checked_add(1).ok_or(AllocError)?;
        let number = self.outputs;
        let process = libc::getpid();
        let name = format!(in self.alloc; "{OUTPUT}{process}.{number}")?;
        path_in(self.alloc, folder, name.as_str())
    }

    /// The files for a command, with a new one to print into, or nothing where something stands at the path, or another build has taken
    /// away what was made there.
    fn try_output(&self, disk: &mut Disk<'_>, path: &str) -> io::Result<Option<Opened>> {
        let path = String::from_str(self.alloc, path)?;
        let mut how = OpenOptions::new();
        how.read(true).append(true);
        let Some(file) = disk.make_new(path.as_str(), &mut how)? else {
            return Ok(None);
        };
        let identity = Identity::of_file(&file);
        let printed = Printed {
            path,
            file: Some(file),
            identity,
            hold: Hold::Untold,
        };
        self.opened(disk, printed)
    }

    /// The files for a command, with this one to print into, or nothing where it is not there any more, or another build is looking at it.
    /// It is removed then, as one is that cannot be opened.
    fn opened(&self, disk: &Disk<'_>, mut printed: Printed) -> io::Result<Option<Opened>> {
        match self.openings(disk, &printed) {
            Ok(Some((input, Output { file, is_locked }))) => {
                printed.hold = if is_locked {
                    Hold::Locked
                } else {
                    Hold::Untold
                };
                Ok(Some(Opened {
                    printed,
                    is_aside: false,
                    output: file,
                    input,
                }))
            }
            Ok(None) => {
                printed.remove(disk.runtime());
                Ok(None)
            }
            Err(reason) => {
                printed.remove(disk.runtime());
                Err(reason)
            }
        }
    }

    /// The openings that a command gets which prints into this file, or nothing where it may not have it.
    fn openings(&self, disk: &Disk<'_>, printed: &Printed) -> io::Result<Option<(i32, Output)>> {
        let Some(input) = &self.input else {
            return Err(io::Error::from(ErrorKind::NotFound));
        };
        let Some(file) = unless_absent(disk.open_to_append(printed.path.as_str()))? else {
            return Ok(None);
        };
        if !printed.is_of(&file) {
            return Ok(None);
        }
        match locked(file) {
            Some(output) => Ok(Some((input.file.as_raw_fd(), output))),
            None => Ok(None),
        }
    }

    /// Takes back the files of a command that was not started.
    pub fn take_back(&mut self, rt: &HostRuntime, opened: Option<Opened>) {
        if let Some(Opened { printed, .. }) = opened {
            self.keep(rt, printed);
        }
    }

    /// Keeps the file into which a command printed that has ended, for another one, where it is as good as new: to make a file for each
    /// command is dear where many were removed right before. If not, it is removed.
    pub fn take_in(&mut self, rt: &HostRuntime, printed: Option<Printed>, is_unused: bool) {
        match printed {
            Some(printed) if is_unused => self.keep(rt, printed),
            Some(printed) => printed.remove(rt),
            None => {}
        }
    }

    fn keep(&mut self, rt: &HostRuntime, printed: Printed) {
        if self.unused.len() >= MOST_OPEN {
            printed.remove(rt);
            return;
        }
        match self.unused.reserve(1) {
            Ok(()) => {
                let _ = self.unused.push(printed);
            }
            Err(_) => printed.remove(rt),
        }
    }

    /// Removes the files: those to print into, of commands that have ended, and then that to read, unless commands still run.
    pub fn remove(self, rt: &HostRuntime, some_run: bool) {
        let Files { input, unused, .. } = self;
        for printed in unused {
            printed.remove(rt);
        }
        if some_run {
            return;
        }
        if let Some(input) = input {
            input.remove(rt);
        }
    }
}

/// The file at the path for commands to read. It is tried a few times, with rests, where others take it away; where one has it for itself all
/// that time, it is read without a lock.
fn input_at(disk: &mut Disk<'_>, path: &str) -> io::Result<File> {
    for turn in 0..TRIES {
        if let Some(file) = try_input(disk, path)? {
            return Ok(file);
        }
        disk.rest(turn);
    }
    let file = disk.open(path)?;
    mark(&file);
    Ok(file)
}

/// The same, where it is made or found at once. What stands there and is no such file, as a link, is removed for the next try.
fn try_input(disk: &mut Disk<'_>, path: &str) -> io::Result<Option<File>> {
    let made = disk.make_new(path, &mut writing())?;
    if made.is_none() && disk.has_other(path) {
        disk.remove(path)?;
        return Ok(None);
    }
    let found = locked_input(disk, path)?;
    if let (Some(file), None) = (&found, &made) {
        mark(file);
    }
    Ok(found)
}

/// Marks the file for the outer build's commands to read, where that stands beside the logs of this inner build.
fn mark_outer(alloc: Global, disk: &Disk<'_>) {
    if let Ok(path) = path_in(alloc, disk.folder(), INPUT) {
        let path = path.as_str();
        if !disk.has_other(path) {
            if let Ok(file) = disk.open(path) {
                mark(&file);
            }
        }
    }
}

/// Marks a file for commands to read. One of another user, of which that is not allowed, stays as it is.
fn mark(file: &File) {
    if let Ok(metadata) = file.metadata() {
        if metadata.is_file() {
            let mode = metadata.permissions().mode();
            let _ = file.set_permissions(Permissions::from_mode(mode | MARK));
        }
    }
}

/// The file at the path, locked together with others, or nothing where another build took it away before that, or is about to.
fn locked_input(disk: &Disk<'_>, path: &str) -> io::Result<Option<File>> {
    let Some(file) = unless_absent(disk.open(path))? else {
        return Ok(None);
    };
    let Some(Output { file, .. }) = locked(file) else {
        return Ok(None);
    };
    if is_at(disk.runtime(), path, &file) {
        Ok(Some(file))
    } else {
        Ok(None)
    }
}

/// What came of a try to make a file to print into, if it is the last one.
fn made_at(path: String, tried: io::Result<Option<Opened>>) -> Option<Made> {
    match tried {
        Ok(Some(opened)) => Some(Made {
            path,
            opened: Ok(opened),
        }),
        Ok(None) => None,
        Err(reason) => Some(Made {
            path,
            opened: Err(reason),
        }),
    }
}

/// Locks an opening together with others, which not every file system allows. Where another has the file for itself, it may be about to
/// remove it: then there is none.
fn locked(file: File) -> Option<Output> {
    let lock = ask_shared(&file);
    if lock == Lock::Refused {
        return None;
    }
    let is_locked = lock == Lock::Shared;
    Some(Output { file, is_locked })
}

impl Input {
    /// Removes the file, if it was made for builds and stands there still, and no other build has it, nor a command of one that was killed:
    /// where one has, that is left to it, and processes which commands of this build left behind have the file without a lock from now on.
    /// It stays, too, where one into which a command printed stands beside it, as of a build that was killed: its command may have that
    /// alone. A folder of many files takes long to look through, so that is done only where the file is marked.
    fn remove(self, rt: &HostRuntime) {
        let Input { path, file } = self;
        if let Some(path) = path {
            let path = path.as_str();
            if !is_last(&file) {
                return;
            }
            if let Some(mode) = mode_at(rt, path, &file) {
                if mode & MARK == 0 || !has_outputs(rt, path) {
                    let _ = fs::remove_file(rt, path);
                }
            }
        }
    }
}

/// Whether nobody has a lock of the file but by this opening, which gets it for itself then. Else it has none from now on, as that is what
/// asking for the other lock does.
fn is_last(file: &File) -> bool {
    !matches!(file.try_lock(), Err(TryLockError::WouldBlock))
}

impl Opened {
    /// The descriptors that the command gets.
    pub fn streams(&self) -> Streams {
        let output = self.output.as_raw_fd();
        [self.input, output, output]
    }

    /// They are for a command that is started beside so many others: where many run, the file into which it prints is put aside then, if its
    /// lock tells when it is let go.
    pub fn set_beside(&mut self, running: usize) {
        self.is_aside = running >= MOST_OPEN && self.printed.is_locked();
    }

    /// The file into which the command prints, which is started.
    pub fn into_printed(self) -> Printed {
        let Opened {
            mut printed,
            is_aside,
            ..
        } = self;
        if is_aside {
            printed.put_aside();
        }
        printed
    }
}

impl Printed {
    /// Passes on that the command waits, where it printed that.
    pub fn pass_on(&self, rt: &HostRuntime, passed: &mut Passed) {
        match &self.file {
            Some(file) => passed.pass_on(rt, file),
            None => {
                if let Some(file) = self.open_again(rt) {
                    passed.pass_on(rt, &file);
                }
            }
        }
    }

    /// A new opening of it, if it stands at its path still.
    fn open_again(&self, rt: &HostRuntime) -> Option<File> {
        let mut how = OpenOptions::new();
        how.read(true).append(true);
        let file = how.open(rt, self.path.as_str()).ok()?;
        if self.is_of(&file) { Some(file) } else { None }
    }

    /// Closes it, while its command runs.
    fn put_aside(&mut self) {
        self.file = None;
    }

    /// Takes it up again, where it was put aside.
    fn take_up(&mut self, rt: &HostRuntime) {
        if self.file.is_none() {
            self.file = self.open_again(rt);
        }
    }

    /// Which file it is, if that is known.
    pub fn identity(&self) -> Option<Identity> {
        self.identity
    }

    /// Whether another opening has the file locked, by what was answered last.
    pub fn is_locked(&self) -> bool
        ensures { IsTrue result ↔ IsLocked self.now }
    {
        matches!(self.hold, Hold::Locked)
    }

    /// Whether no other opening has the file locked, where there are locks. While one has, this asks for the whole lock by an opening of the
    /// program's own, which a file has that was removed as well, and gives it back at once. What nobody has is not asked again. Of a file that
    /// was put aside, and was removed, it cannot be told.
    pub fn is_let_go(&mut self, rt: &HostRuntime) -> bool
        ensures free { IsTrue result → IsLetGo self.new }
        ensures held { result ≡ false → IsLocked self.new }
        ensures kept { IsLetGo self.old → self.new ≡ self.old }
    {
        if self.is_locked() {
            self.take_up(rt);
            self.hold = asked_if_any(&self.file);
        }
        !self.is_locked()
    }

    /// What the last command printed so far, and whether the file can be used for another one. Of a file that was put aside, and was removed,
    /// nothing is known.
    pub fn take(&self, alloc: Global) -> io::Result<Taken>
        ensures { IfOk result (λ taken. IsTrue taken.is_unused → IsAlone self.now) }
    {
        let is_alone = matches!(self.hold, Hold::Alone);
        let mut bytes = Vec::new(alloc);
        let Some(file) = &self.file else {
            return Ok(Taken {
                output: Bytes::from_vec(bytes),
                is_unused: false,
            });
        };
        let mut file = file;
        let is_empty = file.seek(SeekFrom::End(0))? == 0;
        if !is_empty {
            file.seek(SeekFrom::Start(0))?;
            file.read_to_end(&mut bytes)?;
        }
        Ok(Taken {
            output: Bytes::from_vec(bytes),
            is_unused: is_alone && is_empty,
        })
    }

    /// Whether the opening is one of this file: not, where a command has put another one in its place, or another build has, which is the
    /// process of the same number in another container.
    fn is_of(&self, file: &File) -> bool {
        Identity::of_file(file) == self.identity
    }

    /// Removes the file, if it stands there still. One that cannot be removed stays, and is removed by a later build.
    pub fn remove(self, rt: &HostRuntime) {
        if Identity::at(rt, self.path.as_str()) == self.identity {
            let _ = fs::remove_file(rt, self.path.as_str());
        }
    }
}

/// Who has the file of this opening, if there is one.
fn asked_if_any(file: &Option<File>) -> Hold {
    match file {
        Some(file) => asked(file),
        None => Hold::Untold,
    }
}

/// Who has the file of this opening: its lock is asked for, for this opening alone, and given back.
fn asked(file: &File) -> Hold {
    match file.try_lock() {
        Ok(()) => given_back(file),
        Err(TryLockError::WouldBlock) => Hold::Locked,
        Err(TryLockError::Error(_)) => Hold::Untold,
    }
}

fn given_back(file: &File) -> Hold {
    match file.unlock() {
        Ok(()) => Hold::Alone,
        Err(_) => Hold::Untold,
    }
}
