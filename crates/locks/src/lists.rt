//! What the kernel's lists say of locks, of open files, of mounts and of processes.

ghost use Rattle.std.specs.Prelude.{◌↔◌, IsTrue};
ghost use Rattle.locks.specs.Names.{IsBuilder};

use std::str;

/// A file as the lists of locks name it: the device of its file system, and its number there.
#[derive(Clone, Copy, Debug, PartialEq, Eq)]
pub struct FileNumber {
    pub major: u32,
    pub minor: u32,
    pub inode: u64,
}

/// A lock of a whole file, or a call that waits for one.
#[derive(Clone, Copy, Debug, PartialEq, Eq)]
pub struct Lock {
    /// Whether it is a call that waits.
    pub is_asked: bool,
    /// The process that made the call, if it can be told. It may have ended since, and others may have the lock from it.
    pub process: Option<u32>,
    pub file: FileNumber,
}

/// The lock of a line, where it is one of a whole file: `1: FLOCK  ADVISORY  WRITE 359 fe:00:11691 0 EOF`, with `->` after the
/// first word where a call waits for it.
pub fn lock_of(line: &str) -> Option<Lock> {
    let (_, rest) = line.split_once(':')?;
    let rest = rest.trim_start();
    let (is_asked, rest) = match rest.strip_prefix("->") {
        Some(rest) => (true, rest),
        None => (false, rest),
    };
    let mut words = rest.split_whitespace();
    if words.next()? != "FLOCK" {
        return None;
    }
    let _advisory = words.next()?;
    let _write = words.next()?;
    let process = words.next()?.parse::<u32>().ok();
    let file = file_number(words.next()?)?;
    Some(Lock {
        is_asked,
        process: process.filter(|process| *process > 0),
        file,
    })
}

/// The file of a word such as `fe:00:11691`: two numbers to the base 16, then one to the base 10.
fn file_number(word: &str) -> Option<FileNumber> {
    let (major, rest) = word.split_once(':')?;
    let (minor, inode) = rest.split_once(':')?;
    Some(FileNumber {
        major: u32::from_str_radix(major, 16).ok()?,
        minor: u32::from_str_radix(minor, 16).ok()?,
        inode: inode.parse::<u64>().ok()?,
    })
}

/// The first lock of a whole file that an open file has, by lines with `lock:`, and then as in the list of all.
pub fn lock_in(open_file: &[u8]) -> Option<Lock> {
    for line in open_file.split(|byte| *byte == b'\n') {
        if let Some(lock) = lock_on(line) {
            return Some(lock);
        }
    }
    None
}

fn lock_on(line: &[u8]) -> Option<Lock> {
    lock_of(named(line, "lock:")?)
}

/// What stands on the first line that begins with the name, after it, without white space around.
pub fn field<'t>(list: &'t [u8], name: &str) -> Option<&'t str> {
    for line in list.split(|byte| *byte == b'\n') {
        if let Some(found) = named(line, name) {
            return Some(found);
        }
    }
    None
}

fn named<'t>(line: &'t [u8], name: &str) -> Option<&'t str> {
    let rest = line.strip_prefix(name.as_bytes())?;
    Some(str::from_utf8(rest).ok()?.trim())
}

/// The device of a mount by its number, major and minor, in the list of mounts, whose lines begin `36 35 98:0 `.
pub fn device_of(mounts: &[u8], mount: &str) -> Option<(u32, u32)> {
    for line in mounts.split(|byte| *byte == b'\n') {
        if let Some(device) = device_on(line, mount) {
            return Some(device);
        }
    }
    None
}

fn device_on(line: &[u8], mount: &str) -> Option<(u32, u32)> {
    let mut words = line.split(|byte| *byte == b' ');
    if words.next()? != mount.as_bytes() {
        return None;
    }
    let _parent = words.next()?;
    let (major, minor) = str::from_utf8(words.next()?).ok()?.split_once(':')?;
    Some((major.parse::<u32>().ok()?, minor.parse::<u32>().ok()?))
}

/// Whether a program of this name makes builds.
pub fn is_builder(name: &str) -> bool
    ensures { IsTrue result ↔ IsBuilder name.now }
{
    name == "nj" || name == "ninja"
}
