//! What is told on standard error.

ghost use Rattle.std.specs.Prelude.{◌≡◌, ◌+◌, ◌^◌, ◌<◌, ◌↔◌, IsTrue, IfSome, IsSome, Some, None};
ghost use Rattle.locks.specs.Lines.{IsEndOf, TellsWait, with_one_more};

use crate::names::begins_with;
use std::alloc::Global;
use std::{fmt, str};

const FOLDER: &str = "nj: waiting for another nj in this folder";

const COMMAND: &str = "nj: waiting for a command of an earlier build";

const BEHIND: &str = "nj: waiting for what a command left behind";

/// A line that is told.
#[derive(Clone, Copy)]
pub enum Line<'a> {
    /// Another build is in the folder, of this process where one is seen.
    Folder(Option<u32>),
    /// A command of an earlier build has the file at the path open, as this process does where one is seen.
    Command(&'a str, Option<u32>),
    /// No process is seen that holds the folder.
    UnseenFolder,
    /// No process is seen that holds the file at the path.
    UnseenCommand(&'a str),
    /// A process that a command of this build began waits for the folder.
    GivenUp(u32),
    /// These processes have the output of a command open, which has ended but for that.
    Behind(Holders),
}

/// The processes that are seen to hold something.
#[derive(Clone, Copy)]
pub struct Holders {
    /// One of them, if any is seen.
    pub first: Option<u32>,
    /// How many others there are.
    pub more: u64,
}

impl fmt::Display for Line<'_> {
    fn fmt<W: fmt::Write>(&self, f: &mut fmt::Formatter<W>) -> fmt::Result {
        match *self {
            Line::Folder(holder) => {
                let holder = Holder(holder);
                write!(f, "{FOLDER}{holder}")
            }
            Line::Command(path, holder) => {
                let holder = Holder(holder);
                write!(
                    f,
                    "{COMMAND}{holder}; deleting {path} lets this build go on"
                )
            }
            Line::UnseenFolder => f.write_str(
                "nj: going on beside another nj in this folder, of which no process is seen",
            ),
            Line::UnseenCommand(path) => write!(
                f,
                "nj: going on beside a command of an earlier build, which has {path} open and is not seen"
            ),
            Line::GivenUp(process) => write!(
                f,
                "nj: letting others into this folder, for which a command waits (process {process})"
            ),
            Line::Behind(holders) => write!(f, "{BEHIND}{holders} lets this build go on"),
        }
    }
}

/// The process that holds something, where one is seen.
#[derive(Clone, Copy)]
struct Holder(Option<u32>);

impl fmt::Display for Holder {
    fn fmt<W: fmt::Write>(&self, f: &mut fmt::Formatter<W>) -> fmt::Result {
        match self.0 {
            Some(process) => write!(f, " (process {process})"),
            None => Ok(()),
        }
    }
}

impl Holders {
    /// One more is seen.
    pub fn add(&mut self, process: u32)
        ensures first { self.old.first ≡ None → self.new ≡ record self.old { first = Some process } }
        ensures more { IsSome self.old.first → self.old.more + 1 < 2 ^ 64 → self.new ≡ with_one_more self.old }
    {
        match self.first {
            Some(_) => self.more = self.more.saturating_add(1),
            None => self.first = Some(process),
        }
    }
}

impl fmt::Display for Holders {
    fn fmt<W: fmt::Write>(&self, f: &mut fmt::Formatter<W>) -> fmt::Result {
        let more = self.more;
        match self.first {
            None => f.write_str(": ending it"),
            Some(process) if more == 0 => write!(f, " (process {process}): ending it"),
            Some(process) => write!(f, " (process {process} and {more} more): ending them"),
        }
    }
}

/// Tells the line, by one write. That it could not be told is no fault.
pub fn tell(alloc: Global, rt: &HostRuntime, line: Line<'_>) {
    if let Ok(text) = format!(in alloc; "{line}\n") {
        tell_text(rt, text.as_bytes());
    }
}

/// Tells what a line holds, with its end.
pub fn tell_text(rt: &HostRuntime, text: &[u8]) {
    let _ = Print::write_all(&rt.stderr(), text);
}

/// The last line of a text, with its end, if it is whole and tells that a build waits.
pub fn last_waiting(text: &[u8]) -> Option<&str>
    ensures end { IfSome result (λ line. IsEndOf text.now line.now) }
    ensures waits { IfSome result (λ line. TellsWait line.now) }
{
    let lines = text.strip_suffix(b"\n")?;
    let start = match lines.iter().rposition(|byte| *byte == b'\n') {
        Some(place) => place + 1,
        None => 0,
    };
    let line = str::from_utf8(text.get(start..)?).ok()?;
    if is_waiting(line) { Some(line) } else { None }
}

/// Whether a line tells that a build waits.
fn is_waiting(line: &str) -> bool
    ensures { IsTrue result ↔ TellsWait line.now }
{
    begins_with(line, FOLDER) || begins_with(line, COMMAND) || begins_with(line, BEHIND)
}
