//! Waiting for a lock that another process holds, by asking again and again.

use crate::asked::{Asked, ask_again, ask_file, ask_folder};
use crate::lines::{Line, tell};
use crate::pace::Pace;
use crate::sight::Sight;
use std::fs::File;
use std::thread;
use std::time::{Duration, Instant};

/// Where for so long, in milliseconds, no process is seen that holds it, a build goes on.
const LONGEST_UNSEEN: u64 = 10_000;

/// What a build waits for.
#[derive(Clone, Copy)]
pub enum Awaited<'a> {
    /// The working folder, in which another build is.
    Folder,
    /// A file that a command of an earlier build has open, at this path.
    Left(&'a str),
}

impl<'a> Awaited<'a> {
    fn ask(self, rt: &HostRuntime) -> Asked {
        match self {
            Awaited::Folder => ask_folder(rt),
            Awaited::Left(path) => ask_file(rt, path),
        }
    }

    fn line(self, holder: Option<u32>) -> Line<'a> {
        match self {
            Awaited::Folder => Line::Folder(holder),
            Awaited::Left(path) => Line::Command(path, holder),
        }
    }

    fn unseen_line(self) -> Line<'a> {
        match self {
            Awaited::Folder => Line::UnseenFolder,
            Awaited::Left(path) => Line::UnseenCommand(path),
        }
    }
}

/// How a wait ended.
#[derive(Drop)]
pub enum Outcome {
    /// This opening has the lock, exclusively.
    Free(File),
    /// There is nothing to wait for: no file, no locks here, or one that the program itself or a parent of it holds.
    Nothing,
    /// The program was started by a build in this folder.
    Inner,
    /// For ten seconds no process was seen that holds it.
    Unseen,
}

/// Waits until nobody else has a lock on what the path leads to, which this opening was refused.
pub fn wait_for(sight: Sight<'_>, awaited: Awaited<'_>, refused: File) -> Outcome {
    if let Some(outcome) = of_its_own(sight, awaited, &refused) {
        return outcome;
    }
    let mut wait = Wait {
        sight,
        awaited,
        began: Instant::now(sight.rt).ok(),
        pace: Pace::new(),
        holder: None,
        seen_at: 0,
    };
    let mut file = refused;
    for _ in 0..1u64 << 63 {
        match wait.next_turn(file) {
            Turn::Again(held) => file = held,
            Turn::Ended(outcome) => return outcome,
        }
    }
    Outcome::Unseen
}

/// Where the program itself or one of its parents holds the file, it is not waited for.
fn of_its_own(sight: Sight<'_>, awaited: Awaited<'_>, file: &File) -> Option<Outcome> {
    let lineage = sight.lineage();
    if matches!(awaited, Awaited::Folder) && lineage.has_build_here() {
        return Some(Outcome::Inner);
    }
    if lineage.holds(file) {
        return Some(Outcome::Nothing);
    }
    None
}

/// A wait that lasts.
#[derive(Drop)]
struct Wait<'a> {
    sight: Sight<'a>,
    awaited: Awaited<'a>,
    /// When it began, where there is a clock.
    began: Option<Instant>,
    pace: Pace,
    /// A process that was seen to hold it.
    holder: Option<u32>,
    /// How long it had lasted when a process was seen last.
    seen_at: u64,
}

#[derive(Drop)]
enum Turn {
    /// It is still held, by another opening than this.
    Again(File),
    Ended(Outcome),
}

impl<'a> Wait<'a> {
    /// Rests, and asks again; once a second of what the path leads to now.
    fn next_turn(&mut self, file: File) -> Turn {
        self.rest();
        let is_look = self.pace.is_look();
        let asked = if is_look {
            drop(file);
            self.awaited.ask(self.sight.rt)
        } else {
            ask_again(file)
        };
        match asked {
            Asked::Free(file) => Turn::Ended(Outcome::Free(file)),
            Asked::Lockless(_) | Asked::Nothing => Turn::Ended(Outcome::Nothing),
            Asked::Held(file) => self.go_on(file, is_look),
        }
    }

    fn rest(&mut self) {
        let rest = self.pace.next_rest();
        thread::sleep(self.sight.rt, Duration::from_millis(rest));
        let Some(began) = self.began else {
            return;
        };
        if let Ok(elapsed) = began.elapsed(self.sight.rt) {
            self.pace
                .pass(u64::try_from(elapsed.as_millis()).unwrap_or(0));
        }
    }

    /// Looks at who holds it, and tells what is due.
    fn go_on(&mut self, file: File, is_look: bool) -> Turn {
        let is_line = self.pace.is_line();
        let is_late = self.pace.waited.saturating_sub(self.seen_at) >= LONGEST_UNSEEN;
        if is_look || is_line || is_late {
            self.see_holder(&file);
        }
        if is_line {
            self.tell(self.awaited.line(self.holder));
        }
        if is_look {
            if let Some(outcome) = of_its_own(self.sight, self.awaited, &file) {
                return Turn::Ended(outcome);
            }
        }
        if is_late && self.holder.is_none() {
            self.tell(self.awaited.unseen_line());
            return Turn::Ended(Outcome::Unseen);
        }
        Turn::Again(file)
    }

    /// Sees which process holds the file: the one of before, if it still does.
    fn see_holder(&mut self, file: &File) {
        if !self.is_held_by_the_same(file) {
            self.holder = self.sight.holder(file);
        }
        if self.holder.is_some() {
            self.seen_at = self.pace.waited;
        }
    }

    fn is_held_by_the_same(&self, file: &File) -> bool {
        match self.holder {
            Some(process) => self.sight.may_hold(process, file),
            None => false,
        }
    }

    fn tell(&self, line: Line<'_>) {
        tell(self.sight.alloc, self.sight.rt, line);
    }
}
