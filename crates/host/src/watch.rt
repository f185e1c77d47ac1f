//! What a build does for others while it lasts.

use crate::commands::Running;
use locks::{Behind, Entered, Identity, Watch as Passed, enter, wait_for_left};
use std::alloc::Global;
use std::time::Instant;

/// What the build holds of the working folder, and what it does for others while its commands run and none ends.
#[derive(Drop)]
pub struct Watch<'a> {
    rt: &'a HostRuntime,
    alloc: Global,
    /// Nothing before the folder is entered.
    entered: Option<Entered>,
    passed: Passed,
    behind: Behind,
    /// The process without which the build does not go on, if there is one.
    starter: Option<i32>,
}

impl<'a> Watch<'a> {
    /// The folder is not entered yet. This takes no memory.
    pub fn new(alloc: Global, rt: &'a HostRuntime) -> Watch<'a> {
        Watch {
            rt,
            alloc,
            entered: None,
            passed: Passed::new(alloc),
            behind: Behind::new(),
            starter: None,
        }
    }

    /// From now on the build does not go on without the process that started it.
    pub fn follow_starter(&mut self) {
        self.starter = Some(libc::getppid());
    }

    /// Whether the process without which it does not go on has ended.
    pub fn is_left_alone(&self) -> bool {
        match self.starter {
            Some(starter) => libc::getppid() != starter,
            None => false,
        }
    }

    /// Enters the working folder, and waits for that as long as another build is in it.
    pub fn enter(&mut self) {
        self.entered = Some(enter(self.alloc, self.rt));
    }

    /// Waits for what an earlier build left in this folder, and answers whether it waited.
    pub fn waits_for_left(&mut self, folder: &str) -> bool {
        let Some(entered) = self.entered.take() else {
            return false;
        };
        let folder = Some(folder).filter(|folder| !folder.is_empty());
        let (entered, has_waited) = wait_for_left(self.alloc, self.rt, entered, folder);
        self.entered = Some(entered);
        has_waited
    }

    /// The build holds the working folder until the program ends.
    pub fn keep(self) {
        let Watch { entered, .. } = self;
        if let Some(entered) = entered {
            entered.keep();
        }
    }

    /// Whether a command of another build in the same folder began this one. To be asked before a command is started.
    pub fn is_inner(&mut self) -> bool {
        match &mut self.entered {
            Some(entered) => entered.is_inner(self.alloc, self.rt),
            None => false,
        }
    }

    /// To be called where a command may be held, which has ended but for a process that has its output open: whether it is due to tell that
    /// of these commands. Nothing where none of them is held.
    pub fn held(&mut self, commands: &[Running]) -> Option<bool> {
        let ended = first_end(commands)?;
        match Instant::now(self.rt) {
            Ok(now) => Some(self.behind.is_due(ended, now)),
            Err(_) => Some(false),
        }
    }

    /// Tells it, by one line for all of these commands.
    pub fn tell_held(&self, commands: &[Running]) {
        let held = held_files(self.alloc, commands);
        self.behind.tell(self.alloc, self.rt, held.as_slice());
    }

    /// To be called when no command has ended for ten seconds, and each ten seconds again: gives the folder back where a process that a
    /// command began waits for it, also one that a held command left behind, and passes on that one of these commands waits.
    pub fn has_waited_long(&mut self, commands: &[Running]) {
        if let Some(entered) = &mut self.entered {
            let held = held_files(self.alloc, commands);
            entered.give_way(self.alloc, self.rt, held.as_slice());
        }
        for command in commands {
            if let Some(printed) = command.printed() {
                printed.pass_on(self.rt, &mut self.passed);
            }
        }
    }
}

/// When the process of the first of those commands ended that are held.
fn first_end(commands: &[Running]) -> Option<Instant> {
    let mut first = None;
    for command in commands {
        if let Some((_, since)) = command.held() {
            first = Some(earlier(first, since));
        }
    }
    first
}

fn earlier(first: Option<Instant>, other: Instant) -> Instant {
    match first {
        Some(first) if first <= other => first,
        _ => other,
    }
}

/// The outputs of those commands that are held. One for which there is no memory is left out.
fn held_files(alloc: Global, commands: &[Running]) -> Vec<Identity> {
    let mut files = Vec::new(alloc);
    for command in commands {
        if let Some((printed, _)) = command.held() {
            if let Some(identity) = printed.identity() {
                let _ = files.push(identity);
            }
        }
    }
    files
}
