//! Entering the working folder.

ghost use Rattle.std.specs.Prelude.{◌≡◌, IfSome, None, Some, true};

use crate::asked::{Asked, ask_folder};
use crate::identity::Identity;
use crate::lines::{Line, tell};
use crate::sight::Sight;
use crate::wait::{Awaited, Outcome, wait_for};
use std::alloc::Global;
use std::fs::File;
use std::marker::Model;
use std::os::fd::IntoRawFd;

/// What a build holds of its working folder: an opening of it with an exclusive lock, or nothing where there are no locks, where
/// a parent of the program has the lock, or where the build is an inner one. The lock is given back where it is dropped.
///
/// A build is an *inner* one where its program was started by a build in the same working folder: a parent of it is one, or it has
/// from a parent a file by which commands of a build here are known, wherever its logs are. It is one too where it goes on beside another
/// build or a command that it cannot see. It waits for nobody, and leaves alone the files by which commands of a build are known.
///
/// Contracts see what is known of that: `Some true` of an inner build, `Some false` of any other, `None` before somebody asked.
#[derive(Drop)]
pub struct Entered {
    lock: Option<File>,
    inner: Option<bool>,
}

impl Model for Entered {
    ghost use Rattle.std.specs.Prelude.{Bool, Option};

    ghost Value = { Option Bool };

    ghost view = { λ entered. entered.inner };
}

/// Enters the working folder, and waits for that as long as another build is in it, but for what the program itself or one of its
/// parents has locked.
///
/// The lock is asked for in rests of at most fifty milliseconds. After half a second, and then each minute, a line on standard error
/// tells what is waited for. Where for ten seconds no process is seen that has the lock, the build goes on as an inner one. Where there
/// are no locks, as in a folder that cannot be opened, it goes on without a word.
pub fn enter(alloc: Global, rt: &HostRuntime) -> Entered {
    match ask_folder(rt) {
        Asked::Free(lock) => Entered::with(lock),
        Asked::Lockless(_) | Asked::Nothing => Entered::without(None),
        Asked::Held(refused) => entered_by(wait_for(Sight { alloc, rt }, Awaited::Folder, refused)),
    }
}

fn entered_by(outcome: Outcome) -> Entered {
    match outcome {
        Outcome::Free(lock) => Entered::with(lock),
        Outcome::Nothing => Entered::without(None),
        Outcome::Inner | Outcome::Unseen => Entered::without(Some(true)),
    }
}

impl Entered {
    fn with(lock: File) -> Entered
        ensures { result ≡ None }
    {
        Entered {
            lock: Some(lock),
            inner: None,
        }
    }

    fn without(inner: Option<bool>) -> Entered
        ensures { result ≡ inner }
    {
        Entered { lock: None, inner }
    }

    /// Whether the build is an inner one. The parents of the program are looked at where it was not asked before; what is
    /// answered once stays so.
    pub fn is_inner(&mut self, alloc: Global, rt: &HostRuntime) -> bool
        ensures known { IfSome self.old (λ inner. result ≡ inner) }
        ensures kept { self.new ≡ Some result }
    {
        if let Some(inner) = self.inner {
            return inner;
        }
        let inner = (Sight { alloc, rt }).lineage().has_build_here();
        self.inner = Some(inner);
        inner
    }

    /// The same build, as an inner one from now on.
    pub(crate) fn into_inner(self) -> Entered
        ensures { result ≡ Some true }
    {
        Entered {
            lock: self.lock,
            inner: Some(true),
        }
    }

    /// Keeps the lock until the program ends, which takes no call.
    pub fn keep(self) {
        if let Some(lock) = self.lock {
            let _ = lock.into_raw_fd();
        }
    }

    /// Gives the lock back where a process that a command of this program began waits for it in a call that blocks, and tells so: one below
    /// this program, or one that has one of the held files open with a lock, or is below such a process. To be called where a build lasts.
    pub fn give_way(&mut self, alloc: Global, rt: &HostRuntime, held: &[Identity])
        ensures { self.new ≡ self.old }
    {
        let Some(lock) = &self.lock else {
            return;
        };
        let Some(process) = (Sight { alloc, rt }).waiting(lock, held) else {
            return;
        };
        tell(alloc, rt, Line::GivenUp(process));
        self.lock = None;
    }
}
