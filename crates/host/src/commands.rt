//! Real commands: starting one, and how it ended.

ghost use Rattle.std.specs.Prelude.{◌≡◌, ℤ, IfOk, IsTrue, OnErr};
ghost use Rattle.host.specs.Process.{HasEnded, HasLetGo, HasNumber, IsEndOf};

use crate::files::{Opened, Printed, Taken};
use crate::process::{Process, Streams};
use crate::tracing::Tracing;
use std::alloc::Global;
use std::io;
use std::os::unix::process::ExitStatusExt;
use std::process::ExitStatus;
use std::time::Instant;
use text::Bytes;

/// A command that runs.
#[derive(Drop)]
pub struct Running {
    /// The job that it was started for.
    pub job: usize,
    process: Process,
    /// What it prints; none where it has the program's own output.
    printed: Option<Printed>,
    /// When it was seen first that its process had ended and another one has its output open, where there is a clock.
    held_since: Option<Instant>,
}

/// How a command ended.
#[derive(Clone, Copy)]
pub struct End {
    pub job: usize,
    pub ok: bool,
    /// The signal that ended it, where one did.
    pub signal: Option<i32>,
}

/// Starts a command for a job. It reads and prints as the opened files say, which are taken then; without them it has the program's own
/// input and output. It is traced where that is asked for. Where it fails, nothing was started, and the files are left.
pub fn start(
    tracing: &Tracing,
    job: usize,
    command: &str,
    environment: &[u8],
    opened: &mut Option<Opened>,
) -> io::Result<Running>
    ensures { IfOk result (λ running. running.job ≡ job) }
{
    let handed = tracing.hand_over(job, command, environment, streams(opened))?;
    let process = Process::start(&handed)?;
    Ok(Running {
        job,
        process,
        printed: opened.take().map(|opened| opened.into_printed()),
        held_since: None,
    })
}

/// The descriptors for a command that reads and prints as the opened files say.
fn streams(opened: &Option<Opened>) -> Streams {
    match opened {
        Some(opened) => opened.streams(),
        None => [-1; 3],
    }
}

impl Running {
    /// The number of its process, unless it was told that it has ended.
    pub fn number(&self) -> Option<i32> {
        self.process.number()
    }

    /// Whether it has ended: its process has, well or not, and no other opening has its output locked, as a process has that it left
    /// behind. A wait for its process that fails is answered once nobody has its output. One that has ended is not asked again.
    #[inline(always)]
    pub fn has_ended(&mut self, rt: &HostRuntime) -> io::Result<bool>
        ensures job { self.new.job ≡ self.old.job }
        ensures number { (number : ℤ) → HasNumber number self.old → HasNumber number self.new }
        ensures kept { HasEnded self.old → self.new.process ≡ self.old.process }
        ensures ended { IfOk result (λ ended. IsTrue ended → HasEnded self.new) }
        ensures lost { OnErr result (HasLetGo self.new) }
    {
        let answer = self.process.has_ended();
        if matches!(answer, Ok(false)) {
            return answer;
        }
        if self.is_let_go(rt) {
            return answer;
        }
        Ok(false)
    }

    /// Whether nobody has its output, of a command whose process has ended. When that is first seen not to be so is noted.
    #[inline(never)]
    fn is_let_go(&mut self, rt: &HostRuntime) -> bool
        ensures job { self.new.job ≡ self.old.job }
        ensures process { self.new.process ≡ self.old.process }
        ensures free { IsTrue result → HasLetGo self.new }
    {
        if let Some(printed) = &mut self.printed {
            if !printed.is_let_go(rt) {
                if self.held_since.is_none() {
                    self.held_since = Instant::now(rt).ok();
                }
                return false;
            }
        }
        true
    }

    /// Whether it was seen, where there is a clock, that its process had ended and another one had its output open.
    #[inline(always)]
    pub fn was_held(&self) -> bool {
        self.held_since.is_some()
    }

    /// Where its process has ended and another one has its output open: the file, and since when that is seen.
    pub fn held(&self) -> Option<(&Printed, Instant)> {
        let since = self.held_since?;
        let printed = self.printed.as_ref()?;
        printed.is_locked().then_some((printed, since))
    }

    /// How it ended.
    pub fn end(&self) -> End
        requires { HasEnded self.now }
        ensures { IsEndOf self.now result }
    {
        let job = self.job;
        match self.process.status() {
            Some(status) => End {
                job,
                ok: status.bits == 0,
                signal: ExitStatus::from_raw(status.bits).signal(),
            },
            None => End {
                job,
                ok: false,
                signal: None,
            },
        }
    }

    /// What it printed so far.
    pub fn take_printed(&self, alloc: Global) -> io::Result<Taken> {
        match &self.printed {
            Some(printed) => printed.take(alloc),
            None => Ok(Taken {
                output: Bytes::new(alloc),
                is_unused: false,
            }),
        }
    }

    /// The file into which it prints, unless it has the program's own output.
    pub fn printed(&self) -> Option<&Printed> {
        self.printed.as_ref()
    }

    /// Lets the command go, which has ended, and answers the file into which it printed.
    pub fn into_printed(self) -> Option<Printed> {
        self.printed
    }
}
