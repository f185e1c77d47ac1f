//! What happens on a site.

ghost use Rattle.std.specs.Prelude.{◌≡◌};

use crate::Act;
use std::alloc::AllocError;
use text::{Bytes, Path};

/// Who wrote a file. A job is a running command; its number is that of its edge.
#[derive(Clone, Copy, Debug, PartialEq, Eq)]
pub enum Writer {
    /// The build executor itself.
    Program,
    /// A command that was running.
    Command { job: usize },
    /// Somebody else: an edit.
    Someone,
}

/// A start or a finish of a command, as a site tells it.
#[derive(Debug, Drop)]
pub enum Event {
    /// The command of the act was started; `stamp` is what the last tick before it gave.
    Start { job: usize, act: Act, stamp: u64 },
    /// The command ended, and whether it ended well by itself.
    Finish { job: usize, ok: bool },
}

impl Clone for Event {
    ghost is_clone = { λ this copy. copy ≡ this };

    fn clone(&self) -> Result<Event, AllocError> {
        match self {
            Event::Start { job, act, stamp } => Ok(Event::Start {
                job: *job,
                act: act.clone()?,
                stamp: *stamp,
            }),
            Event::Finish { job, ok } => Ok(Event::Finish { job: *job, ok: *ok }),
        }
    }
}

/// One thing that happened: a file was written or deleted, or a command was started or ended.
#[derive(Debug, Drop)]
pub enum Moment {
    /// The file has this content from now on, under this stamp; with no content it is gone.
    Wrote {
        by: Writer,
        path: Path,
        content: Option<Bytes>,
        stamp: u64,
    },
    /// A command was started or ended.
    Happened(Event),
}

/// A command that has ended.
#[derive(Debug, Drop)]
pub struct Finished {
    pub job: usize,
    /// Whether it ended well.
    pub ok: bool,
    /// What it printed.
    pub output: Bytes,
}
