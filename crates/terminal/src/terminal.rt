//! Where a build shows what it has to show.

ghost use Rattle.std.specs.Prelude.{◌≡◌, None, IsNone, OnOk};
ghost use Rattle.std.specs.Io.KnownBytes.{Appends};

use crate::live::Live;
use crate::look::Look;
use crate::names::Names;
use std::alloc::{AllocError, Global};
use std::io;
use std::io::Write;
use std::time::Instant;

/// Where a look at the clock comes so many milliseconds after the one before, the program may have been stopped, and others may have written
/// to the terminal.
const GAP: u64 = 1000;

/// The writer to which texts go: as they are, or to a terminal on which rows are drawn below them.
#[derive(Drop)]
pub struct Terminal<W> {
    out: W,
    /// Nothing where texts go out as they are.
    drawn: Option<Drawn>,
}

/// What is drawn, and the time of it.
#[derive(Drop)]
struct Drawn {
    live: Live,
    /// When it began.
    begun: Instant,
    /// When the clock was looked at last, in milliseconds since then.
    now: u64,
}

impl<W: Write> Terminal<W> {
    /// Texts go to the writer as they are. This takes no memory.
    pub fn plain(out: W) -> Terminal<W>
        ensures { IsNone result.drawn }
    {
        Terminal { out, drawn: None }
    }

    /// From now on rows are drawn below the texts, by this look and of lines that are made by this pattern: the writer's other end is a
    /// terminal. Where there is no memory, or no clock, nothing changes.
    pub fn draw(&mut self, alloc: Global, rt: &HostRuntime, look: Look, pattern: &str) {
        if let Ok(begun) = Instant::now(rt) {
            if let Ok(live) = Live::new(alloc, look, pattern, 0) {
                self.drawn = Some(Drawn {
                    live,
                    begun,
                    now: 0,
                });
            }
        }
    }

    /// Whether rows are drawn.
    pub fn is_drawn(&self) -> bool {
        self.drawn.is_some()
    }

    /// From now on jobs have these names.
    pub fn take_names(&mut self, names: Names) {
        if let Some(drawn) = &mut self.drawn {
            drawn.live.take_names(names);
        }
    }

    /// Shows a text at once. Where rows are drawn, it may be a line that passes, and come with the next drawing.
    pub fn show(&mut self, rt: &HostRuntime, text: &[u8]) -> io::Result<()>
        ensures plain { IsNone self.old.drawn → OnOk result (Appends (W.contents self.old.out) (W.contents self.new.out) text.now) }
        ensures stays { IsNone self.old.drawn → IsNone self.new.drawn }
    {
        let told = match &mut self.drawn {
            Some(drawn) => drawn.show(rt, text),
            None => return put(&mut self.out, text),
        };
        self.put_shown(told, text)
    }

    /// Writes what is to be drawn of a text. Where there was no memory for that, texts go out as they are, from this one on.
    fn put_shown(&mut self, told: Result<Vec<u8>, AllocError>, text: &[u8]) -> io::Result<()> {
        match told {
            Ok(bytes) => put(&mut self.out, bytes.as_slice()),
            Err(_) => {
                self.drawn = None;
                put(&mut self.out, text)
            }
        }
    }

    /// The command of a job is about to be started. Where it gets the terminal, rows are taken away until it has ended, and a text is shown
    /// behind it.
    pub fn prepare(&mut self, rt: &HostRuntime, job: usize, console: bool) {
        if !console {
            return;
        }
        let told = match &mut self.drawn {
            Some(drawn) => drawn.hand_over(rt, job),
            None => return,
        };
        self.put_drawn(told);
    }

    /// The command of a job was started.
    pub fn start(&mut self, rt: &HostRuntime, job: usize, console: bool) {
        if console {
            return;
        }
        let told = match &mut self.drawn {
            Some(drawn) => drawn.start(rt, job),
            None => return,
        };
        self.put_drawn(told);
    }

    /// The command of a job has ended.
    pub fn end(&mut self, rt: &HostRuntime, job: usize) {
        if let Some(drawn) = &mut self.drawn {
            drawn.end(rt, job);
        }
    }

    /// Time has passed.
    pub fn pass(&mut self, rt: &HostRuntime) {
        let told = match &mut self.drawn {
            Some(drawn) => drawn.pass(rt),
            None => return,
        };
        self.put_drawn(told);
    }

    /// Others are about to write to the terminal: the rows are taken away, until they are drawn again.
    pub fn step_aside(&mut self) {
        let told = match &mut self.drawn {
            Some(drawn) => drawn.live.clear(),
            None => return,
        };
        self.put_drawn(told);
    }

    /// Nothing runs any more: the rows are taken away, and the last line that passed stays.
    pub fn finish(&mut self) {
        let told = match &mut self.drawn {
            Some(drawn) => drawn.live.finish(),
            None => return,
        };
        self.put_drawn(told);
    }

    /// Tells once more that this output failed, where rows were drawn. To be called when they were taken away.
    pub fn recall(&mut self, output: &str) {
        let told = match &self.drawn {
            Some(drawn) => drawn.live.failure(output),
            None => return,
        };
        self.put_drawn(told);
    }

    /// Writes what is to be drawn. Where that cannot be, or there was no memory for it, texts go out as they are from now on.
    fn put_drawn(&mut self, told: Result<Vec<u8>, AllocError>) {
        let is_put = match told {
            Ok(bytes) => put(&mut self.out, bytes.as_slice()).is_ok(),
            Err(_) => false,
        };
        if !is_put {
            self.drawn = None;
        }
    }
}

impl Drawn {
    /// Looks at the clock. Where it shows that the program may have been stopped, the rows are left where they are.
    fn look(&mut self, rt: &HostRuntime) {
        let Ok(now) = Instant::now(rt) else {
            return;
        };
        let now = u64::try_from(now.duration_since(self.begun).as_millis()).unwrap_or(u64::MAX);
        if now.saturating_sub(self.now) > GAP {
            self.live.leave_rows();
        }
        self.now = now;
    }

    fn show(&mut self, rt: &HostRuntime, text: &[u8]) -> Result<Vec<u8>, AllocError> {
        self.look(rt);
        let may_draw = !self.live.writes(text, self.now) || has_terminal();
        if !may_draw {
            self.live.forget();
        }
        let text = self.live.coloured(text)?;
        self.live.show(text.as_slice(), self.now, may_draw)
    }

    fn hand_over(&mut self, rt: &HostRuntime, job: usize) -> Result<Vec<u8>, AllocError> {
        self.look(rt);
        self.live.hold(job, self.now)
    }

    fn start(&mut self, rt: &HostRuntime, job: usize) -> Result<Vec<u8>, AllocError> {
        self.look(rt);
        self.live.start(job, self.now)?;
        self.draw()
    }

    fn end(&mut self, rt: &HostRuntime, job: usize) {
        self.look(rt);
        self.live.end(job, self.now);
    }

    fn pass(&mut self, rt: &HostRuntime) -> Result<Vec<u8>, AllocError> {
        self.look(rt);
        self.draw()
    }

    /// Draws the rows anew, where it is time and nobody else has the terminal.
    fn draw(&mut self) -> Result<Vec<u8>, AllocError> {
        if self.live.is_due(self.now) && !has_terminal() {
            self.live.forget();
        }
        self.live.pass(self.now)
    }
}

/// Writes at once; nothing where there is nothing.
fn put<W: Write>(out: &mut W, bytes: &[u8]) -> io::Result<()>
    ensures { OnOk result (Appends (W.contents out.old) (W.contents out.new) bytes.now) }
{
    if bytes.is_empty() {
        return Ok(());
    }
    out.write_all(bytes)?;
    out.flush()?;
    Ok(())
}

/// Whether no other process group has the terminal of the standard output. Where that is not told, as where the terminal is not the
/// program's own, none has.
fn has_terminal() -> bool {
    let group = libc::tcgetpgrp(libc::STDOUT_FILENO);
    group < 0 || group == libc::getpgrp()
}
