//! What happened on a site in memory.

ghost use Rattle.std.specs.Prelude.{◌≡◌, ◌+◌, ◌<◌, ◌++◌, ◌∷◌, ℕ, [], Some, option_copied, bytes_eq, IfOk, OnOk, OnErr};
ghost use Rattle.std.specs.Option.{option_eq};
ghost use Rattle.model.specs.World.{view_of, file_at, stamp_of, latest};
ghost use Rattle.model.specs.Calls.{content_or_empty};
ghost use Rattle.sim.specs.History.{with_change, with_next, longer_at, with_event, with_write, with_writes, with_work, IsLonger};

use crate::moments::Moments;
use model::{Event, Moment, Write, Writer};
use std::alloc::{AllocError, Global};
use std::marker::Model;
use text::{Bytes, Items, Path};

/// All that was written, started and ended, oldest first, as contracts see it. Every write has the next whole number
/// as its stamp.
#[derive(Debug, Drop)]
pub struct History {
    moments: Moments,
    /// The greatest stamp.
    clock: u64,
}

impl Model for History {
    ghost use Rattle.std.specs.Prelude.{List};
    ghost use Rattle.model.specs.declared.event.Moment.{Moment};

    ghost Value = { List Moment };

    ghost use Rattle.sim.specs.HistoryInside.{moments_of, IsSound};

    ghost view = { moments_of };

    ghost invariant = { IsSound };
}

impl History {
    /// Nothing has happened. This takes no memory.
    pub fn new(alloc: Global) -> History
        ensures { result ≡ [] }
    {
        History {
            moments: Moments::new(alloc),
            clock: 0,
        }
    }

    /// What the file at the path holds, or nothing where there is no file.
    pub fn content(&self, path: &str) -> Option<&Bytes>
        ensures { option_copied result ≡ view_of self.now path.now }
    {
        match self.moments.file(path) {
            Some((content, _)) => Some(content),
            None => None,
        }
    }

    /// The stamp of the file at the path, or nothing where there is no file.
    pub fn stamp(&self, path: &str) -> Option<u64>
        ensures { result ≡ stamp_of (file_at self.now path.now) }
    {
        match self.moments.file(path) {
            Some((_, stamp)) => Some(stamp),
            None => None,
        }
    }

    /// The greatest stamp so far, or 0.
    pub fn latest(&self) -> u64
        ensures { result ≡ latest self.now }
    {
        self.clock
    }

    /// Writes a file, or with no content deletes it, and gives the stamp. Where memory is refused, or no stamp is
    /// left, nothing has happened.
    pub fn write(
        &mut self,
        by: Writer,
        path: Path,
        content: Option<Bytes>,
    ) -> Result<u64, AllocError>
        ensures stamp { IfOk result (λ stamp. stamp ≡ latest self.old + 1) }
        ensures ok { OnOk result (self.new ≡ with_next by path content self.old) }
        ensures err { OnErr result (self.new ≡ self.old) }
    {
        append_write(&mut self.moments, &mut self.clock, by, path, content)?;
        Ok(self.clock)
    }

    /// The program puts bytes behind what a file holds, which may be absent. Only these bytes are copied. Where memory is
    /// refused, or no stamp is left, nothing has happened.
    pub fn append(&mut self, alloc: Global, path: Path, bytes: &[u8]) -> Result<(), AllocError>
        ensures ok { OnOk result (self.new ≡ with_next Writer.Program path (longer_at path bytes.now self.old) self.old) }
        ensures err { OnErr result (self.new ≡ self.old) }
    {
        let stamp = self.clock.checked_add(1).ok_or(AllocError)?;
        self.moments
            .append(alloc, Writer::Program, path, bytes, stamp)?;
        self.clock = stamp;
        Ok(())
    }

    /// What a command does: it is started, where there is a start, makes its writes, one after the other, and ends, where
    /// there is an end. Where memory is refused, nothing has happened.
    pub fn record(
        &mut self,
        job: usize,
        start: Option<Event>,
        writes: Items<Write>,
        end: Option<Event>,
    ) -> Result<(), AllocError>
        ensures ok { OnOk result (self.new ≡ with_work job start writes end self.old) }
        ensures err { OnErr result (self.new ≡ self.old) }
    {
        let length = self.moments.len();
        let clock = self.clock;
        match append_all(&mut self.moments, &mut self.clock, job, start, writes, end) {
            Ok(()) => Ok(()),
            Err(error) => {
                self.moments.truncate(length);
                self.clock = clock;
                Err(error)
            }
        }
    }
}

/// Adds a write under the next stamp. Where that fails, nothing has changed.
fn append_write(
    moments: &mut Moments,
    clock: &mut u64,
    by: Writer,
    path: Path,
    content: Option<Bytes>,
) -> Result<(), AllocError>
    ensures ok { OnOk result (moments.new ≡ with_change by path content (clock.old + 1) moments.old) }
    ensures stamp { OnOk result (clock.new ≡ clock.old + 1) }
    ensures err { OnErr result (moments.new ≡ moments.old) }
    ensures still { OnErr result (clock.new ≡ clock.old) }
{
    let stamp = clock.checked_add(1).ok_or(AllocError)?;
    moments.write(by, path, content, stamp)?;
    *clock = stamp;
    Ok(())
}

/// A start, the writes of a job and an end. Where that fails, a beginning of it may stand.
fn append_all(
    moments: &mut Moments,
    clock: &mut u64,
    job: usize,
    start: Option<Event>,
    writes: Items<Write>,
    end: Option<Event>,
) -> Result<(), AllocError>
    requires { clock.old ≡ latest moments.old }
    ensures ok { OnOk result (moments.new ≡ with_work job start writes end moments.old) }
    ensures stamp { OnOk result (clock.new ≡ latest moments.new) }
    ensures err { OnErr result (IsLonger moments.old moments.new) }
{
    append_event(moments, start)?;
    append_writes(moments, clock, job, writes)?;
    append_event(moments, end)
}

/// Adds a start or an end, if there is one. Where that fails, nothing has changed.
fn append_event(moments: &mut Moments, event: Option<Event>) -> Result<(), AllocError>
    ensures ok { OnOk result (moments.new ≡ with_event event moments.old) }
    ensures stamp { latest moments.new ≡ latest moments.old }
    ensures longer { IsLonger moments.old moments.new }
{
    if let Some(event) = event {
        moments.happen(event)?;
    }
    Ok(())
}

/// The writes of a job. Where that fails, a beginning of them may stand.
fn append_writes(
    moments: &mut Moments,
    clock: &mut u64,
    job: usize,
    writes: Items<Write>,
) -> Result<(), AllocError>
    requires { clock.old ≡ latest moments.old }
    ensures ok { OnOk result (moments.new ≡ with_writes job writes moments.old) }
    ensures stamp { OnOk result (clock.new ≡ latest moments.new) }
    ensures longer { IsLonger moments.old moments.new }
{
    for write in writes.into_vec() {
        leave(moments, clock, job, write)?;
    }
    Ok(())
}

/// What a write of a job leaves. Where that fails, nothing has changed.
fn leave(moments: &mut Moments, clock: &mut u64, job: usize, write: Write) -> Result<(), AllocError>
    requires { clock.old ≡ latest moments.old }
    ensures ok { OnOk result (moments.new ≡ with_write job write moments.old) }
    ensures stamp { OnOk result (clock.new ≡ latest moments.new) }
    ensures err { OnErr result (moments.new ≡ moments.old) }
{
    let Write {
        path,
        content,
        only_changes,
    } = write;
    if only_changes && holds(moments, &path, &content) {
        return Ok(());
    }
    append_write(moments, clock, Writer::Command { job }, path, content)?;
    Ok(())
}

/// Whether the path holds just this.
fn holds(moments: &Moments, path: &Path, content: &Option<Bytes>) -> bool
    ensures { result ≡ option_eq bytes_eq (view_of moments.now path.now) content.now }
{
    let held = match moments.file(path.as_str()) {
        Some((held, _)) => Some(held),
        None => None,
    };
    held == content.as_ref()
}
