//! The moments of a history, and what each path holds.

ghost use Rattle.std.specs.Prelude.{◌≡◌, ◌-◌, ◌<◌, ◌++◌, ◌∷◌, ℕ, List, [], Some, take, length, vec_capacity, option_map, OnOk, OnErr};
ghost use Rattle.model.specs.World.{file_at};
ghost use Rattle.model.specs.Calls.{content_or_empty};
ghost use Rattle.sim.specs.History.{file_seen, with_change, longer_at};
ghost use Rattle.sim.specs.Notes.{file_in};

use crate::notes::{self, Last, Note};
use model::{Event, Moment, Writer};
use std::alloc::{AllocError, Global};
use std::collections::HashMap;
use std::marker::Model;
use text::{Bytes, Path};

/// All that happened, oldest first, as contracts see it. Kept is what each path holds, and for each write what its path
/// held before: where bytes were put behind a file, no more than how long it was.
#[derive(Debug, Drop)]
pub struct Moments {
    notes: Vec<Note>,
    /// What the last write left, at each path that was written.
    lasts: HashMap<String, Last>,
}

impl Model for Moments {
    ghost use Rattle.std.specs.Prelude.{List};
    ghost use Rattle.model.specs.declared.event.Moment.{Moment};

    ghost Value = { List Moment };

    ghost use Rattle.sim.specs.MomentsInside.{moments_in, IsWhole};

    ghost view = { moments_in };

    ghost invariant = { IsWhole };
}

impl Moments {
    /// Nothing has happened. This takes no memory.
    pub fn new(alloc: Global) -> Moments
        ensures { result ≡ [] }
    {
        Moments {
            notes: Vec::new(alloc),
            lasts: HashMap::new(alloc),
        }
    }

    /// How many there are.
    pub fn len(&self) -> usize
        ensures { result ≡ length self.now }
    {
        self.notes.len()
    }

    /// The content and the stamp of the file at the path: what the last write there left.
    pub fn file(&self, path: &str) -> Option<(&Bytes, u64)>
        ensures { option_map file_seen result ≡ file_at self.now path.now }
    {
        match self.lasts.get(path) {
            Some(last) => file_in(last),
            None => None,
        }
    }

    /// A file is written, or with no content deleted. Where memory is refused, nothing has changed.
    pub fn write(
        &mut self,
        by: Writer,
        path: Path,
        content: Option<Bytes>,
        stamp: u64,
    ) -> Result<(), AllocError>
        ensures ok { OnOk result (self.new ≡ with_change by path content stamp self.old) }
        ensures err { OnErr result (self.new ≡ self.old) }
    {
        self.notes.reserve(1)?;
        let before = notes::put(&mut self.lasts, &path, Last { content, stamp })?;
        push_reserved(&mut self.notes, Note::Change { by, path, before });
        Ok(())
    }

    /// Bytes are put behind what a file holds, which may be absent. Where memory is refused, nothing has changed.
    pub fn append(
        &mut self,
        alloc: Global,
        by: Writer,
        path: Path,
        bytes: &[u8],
        stamp: u64,
    ) -> Result<(), AllocError>
        ensures ok { OnOk result (self.new ≡ with_change by path (longer_at path bytes.now self.old) stamp self.old) }
        ensures err { OnErr result (self.new ≡ self.old) }
    {
        self.notes.reserve(1)?;
        let before = notes::append(alloc, &mut self.lasts, &path, bytes, stamp)?;
        push_reserved(&mut self.notes, Note::Change { by, path, before });
        Ok(())
    }

    /// A command is started or ends. Where memory is refused, nothing has changed.
    pub fn happen(&mut self, event: Event) -> Result<(), AllocError>
        ensures ok { OnOk result (self.new ≡ self.old ++ Moment.Happened event ∷ []) }
        ensures err { OnErr result (self.new ≡ self.old) }
    {
        self.notes.reserve(1)?;
        push_reserved(&mut self.notes, Note::Came(event));
        Ok(())
    }

    /// Takes back all but so many.
    pub fn truncate(&mut self, length: usize)
        ensures { self.new ≡ take length self.old }
    {
        while self.len() > length {
            self.take_back();
        }
    }

    /// Takes the last one back.
    fn take_back(&mut self)
        ensures { self.new ≡ take (length self.old - 1) self.old }
    {
        let Some(note) = self.notes.pop() else {
            return;
        };
        if let Note::Change { path, before, .. } = note {
            notes::take_back(&mut self.lasts, path.as_str(), before);
        }
    }
}

/// The content and the stamp of the file that a write left, if it left one.
fn file_in(last: &Last) -> Option<(&Bytes, u64)>
    ensures { option_map file_seen result ≡ file_in (Some last.now) }
{
    match &last.content {
        Some(content) => Some((content, last.stamp)),
        None => None,
    }
}

/// Adds a note to a list that has room.
fn push_reserved(notes: &mut Vec<Note>, note: Note)
    requires { length notes.old.items < vec_capacity notes.old }
    ensures { notes.new.items ≡ notes.old.items ++ note ∷ [] }
{
    match notes.push(note) {
        Ok(()) => {}
        Err(_) => unreachable!(),
    }
}
