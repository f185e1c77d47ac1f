//! The processes of a trace, in the order in which they were first seen or told of.

ghost use Rattle.std.specs.Prelude.{◌≡◌, ◌++◌, ◌∷◌, [], OnOk, length, set};
ghost use Rattle.shares.specs.Processes.{is_fine, is_told, process_at, process_of};

use std::alloc::{AllocError, Global};
use std::marker::Model;

/// Who started a process.
#[derive(Clone, Copy, Debug, PartialEq, Eq)]
pub enum Origin {
    /// That was not told yet.
    Untold,
    /// The first process of all, and so many were started by it before.
    Command(usize),
    /// The process in this place.
    Child(usize),
}

/// What is known of a process.
#[derive(Clone, Copy, Debug, PartialEq, Eq)]
pub struct Process {
    pub origin: Origin,
    pub has_ended: bool,
    /// Whether it cannot be told from another one: which lines are its own, or who started it.
    pub is_mixed: bool,
    /// How many of its lines a share has.
    pub lines: u64,
}

impl Process {
    /// A process that was started so.
    pub fn new(origin: Origin) -> Process
        ensures { result ≡ process_of origin }
    {
        Process {
            origin,
            has_ended: false,
            is_mixed: false,
            lines: 0,
        }
    }

    /// Whether it was told who started it.
    pub fn is_told(self) -> bool
        ensures { result ≡ is_told self }
    {
        match self.origin {
            Origin::Untold => false,
            Origin::Command(_) | Origin::Child(_) => true,
        }
    }

    /// Whether all of its lines are known.
    pub fn is_fine(self) -> bool
        ensures { result ≡ is_fine self }
    {
        self.has_ended && !self.is_mixed
    }
}

/// Processes, which contracts see as a list.
#[derive(Debug, Drop)]
pub struct Processes {
    items: Vec<Process>,
}

impl Model for Processes {
    ghost use Rattle.std.specs.Prelude.{List};
    ghost use Rattle.shares.specs.declared.processes.Process.{Process};

    ghost Value = { List Process };

    ghost view = { λ processes. processes.items.items };
}

impl Processes {
    /// None, which takes no memory.
    pub fn new(alloc: Global) -> Processes
        ensures { result ≡ [] }
    {
        Processes {
            items: Vec::new(alloc),
        }
    }

    /// How many there are.
    pub fn len(&self) -> usize
        ensures { result ≡ length self.now }
    {
        self.items.len()
    }

    /// The process in this place.
    pub fn at(&self, place: usize) -> Process
        ensures { result ≡ process_at place self.now }
    {
        match self.items.get(place) {
            Some(process) => *process,
            None => Process::new(Origin::Untold),
        }
    }

    /// Puts it into this place.
    pub fn put(&mut self, place: usize, process: Process)
        ensures { self.new ≡ set self.old place process }
    {
        if place < self.items.len() {
            self.items[place] = process;
        }
    }

    /// Adds one more.
    pub fn add(&mut self, process: Process) -> Result<(), AllocError>
        ensures { OnOk result (self.new ≡ self.old ++ process ∷ []) }
    {
        self.items.push(process)?;
        Ok(())
    }

    /// All of them.
    pub fn as_slice(&self) -> &[Process]
        ensures { result.now ≡ self.now }
    {
        self.items.as_slice()
    }
}
