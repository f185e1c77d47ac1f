//! Which process started which, as far as a trace was read.

ghost use Rattle.std.specs.Prelude.{◌≡◌, ◌∷◌, ◌++◌, [], IfOk, OnOk};
ghost use Rattle.shares.specs.Families.{after, after_body, after_child, after_end, after_number, after_start, from_one, mixed, nothing_yet, place_in, place_of_line, told_by, with_line, with_process};

use crate::lines::{child_of, is_end, is_left_out, leaves_numbers, numbered};
use crate::numbers::{Numbered, Numbers};
use crate::processes::{Origin, Process, Processes};
use crate::reading::TakesLines;
use std::alloc::{AllocError, Global};
use text::{Bytes, Items};

/// Which process started which, as far as a trace was read. A process lives from the first line that has its number, or that tells that one
/// was started, to the line that tells its end, or, where that came first, to the one that tells its start.
#[derive(Debug, Drop)]
pub struct Families {
    pub numbers: Numbers,
    pub processes: Processes,
    /// The numbers of those that the first process started, in order.
    pub commands: Items<Bytes>,
    /// Whether each line was read that is not cut off.
    pub is_clear: bool,
}

impl Families {
    /// Nothing was read yet. This takes no memory.
    pub fn new(alloc: Global) -> Families
        ensures { result ≡ nothing_yet }
    {
        Families {
            numbers: Numbers::new(alloc),
            processes: Processes::new(alloc),
            commands: Items::new(alloc),
            is_clear: true,
        }
    }

    /// Reads a line more, and answers the place of its process if a share may have it. Where memory is refused, what was read counts for
    /// nothing.
    pub fn take(&mut self, alloc: Global, line: &[u8]) -> Result<Option<usize>, AllocError>
        ensures place { IfOk result (λ place. place ≡ place_of_line self.old line.now) }
        ensures after { OnOk result (self.new ≡ after self.old line.now) }
    {
        let Some((number, body)) = numbered(line) else {
            self.is_clear = false;
            return Ok(None);
        };
        let place = self.take_number(alloc, number)?;
        self.take_body(alloc, place, number, body)?;
        Ok(if is_left_out(body) { None } else { Some(place) })
    }

    /// Takes in that there is a line of the process with this number, and answers its place.
    fn take_number(&mut self, alloc: Global, number: &[u8]) -> Result<usize, AllocError>
        ensures place { IfOk result (λ place. place ≡ place_in self.old number.now) }
        ensures after { OnOk result (self.new ≡ after_number self.old number.now) }
    {
        match self.numbers.place_of(number) {
            Some(place) => {
                if self.processes.at(place).has_ended {
                    self.mix(place);
                }
                Ok(place)
            }
            None => {
                let place = self.processes.len();
                self.add(alloc, number, Origin::Untold)?;
                Ok(place)
            }
        }
    }

    /// Takes in what a line tells of its process.
    fn take_body(
        &mut self,
        alloc: Global,
        place: usize,
        number: &[u8],
        body: &[u8],
    ) -> Result<(), AllocError>
        ensures { OnOk result (self.new ≡ after_body place number.now body.now self.old) }
    {
        self.count(place, body)?;
        if leaves_numbers(body) {
            self.mix(place);
        }
        if is_end(body) {
            self.end(place, number);
            return Ok(());
        }
        match child_of(body) {
            Some(child) => self.begin(alloc, place, child),
            None => Ok(()),
        }
    }

    /// Counts a line, if a share may have it.
    fn count(&mut self, place: usize, body: &[u8]) -> Result<(), AllocError>
        ensures { OnOk result (self.new ≡ with_line place body.now self.old) }
    {
        if is_left_out(body) {
            return Ok(());
        }
        let mut process = self.processes.at(place);
        process.lines = process.lines.checked_add(1).ok_or(AllocError)?;
        self.processes.put(place, process);
        Ok(())
    }

    /// Notes that a process cannot be told from another one.
    fn mix(&mut self, place: usize)
        ensures { self.new ≡ mixed place self.old }
    {
        let mut process = self.processes.at(place);
        process.is_mixed = true;
        self.processes.put(place, process);
    }

    /// Notes that a process has ended. Where it was told who started it, its number is free then.
    fn end(&mut self, place: usize, number: &[u8])
        ensures { self.new ≡ after_end place number.now self.old }
    {
        let mut process = self.processes.at(place);
        process.has_ended = true;
        self.processes.put(place, process);
        if process.is_told() {
            self.numbers.forget(number);
        }
    }

    /// Notes that a process started the one with this number.
    fn begin(&mut self, alloc: Global, by: usize, child: &[u8]) -> Result<(), AllocError>
        ensures { OnOk result (self.new ≡ after_start by child.now self.old) }
    {
        let origin = self.origin_by(by);
        match self.numbers.place_of(child) {
            Some(place) => self.tell(by, place, child, origin),
            None => self.add(alloc, child, origin)?,
        }
        if by == 0 {
            self.commands.push(Bytes::from_slice(alloc, child)?)?;
        }
        Ok(())
    }

    /// How a process comes to be that this one starts.
    fn origin_by(&self, by: usize) -> Origin
        ensures { result ≡ told_by by self.now }
    {
        if by == 0 {
            Origin::Command(self.commands.len())
        } else {
            Origin::Child(by)
        }
    }

    /// Notes who started the process in this place, whose lines were seen before that. Where that was told before, or no line of the one that
    /// started it stands before its own, nobody knows which process that is, and of which one started it.
    fn tell(&mut self, by: usize, place: usize, number: &[u8], origin: Origin)
        ensures { self.new ≡ after_child by place number.now origin self.old }
    {
        let mut process = self.processes.at(place);
        if process.is_told() || place <= by {
            self.mix(place);
            self.mix(by);
            return;
        }
        process.origin = origin;
        self.processes.put(place, process);
        if process.has_ended {
            self.numbers.forget(number);
        }
    }

    /// Adds a process with this number.
    fn add(&mut self, alloc: Global, number: &[u8], origin: Origin) -> Result<(), AllocError>
        ensures { OnOk result (self.new ≡ with_process number.now origin self.old) }
    {
        let place = self.processes.len();
        self.processes.add(Process::new(origin))?;
        self.numbers.add(Numbered {
            number: Bytes::from_slice(alloc, number)?,
            place,
        })
    }
}

impl TakesLines for Families {
    ghost use Rattle.std.specs.Prelude.{◌≡◌};
    ghost use Rattle.shares.specs.Families.{after_all, nothing_yet};

    ghost Read = { λ lines families. families ≡ after_all nothing_yet lines };

    fn take_line(&mut self, alloc: Global, line: &[u8]) -> Result<(), AllocError> {
        self.take(alloc, line)?;
        Ok(())
    }
}
