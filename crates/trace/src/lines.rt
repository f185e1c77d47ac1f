//! The lines of a trace: which process made a call, and what is known behind it.

ghost use Rattle.std.specs.Prelude.{◌≡◌, ◌++◌, [], IfOk, OnOk, Some, None, option_map, if◌then◌else◌};
ghost use Rattle.trace.specs.Marks.{both};
ghost use Rattle.trace.specs.Lines.{after, after_body, after_call, after_end, after_step, after_text, begins_call, is_end, numbered, nothing_yet, settled, stepped, whole, with_started, without_ended};

use crate::fact::Fact;
use crate::marks::{cut, skip_blanks};
use crate::parts::call_of;
use crate::processes::{Known, Processes, is_listed};
use crate::steps::{Step, step_of};
use std::alloc::{AllocError, Global};
use text::{Bytes, Items};

/// How far a trace was read: the processes that run, and what was done.
#[derive(Debug, Drop)]
pub struct Reached {
    pub processes: Processes,
    /// The numbers of those that have ended while another one was in a call that starts one.
    pub ended: Items<Bytes>,
    pub facts: Items<Fact>,
}

/// The number of the process of a line, and what it tells of it.
fn numbered(line: &[u8]) -> Option<(&[u8], &[u8])>
    ensures { option_map both result ≡ numbered line.now }
{
    let (number, rest) = cut(line, b" ")?;
    Some((number, skip_blanks(rest)))
}

/// Whether it tells that the process has ended, by itself or by a signal.
fn is_end(body: &[u8]) -> bool
    ensures { result ≡ is_end body.now }
{
    body.starts_with(b"+++ exited with ") || body.starts_with(b"+++ killed by ")
}

impl Reached {
    /// Nothing was read. This takes no memory.
    pub fn new(alloc: Global) -> Reached
        ensures { result ≡ nothing_yet }
    {
        Reached {
            processes: Processes::new(alloc),
            ended: Items::new(alloc),
            facts: Items::new(alloc),
        }
    }

    /// Reads a line more: whether it is understood. Where it is not, or memory is refused, what was reached counts for nothing.
    pub fn take_line(
        &mut self,
        alloc: Global,
        start: &[u8],
        line: &[u8],
    ) -> Result<bool, AllocError>
        ensures { IfOk result (λ is. after start.now self.old line.now ≡ (if is then Some self.new else None)) }
    {
        match numbered(line) {
            Some((number, body)) => self.take_body(alloc, start, number, body),
            None => Ok(false),
        }
    }

    /// Reads what a line tells of a process.
    fn take_body(
        &mut self,
        alloc: Global,
        start: &[u8],
        number: &[u8],
        body: &[u8],
    ) -> Result<bool, AllocError>
        ensures { IfOk result (λ is. after_body start.now self.old (number.now, body.now) ≡ (if is then Some self.new else None)) }
    {
        if is_end(body) {
            return self.take_end(alloc, number);
        }
        if body.starts_with(b"--- ") {
            return Ok(true);
        }
        let known = self.processes.known(alloc, start, number)?;
        self.take_text(alloc, known, body)
    }

    /// Notes that a process has ended: whether it was in no call.
    fn take_end(&mut self, alloc: Global, number: &[u8]) -> Result<bool, AllocError>
        ensures { IfOk result (λ is. after_end self.old number.now ≡ (if is then Some self.new else None)) }
    {
        if self.processes.is_calling(number) {
            return Ok(false);
        }
        self.note_end(alloc, Bytes::from_slice(alloc, number)?)?;
        Ok(true)
    }

    /// Forgets a process that has ended, but for its number.
    fn note_end(&mut self, alloc: Global, number: Bytes) -> Result<(), AllocError>
        ensures { OnOk result (self.new ≡ settled (without_ended self.old number)) }
    {
        self.processes.forget(number.as_slice());
        self.ended.push(number)?;
        self.settle(alloc);
        Ok(())
    }

    /// Forgets which processes have ended, unless one is in a call that starts one.
    fn settle(&mut self, alloc: Global)
        ensures { self.new ≡ settled self.old }
    {
        if !self.processes.is_starting() {
            self.ended = Items::new(alloc);
        }
    }

    /// Reads what a line tells of a call, begins to tell or ends to tell.
    fn take_text(&mut self, alloc: Global, known: Known, body: &[u8]) -> Result<bool, AllocError>
        ensures { IfOk result (λ is. after_text self.old known body.now ≡ (if is then Some self.new else None)) }
    {
        if body.starts_with(b"<... ") {
            return match whole(alloc, &known, body)? {
                Some(text) => self.take_call(alloc, &known, text.as_slice()),
                None => Ok(false),
            };
        }
        match cut(body, b" <unfinished ...>") {
            Some((front, rest)) => {
                if !rest.is_empty() {
                    return Ok(false);
                }
                self.take_beginning(alloc, known, front)
            }
            None => self.take_call(alloc, &known, body),
        }
    }

    /// Notes what was written of a call that has not ended.
    fn take_beginning(
        &mut self,
        alloc: Global,
        known: Known,
        front: &[u8],
    ) -> Result<bool, AllocError>
        ensures { IfOk result (λ is. Some (begins_call self.old known front.now) ≡ (if is then Some self.new else None)) }
    {
        let mut known = known;
        known.begun = Some(Bytes::from_slice(alloc, front)?);
        self.processes.put(known)?;
        Ok(true)
    }

    /// Reads a call.
    fn take_call(&mut self, alloc: Global, known: &Known, text: &[u8]) -> Result<bool, AllocError>
        ensures { IfOk result (λ is. after_call self.old known.now text.now ≡ (if is then Some self.new else None)) }
    {
        let Some(call) = call_of(text) else {
            return Ok(false);
        };
        match step_of(alloc, known, &call)? {
            Some(step) => {
                self.take_step(known.number.clone()?, step)?;
                self.settle(alloc);
                Ok(true)
            }
            None => Ok(false),
        }
    }

    /// Notes what a call did.
    fn take_step(&mut self, number: Bytes, step: Step) -> Result<(), AllocError>
        ensures { OnOk result (self.new ≡ stepped self.old number step) }
    {
        let Step {
            folder,
            shares,
            child,
            facts,
        } = step;
        self.processes.put(Known {
            number,
            folder,
            begun: None,
            shares,
        })?;
        if let Some(child) = child {
            self.add(child)?;
        }
        push_all(&mut self.facts, facts)
    }

    /// Notes a process that was started, unless it was seen before.
    fn add(&mut self, child: Known) -> Result<(), AllocError>
        ensures processes { OnOk result (self.new.processes ≡ with_started self.old.ended child self.old.processes) }
        ensures ended { self.new.ended ≡ self.old.ended }
        ensures facts { self.new.facts ≡ self.old.facts }
    {
        if !is_listed(child.number.as_slice(), self.ended.as_slice()) {
            self.processes.add(child)?;
        }
        Ok(())
    }
}

/// Puts all of these behind the others.
fn push_all(facts: &mut Items<Fact>, more: Items<Fact>) -> Result<(), AllocError>
    ensures { OnOk result (facts.new ≡ facts.old ++ more) }
{
    for fact in more.into_vec() {
        facts.push(fact)?;
    }
    Ok(())
}

/// A call whose beginning was written on an earlier line.
fn whole(alloc: Global, known: &Known, body: &[u8]) -> Result<Option<Bytes>, AllocError>
    ensures { IfOk result (λ text. text ≡ whole known.now.begun body.now) }
{
    let Some(front) = &known.begun else {
        return Ok(None);
    };
    let Some((_, rest)) = cut(body, b" resumed>") else {
        return Ok(None);
    };
    let mut text = Vec::from_slice(alloc, front.as_slice())?;
    text.extend_from_slice(rest)?;
    Ok(Some(Bytes::from_vec(text)))
}
