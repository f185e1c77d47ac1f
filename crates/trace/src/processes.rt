//! The processes that run, as far as a trace has come.

ghost use Rattle.std.specs.Prelude.{◌≡◌, ◌<◌, [], IfOk, IfSome, IfNone, OnOk, is_some, length, option_map, remove};
ghost use Rattle.trace.specs.Processes.{all_start_as, begins_to_start, first_forking, fresh, is_calling, is_forking, is_listed, is_none, is_same, known_of, known_or_new, lends_place, newcomer, parent_of, put, starts_as, with_child, without};

use crate::marks::has;
use std::alloc::{AllocError, Global};
use std::marker::Model;
use text::Bytes;

/// What is known of a process.
#[derive(Debug, Drop)]
pub struct Known {
    /// Its number, as the trace writes it.
    pub number: Bytes,
    /// The folder that it is in, where that is known.
    pub folder: Option<Bytes>,
    /// What was written of a call that has not ended yet.
    pub begun: Option<Bytes>,
    /// Whether another one may take it to another folder.
    pub shares: bool,
}

/// A copy of a text, if there is one.
pub fn copied(text: &Option<Bytes>) -> Result<Option<Bytes>, AllocError>
    ensures { IfOk result (λ copy. copy ≡ text.now) }
{
    match text {
        Some(text) => Ok(Some(text.clone()?)),
        None => Ok(None),
    }
}

impl Known {
    /// The process with this number, of which nothing else is known yet.
    pub fn new(number: Bytes, folder: Option<Bytes>, shares: bool) -> Known
        ensures { result ≡ fresh number folder shares }
    {
        Known {
            number,
            folder,
            begun: None,
            shares,
        }
    }

    /// A copy of its own.
    pub fn copy(&self) -> Result<Known, AllocError>
        ensures { IfOk result (λ copy. copy ≡ self.now) }
    {
        Ok(Known {
            number: self.number.clone()?,
            folder: copied(&self.folder)?,
            begun: copied(&self.begun)?,
            shares: self.shares,
        })
    }

    /// Whether it has begun to start another one.
    fn is_forking(&self) -> bool
        ensures { result ≡ is_forking self.now }
    {
        match &self.begun {
            Some(begun) => begins_to_start(begun.as_slice()),
            None => false,
        }
    }

    /// Whether the one that it has begun to start may take it to another folder.
    fn lends_place(&self) -> bool
        ensures { result ≡ lends_place self.now }
    {
        match &self.begun {
            Some(begun) => has(begun.as_slice(), b"CLONE_FS"),
            None => false,
        }
    }

    /// Whether a process that this one starts is where one is that the other starts.
    fn starts_as(&self, other: &Known) -> bool
        ensures { result ≡ starts_as other.now self.now }
    {
        is_same(&self.folder, &other.folder) && (!self.lends_place() || other.lends_place())
    }
}

/// Whether what was written of a call begins to start a process.
fn begins_to_start(begun: &[u8]) -> bool
    ensures { result ≡ begins_to_start begun.now }
{
    begun.starts_with(b"clone") || begun.starts_with(b"fork(") || begun.starts_with(b"vfork(")
}

/// Whether both texts are the same, or neither is there.
fn is_same(one: &Option<Bytes>, other: &Option<Bytes>) -> bool
    ensures { result ≡ is_same one.now other.now }
{
    match (one, other) {
        (Some(one), Some(other)) => one == other,
        (None, None) => true,
        _ => false,
    }
}

/// The processes that run, which contracts see as a list of what is known of each.
#[derive(Debug, Drop)]
pub struct Processes {
    known: Vec<Known>,
}

impl Model for Processes {
    ghost use Rattle.std.specs.Prelude.{List};
    ghost use Rattle.trace.specs.declared.processes.Known.{Known};

    ghost Value = { List Known };

    ghost view = { λ processes. processes.known.items };
}

impl Processes {
    /// None, which takes no memory.
    pub fn new(alloc: Global) -> Processes
        ensures { result ≡ [] }
    {
        Processes {
            known: Vec::new(alloc),
        }
    }

    /// Whether none runs.
    pub fn is_empty(&self) -> bool
        ensures { result ≡ is_none self.now }
    {
        self.known.is_empty()
    }

    /// What is known of the process with this number: what was seen of it, else what is known of the one that starts it. The first of all is
    /// in the folder where the trace begins.
    pub fn known(&self, alloc: Global, start: &[u8], number: &[u8]) -> Result<Known, AllocError>
        ensures { IfOk result (λ known. known ≡ known_or_new start.now number.now self.now) }
    {
        let processes = self.known.as_slice();
        match find(processes, number) {
            Some(known) => known.copy(),
            None => newcomer(alloc, start, number, processes),
        }
    }

    /// Whether the process with this number is in a call that was not written to its end.
    pub fn is_calling(&self, number: &[u8]) -> bool
        ensures { result ≡ is_calling number.now self.now }
    {
        match find(self.known.as_slice(), number) {
            Some(known) => known.begun.is_some(),
            None => false,
        }
    }

    /// Forgets the process with this number.
    pub fn forget(&mut self, number: &[u8])
        ensures { self.new ≡ without number.now self.old }
    {
        if let Some(place) = place_of(self.known.as_slice(), number) {
            let _ = self.known.remove(place);
        }
    }

    /// Notes what is known of a process, in place of what was known of it. Where memory is refused, nothing is known of it.
    pub fn put(&mut self, known: Known) -> Result<(), AllocError>
        ensures { OnOk result (self.new ≡ put known self.old) }
    {
        self.forget(known.number.as_slice());
        self.known.push(known)?;
        Ok(())
    }

    /// Whether one has begun to start another one.
    pub fn is_starting(&self) -> bool
        ensures { result ≡ is_some (first_forking self.now) }
    {
        first_forking(self.known.as_slice()).is_some()
    }

    /// Notes a process that was started, unless it was seen before.
    pub fn add(&mut self, known: Known) -> Result<(), AllocError>
        ensures { OnOk result (self.new ≡ with_child known self.old) }
    {
        if find(self.known.as_slice(), known.number.as_slice()).is_none() {
            self.known.push(known)?;
        }
        Ok(())
    }
}

/// Whether the number is one of these.
pub fn is_listed(number: &[u8], numbers: &[Bytes]) -> bool
    ensures { result ≡ is_listed number.now numbers.now }
{
    for other in numbers {
        if other.as_slice() == number {
            return true;
        }
    }
    false
}

/// What is known of the process with this number, if it was seen.
fn find<'k>(processes: &'k [Known], number: &[u8]) -> Option<&'k Known>
    ensures { option_map (λ known. known.now) result ≡ known_of number.now processes.now }
{
    for known in processes {
        if known.number.as_slice() == number {
            return Some(known);
        }
    }
    None
}

/// The place of the process with this number.
fn place_of(processes: &[Known], number: &[u8]) -> Option<usize>
    ensures within { IfSome result (λ place. place < length processes.now) }
    ensures found { IfSome result (λ place. without number.now processes.now ≡ remove processes.now place) }
    ensures none { IfNone result (without number.now processes.now ≡ processes.now) }
{
    for (place, known) in processes.iter().enumerate() {
        if known.number.as_slice() == number {
            return Some(place);
        }
    }
    None
}

/// What is known of a process that was not seen yet.
fn newcomer(
    alloc: Global,
    start: &[u8],
    number: &[u8],
    processes: &[Known],
) -> Result<Known, AllocError>
    ensures { IfOk result (λ known. known ≡ newcomer start.now number.now processes.now) }
{
    let number = Bytes::from_slice(alloc, number)?;
    if processes.is_empty() {
        let folder = Some(Bytes::from_slice(alloc, start)?);
        return Ok(Known::new(number, folder, false));
    }
    match parent_of(processes) {
        Some(parent) => {
            let folder = copied(&parent.folder)?;
            Ok(Known::new(number, folder, parent.lends_place()))
        }
        None => Ok(Known::new(number, None, false)),
    }
}

/// A process that has begun to start another one, where all that have lead to the same.
fn parent_of(processes: &[Known]) -> Option<&Known>
    ensures { option_map (λ known. known.now) result ≡ parent_of processes.now }
{
    let first = first_forking(processes)?;
    if all_start_as(first, processes) {
        return Some(first);
    }
    None
}

/// The first process that has begun to start another one.
fn first_forking(processes: &[Known]) -> Option<&Known>
    ensures { option_map (λ known. known.now) result ≡ first_forking processes.now }
{
    for known in processes {
        if known.is_forking() {
            return Some(known);
        }
    }
    None
}

/// Whether what each starts is where that is which this one starts.
fn all_start_as(first: &Known, processes: &[Known]) -> bool
    ensures { result ≡ all_start_as first.now processes.now }
{
    for known in processes {
        if known.is_forking() && !known.starts_as(first) {
            return false;
        }
    }
    true
}
