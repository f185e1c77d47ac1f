//! Whose each process is, and how many lines each command has.

ghost use Rattle.std.specs.Prelude.{◌≡◌, Some, IfOk, OnOk, get_or, replicate, set};
ghost use Rattle.shares.specs.Owners.{more_left, no_left, none_owned, owned_all, owned_more, owner_at, owner_in};

use crate::processes::{Origin, Process};
use std::alloc::{AllocError, Global};
use std::marker::Model;
use text::Items;

/// How many lines are left of each command; none of one of whose processes not all is known. Contracts see it as a list.
#[derive(Debug, Drop)]
pub struct Left {
    items: Vec<Option<u64>>,
}

impl Model for Left {
    ghost use Rattle.std.specs.Prelude.{List, Option, ℕ};

    ghost Value = { List (Option ℕ) };

    ghost view = { λ left. left.items.items };
}

impl Left {
    /// So many commands, of which no line is left.
    pub fn new(alloc: Global, commands: usize) -> Result<Left, AllocError>
        ensures { IfOk result (λ left. left ≡ replicate commands (Some 0)) }
    {
        Ok(Left {
            items: vec![in alloc; Some(0u64); commands]?,
        })
    }

    /// How many are left of this command.
    pub fn of(&self, command: usize) -> Option<u64>
        ensures { result ≡ get_or self.now command no_left }
    {
        match self.items.get(command) {
            Some(left) => *left,
            None => None,
        }
    }

    /// Sets it.
    pub fn put(&mut self, command: usize, left: Option<u64>)
        ensures { self.new ≡ set self.old command left }
    {
        if command < self.items.len() {
            self.items[command] = left;
        }
    }
}

/// Whose each process is, and how many lines each command has.
#[derive(Debug, Drop)]
pub struct Owned {
    /// The command of each process, by the order in which commands were started.
    pub owners: Items<Option<usize>>,
    pub left: Left,
}

/// Whose each of these processes is, where so many commands were started.
pub fn owned_of(alloc: Global, commands: usize, processes: &[Process]) -> Result<Owned, AllocError>
    ensures { IfOk result (λ owned. owned ≡ owned_all processes.now (none_owned commands)) }
{
    let mut owned = Owned {
        owners: Items::new(alloc),
        left: Left::new(alloc, commands)?,
    };
    for process in processes {
        owned.add(*process)?;
    }
    Ok(owned)
}

impl Owned {
    /// Takes in a process more.
    fn add(&mut self, process: Process) -> Result<(), AllocError>
        ensures { OnOk result (self.new ≡ owned_more process self.old) }
    {
        let owner = owner_in(self.owners.as_slice(), process);
        self.owners.push(owner)?;
        if let Some(command) = owner {
            let left = more_left(process, self.left.of(command))?;
            self.left.put(command, left);
        }
        Ok(())
    }
}

/// Whose a process is, where it is known whose each one before it is.
fn owner_in(owners: &[Option<usize>], process: Process) -> Option<usize>
    ensures { result ≡ owner_in owners.now process }
{
    match process.origin {
        Origin::Untold => None,
        Origin::Command(command) => Some(command),
        Origin::Child(place) => owner_at(owners, place),
    }
}

/// Whose the process in this place is.
pub fn owner_at(owners: &[Option<usize>], place: usize) -> Option<usize>
    ensures { result ≡ owner_at place owners.now }
{
    match owners.get(place) {
        Some(owner) => *owner,
        None => None,
    }
}

/// How many lines a command has with those of this process.
fn more_left(process: Process, left: Option<u64>) -> Result<Option<u64>, AllocError>
    ensures { IfOk result (λ more. more ≡ more_left process left) }
{
    match left {
        Some(left) => {
            if !process.is_fine() {
                return Ok(None);
            }
            Ok(Some(left.checked_add(process.lines).ok_or(AllocError)?))
        }
        None => Ok(None),
    }
}
