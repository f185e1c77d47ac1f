//! The lines of a trace, handed to the commands that they are of.

ghost use Rattle.std.specs.Prelude.{◌≡◌, ◌<◌, ◌++◌, ◌∷◌, [], IfOk, IfSome, IfNone, OnOk, get_or, length, remove};
ghost use Rattle.shares.specs.Families.{nothing_yet};
ghost use Rattle.shares.specs.Sharing.{command_of, no_share, read_more, shared, shared_of, shares_of, text_of, told, told_of, without_open};

use crate::families::Families;
use crate::owners::{Left, Owned, owned_of, owner_at};
use std::alloc::{AllocError, Global};
use std::marker::Model;
use text::{Bytes, Items};

/// All lines of a command, in their order.
#[derive(Debug, Drop)]
pub struct Share {
    /// How many commands were started before it.
    pub command: usize,
    pub text: Bytes,
}

/// The lines so far of commands of which more is to come, which contracts see as a list.
#[derive(Debug, Drop)]
pub struct Open {
    items: Vec<Share>,
}

impl Model for Open {
    ghost use Rattle.std.specs.Prelude.{List};
    ghost use Rattle.shares.specs.declared.sharing.Share.{Share};

    ghost Value = { List Share };

    ghost view = { λ begun. begun.items.items };
}

impl Open {
    fn new(alloc: Global) -> Open
        ensures { result ≡ [] }
    {
        Open {
            items: Vec::new(alloc),
        }
    }

    /// Takes out what there is of a command.
    fn take(&mut self, alloc: Global, command: usize) -> Bytes
        ensures text { result ≡ text_of command self.old }
        ensures left { self.new ≡ without_open command self.old }
    {
        match index_of(self.items.as_slice(), command) {
            Some(index) => {
                let Share { text, .. } = self.items.remove(index);
                text
            }
            None => Bytes::new(alloc),
        }
    }

    fn add(&mut self, share: Share) -> Result<(), AllocError>
        ensures { OnOk result (self.new ≡ self.old ++ share ∷ []) }
    {
        self.items.push(share)?;
        Ok(())
    }
}

/// Where the lines of a command stand.
fn index_of(items: &[Share], command: usize) -> Option<usize>
    ensures within { IfSome result (λ index. index < length items.now) }
    ensures found { IfSome result (λ index. without_open command items.now ≡ remove items.now index) }
    ensures none { IfNone result (without_open command items.now ≡ items.now) }
    ensures text { IfSome result (λ index. text_of command items.now ≡ (get_or items.now index no_share).text) }
    ensures no_text { IfNone result (text_of command items.now ≡ []) }
{
    for (index, share) in items.iter().enumerate() {
        if share.command == command {
            return Some(index);
        }
    }
    None
}

/// The lines of a trace that is read once more, and what was told by the first reading: whose each process is, and how many lines each command
/// has. It holds the lines of those commands of which more is to come.
#[derive(Debug, Drop)]
pub struct Shares {
    pub families: Families,
    pub owners: Items<Option<usize>>,
    pub left: Left,
    pub begun: Open,
}

impl Shares {
    /// Nothing was read once more, of a trace that tells this. Where a line was not read, no command has a share.
    pub fn new(alloc: Global, families: &Families) -> Result<Shares, AllocError>
        ensures { IfOk result (λ shares. shares ≡ shares_of families.now) }
    {
        let commands = if families.is_clear {
            families.commands.len()
        } else {
            0
        };
        let Owned { owners, left } = owned_of(alloc, commands, families.processes.as_slice())?;
        Ok(Shares {
            families: Families::new(alloc),
            owners,
            left,
            begun: Open::new(alloc),
        })
    }

    /// Reads a line more, and answers all lines of a command if this is its last one. Where memory is refused, what was read counts for nothing.
    pub fn take_line(&mut self, alloc: Global, line: &[u8]) -> Result<Option<Share>, AllocError>
        ensures told { IfOk result (λ share. share ≡ told self.old line.now) }
        ensures shared { OnOk result (self.new ≡ shared self.old line.now) }
    {
        match self.command_of(alloc, line)? {
            Some(command) => self.hand(alloc, command, line),
            None => Ok(None),
        }
    }

    /// Whose a line is that is read.
    fn command_of(&mut self, alloc: Global, line: &[u8]) -> Result<Option<usize>, AllocError>
        ensures command { IfOk result (λ command. command ≡ command_of self.old line.now) }
        ensures read { OnOk result (self.new ≡ read_more self.old line.now) }
    {
        let place = self.families.take(alloc, line)?;
        match place {
            Some(place) => Ok(owner_at(self.owners.as_slice(), place)),
            None => Ok(None),
        }
    }

    /// Puts a line behind those of its command, if that has lines left.
    fn hand(
        &mut self,
        alloc: Global,
        command: usize,
        line: &[u8],
    ) -> Result<Option<Share>, AllocError>
        ensures told { IfOk result (λ share. share ≡ told_of command line.now self.old) }
        ensures shared { OnOk result (self.new ≡ shared_of command line.now self.old) }
    {
        let Some(left) = self.left.of(command) else {
            return Ok(None);
        };
        if left == 0 {
            return Ok(None);
        }
        let mut text = self.begun.take(alloc, command).into_vec();
        text.extend_from_slice(line)?;
        text.push(b'\n').map_err(AllocError::from)?;
        self.left.put(command, Some(left - 1));
        let share = Share {
            command,
            text: Bytes::from_vec(text),
        };
        if left == 1 {
            return Ok(Some(share));
        }
        self.begun.add(share)?;
        Ok(None)
    }
}
