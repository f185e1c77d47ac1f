//! Which processes have which numbers, as far as a trace has come.

ghost use Rattle.std.specs.Prelude.{◌≡◌, ◌<◌, ◌++◌, ◌∷◌, [], IfSome, IfNone, OnOk, length, remove};
ghost use Rattle.shares.specs.Numbers.{place_of, without};

use std::alloc::{AllocError, Global};
use std::marker::Model;
use text::Bytes;

/// The number of a process.
#[derive(Debug, Drop)]
pub struct Numbered {
    /// As the trace writes it.
    pub number: Bytes,
    /// The place of the process.
    pub place: usize,
}

/// The numbers that processes have, which contracts see as a list.
#[derive(Debug, Drop)]
pub struct Numbers {
    items: Vec<Numbered>,
}

impl Model for Numbers {
    ghost use Rattle.std.specs.Prelude.{List};
    ghost use Rattle.shares.specs.declared.numbers.Numbered.{Numbered};

    ghost Value = { List Numbered };

    ghost view = { λ numbers. numbers.items.items };
}

impl Numbers {
    /// None, which takes no memory.
    pub fn new(alloc: Global) -> Numbers
        ensures { result ≡ [] }
    {
        Numbers {
            items: Vec::new(alloc),
        }
    }

    /// The place of the process that has this number, if one has.
    pub fn place_of(&self, number: &[u8]) -> Option<usize>
        ensures { result ≡ place_of number.now self.now }
    {
        for numbered in self.items.as_slice() {
            if numbered.number.as_slice() == number {
                return Some(numbered.place);
            }
        }
        None
    }

    /// Notes that the process in this place has this number.
    pub fn add(&mut self, numbered: Numbered) -> Result<(), AllocError>
        ensures { OnOk result (self.new ≡ self.old ++ numbered ∷ []) }
    {
        self.items.push(numbered)?;
        Ok(())
    }

    /// Forgets who has this number.
    pub fn forget(&mut self, number: &[u8])
        ensures { self.new ≡ without number.now self.old }
    {
        if let Some(index) = index_of(self.items.as_slice(), number) {
            let _ = self.items.remove(index);
        }
    }
}

/// Where it stands who has this number.
fn index_of(items: &[Numbered], number: &[u8]) -> Option<usize>
    ensures within { IfSome result (λ index. index < length items.now) }
    ensures found { IfSome result (λ index. without number.now items.now ≡ remove items.now index) }
    ensures none { IfNone result (without number.now items.now ≡ items.now) }
{
    for (index, numbered) in items.iter().enumerate() {
        if numbered.number.as_slice() == number {
            return Some(index);
        }
    }
    None
}
