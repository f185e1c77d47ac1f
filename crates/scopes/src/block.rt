//! What the block of a build statement binds.

ghost use Rattle.std.specs.Prelude.{◌≡◌, ℕ, List, None, OnOk, OnErr};
ghost use Rattle.std.specs.Option.{option_copied};
ghost use Rattle.scopes.specs.Bindings.{IsBound, AreSameNames};
ghost use Rattle.scopes.specs.Block.{block_value, last_value, first_value, other_value};
ghost use Rattle.scopes.specs.Marks.{AreMarked};

use crate::marks::{Marks, marks_of};
use crate::names::{FEW, is_same};
use indexmap::IndexMap;
use std::alloc::{AllocError, Global};
use text::Text;

/// A name, and what it stands for.
#[derive(Drop)]
pub struct Bound {
    pub name: Text,
    pub value: Text,
}

/// The values that the block of a build statement binds, expanded (manual: "Build statements").
///
/// Most blocks bind a name or a few. So the first stands here itself, and only behind many is there a table, whose memory would
/// cost more than all else that is read of the statement.
#[derive(Drop)]
pub struct Block {
    /// What was bound first.
    first: Option<Bound>,
    /// What was bound behind it.
    few: Vec<Bound>,
    /// What was bound behind these.
    others: Option<Box<IndexMap<String, Text>>>,
}

impl Block {
    /// A block that binds nothing, which takes no memory.
    pub fn new(alloc: Global) -> Block
        ensures { (name : List ℕ) → block_value result name ≡ None }
    {
        Block {
            first: None,
            few: Vec::new(alloc),
            others: None,
        }
    }

    /// The value of a name, where the block binds it.
    pub fn get(&self, name: &str) -> Option<&Text>
        ensures { option_copied result ≡ block_value self.now name.now }
    {
        if let Some(others) = &self.others {
            if let Some(value) = others.get(name) {
                return Some(value);
            }
        }
        if let Some(value) = last_value(&self.few, name) {
            return Some(value);
        }
        first_value(&self.first, name)
    }

    /// Binds a name. Of two bindings of one name the last stands. Where memory is refused, the block stays as it was.
    pub fn bind(&mut self, alloc: Global, name: &str, value: Text) -> Result<(), AllocError>
        ensures ok { OnOk result (IsBound (block_value self.old) (block_value self.new) name.now value) }
        ensures err { OnErr result (AreSameNames (block_value self.old) (block_value self.new)) }
    {
        if self.others.is_some() || self.few.len() >= FEW {
            return self.bind_other(alloc, name, value);
        }
        let name = Text::from_str(alloc, name)?;
        let bound = Bound { name, value };
        if self.first.is_none() && self.few.is_empty() {
            self.first = Some(bound);
            return Ok(());
        }
        self.few.push(bound)?;
        Ok(())
    }

    /// The keys of the names that it binds.
    pub(crate) fn marks(&self) -> Marks
        ensures { AreMarked (block_value self.now) result }
    {
        let few = few_marks(self.few.as_slice()).and(first_marks(&self.first));
        self.others_marks().and(few)
    }

    /// The keys of the names of the table.
    fn others_marks(&self) -> Marks
        ensures { AreMarked (other_value self.now) result }
    {
        match &self.others {
            Some(others) => marks_of(others),
            None => Marks::NONE,
        }
    }

    /// Binds a name in the table.
    fn bind_other(&mut self, alloc: Global, name: &str, value: Text) -> Result<(), AllocError>
        ensures ok { OnOk result (IsBound (block_value self.old) (block_value self.new) name.now value) }
        ensures err { OnErr result (AreSameNames (block_value self.old) (block_value self.new)) }
    {
        let name = String::from_str(alloc, name)?;
        match &mut self.others {
            Some(others) => {
                others.insert(name, value)?;
            }
            None => {
                let mut others = IndexMap::new(alloc);
                others.insert(name, value)?;
                self.others = Some(Box::new(alloc, others)?);
            }
        }
        Ok(())
    }
}

/// The value of the last of these that has the name.
fn last_value<'a>(bound: &'a [Bound], name: &str) -> Option<&'a Text>
    ensures { option_copied result ≡ last_value bound.now name.now }
{
    let mut rest = bound;
    while let Some((last, front)) = rest.split_last() {
        if is_same(last.name.as_str(), name) {
            return Some(&last.value);
        }
        rest = front;
    }
    None
}

/// The value of what is bound first, where that has the name.
fn first_value<'a>(first: &'a Option<Bound>, name: &str) -> Option<&'a Text>
    ensures { option_copied result ≡ first_value first.now name.now }
{
    match first {
        Some(bound) if is_same(bound.name.as_str(), name) => Some(&bound.value),
        _ => None,
    }
}

/// The keys of the names of these.
fn few_marks(few: &[Bound]) -> Marks
    ensures { AreMarked (last_value few.now) result }
{
    let mut marks = Marks::NONE;
    for bound in few {
        marks = marks.with(bound.name.as_str());
    }
    marks
}

/// The key of the name of what is bound first.
fn first_marks(first: &Option<Bound>) -> Marks
    ensures { AreMarked (first_value first.now) result }
{
    match first {
        Some(bound) => Marks::NONE.with(bound.name.as_str()),
        None => Marks::NONE,
    }
}
