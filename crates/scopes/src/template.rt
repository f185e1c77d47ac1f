//! Rules: the values of their variables, not expanded.

ghost use Rattle.std.specs.Prelude.{◌≡◌, ℕ, List, None, IfOk, OnOk, OnErr};
ghost use Rattle.std.specs.List.{AllZip};
ghost use Rattle.std.specs.Option.{option_copied};
ghost use Rattle.scopes.specs.Texts.{IsPartOf};
ghost use Rattle.scopes.specs.Bindings.{IsBound, AreSameNames};
ghost use Rattle.scopes.specs.Rule.{template_of};

use crate::names::value_of;
use indexmap::IndexMap;
use lexer::{Piece, Value};
use std::alloc::{AllocError, Global};
use text::{Items, Text};

/// A part of a value that is not expanded yet.
#[derive(Debug, Drop)]
pub enum Part {
    /// Characters as they stand.
    Text(Text),
    /// A name that stands for a value.
    Name(Text),
}

/// The value of a rule variable, to be expanded where the rule is used (manual: "Rules").
///
/// It owns its characters, since a rule may outlive the text of the file that declares it.
#[derive(Debug, Drop)]
pub struct Template {
    pub parts: Items<Part>,
}

impl Template {
    /// The template of a value.
    pub fn new(alloc: Global, value: &Value<'_>) -> Result<Template, AllocError>
        ensures { IfOk result (λ template. AllZip IsPartOf value.now.pieces template.parts) }
    {
        let mut parts = Items::new(alloc);
        for piece in value.pieces.as_slice() {
            parts.push(part_of(alloc, piece)?)?;
        }
        Ok(Template { parts })
    }
}

fn part_of(alloc: Global, piece: &Piece<'_>) -> Result<Part, AllocError>
    ensures { IfOk result (IsPartOf piece.now) }
{
    match *piece {
        Piece::Text(text) => Ok(Part::Text(Text::from_str(alloc, text)?)),
        Piece::Name(name) => Ok(Part::Name(Text::from_str(alloc, name)?)),
    }
}

/// What the block of a rule binds (manual: "Rules").
#[derive(Drop)]
pub struct Rule {
    pub variables: IndexMap<String, Template>,
}

impl Rule {
    /// A rule that binds nothing, which takes no memory.
    pub fn new(alloc: Global) -> Rule
        ensures { (name : List ℕ) → template_of result name ≡ None }
    {
        Rule {
            variables: IndexMap::new(alloc),
        }
    }

    /// The template of a variable, where the rule binds it.
    pub fn get(&self, name: &str) -> Option<&Template>
        ensures { option_copied result ≡ template_of self.now name.now }
    {
        value_of(&self.variables, name)
    }

    /// Binds a variable. Of two bindings of one name the last stands. Where memory is refused, the rule stays as it was.
    pub fn bind(&mut self, alloc: Global, name: &str, template: Template) -> Result<(), AllocError>
        ensures ok { OnOk result (IsBound (template_of self.old) (template_of self.new) name.now template) }
        ensures err { OnErr result (AreSameNames (template_of self.old) (template_of self.new)) }
    {
        let name = String::from_str(alloc, name)?;
        self.variables.insert(name, template)?;
        Ok(())
    }
}
