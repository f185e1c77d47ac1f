//! The use of a rule by an edge.

ghost use Rattle.std.specs.Prelude.{◌≡◌, ◌==◌, true, false, None, Some, codes, IsTrue, ◌↔◌, ◌||◌};
ghost use Rattle.std.specs.Option.{option_copied, option_map};
ghost use Rattle.scopes.specs.Use.{opened, paths_for, is_special, is_unquoted};

use crate::block::Block;
use crate::template::{Rule, Template};

/// The explicit inputs and outputs of an edge, in one spelling.
#[derive(Clone, Copy)]
pub struct Paths<'a> {
    pub inputs: &'a [&'a str],
    pub outputs: &'a [&'a str],
}

/// The use of a rule by a build statement.
#[derive(Clone, Copy)]
pub struct Use<'a> {
    /// The number of the scope in which the build statement stands.
    pub scope: usize,
    pub block: &'a Block,
    pub rule: &'a Rule,
    /// The paths as they are.
    pub plain: Paths<'a>,
    /// The same paths, each quoted for a command.
    pub quoted: Paths<'a>,
}

/// Whether the name stands for paths of the edge.
fn is_special(name: &str) -> bool
    ensures { result ≡ is_special name.now }
{
    begins_as_special(name) && matches!(name, "in" | "out" | "in_newline")
}

/// Whether the name begins as those that stand for paths, which few others do.
#[inline(always)]
pub fn begins_as_special(name: &str) -> bool
    ensures { result ≡ false → is_special name.now ≡ false }
{
    match name.as_bytes() {
        [first, ..] => is_i_or_o(*first),
        [] => false,
    }
}

#[inline(always)]
fn is_i_or_o(byte: u8) -> bool
    ensures { result ≡ (byte == 105 || byte == 111) }
{
    matches!(byte, b'i' | b'o')
}

/// Whether the value asked for is a path itself, so that paths in it are not quoted.
fn is_unquoted(name: &str) -> bool
    ensures { result ≡ is_unquoted name.now }
{
    matches!(name, "depfile" | "dyndep" | "rspfile")
}

impl<'a> Use<'a> {
    /// The paths as they stand in the value that is asked for.
    pub fn paths_for(&self, asked: &str) -> Paths<'a>
        ensures { result ≡ paths_for self.now asked.now }
    {
        if is_unquoted(asked) {
            self.plain
        } else {
            self.quoted
        }
    }

    /// The text of the rule that a name stands for in this use; none where it stands for anything else.
    pub fn template(&self, name: &str) -> Option<&'a Template>
        ensures { option_copied result ≡ opened self.now name.now }
    {
        if is_special(name) || self.block.get(name).is_some() {
            return None;
        }
        self.rule.get(name)
    }
}
