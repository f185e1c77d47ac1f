//! The statements of a build file, unexpanded (manual: "Lexical syntax" and "Build statements").

use crate::fault::Fault;
use smallvec::SmallVec;
use std::alloc::{AllocFailed, Global};
use std::marker::Model;
use text::Items;

/// A part of a value as it stands: characters, or a name that stands for a value.
#[derive(Clone, Copy, Debug, PartialEq, Eq)]
pub enum Piece<'a> {
    Text(&'a str),
    Name(&'a str),
}

impl<'a> Default for Piece<'a> {
    fn default() -> Piece<'a> {
        Piece::Text("")
    }
}

/// The pieces of a value, which contracts see as a list. Most values have one, for which no memory is asked.
#[derive(Debug, Drop)]
pub struct FewPieces<'a> {
    pieces: SmallVec<Piece<'a>, 1>,
}

impl<'a> Model for FewPieces<'a> {
    ghost use Rattle.std.specs.Prelude.{List};
    ghost use Rattle.lexer.specs.declared.statement.Piece.{Piece};

    ghost Value = { List Piece };

    ghost view = { λ pieces. pieces.pieces.items };
}

impl<'a> FewPieces<'a> {
    ghost use Rattle.std.specs.Prelude.{◌≡◌, ◌++◌, ◌∷◌, [], OnOk, OnErr};

    /// None, which takes no memory.
    pub fn new(alloc: Global) -> FewPieces<'a>
        ensures { result ≡ [] }
    {
        FewPieces {
            pieces: SmallVec::new(alloc),
        }
    }

    /// The pieces, borrowed.
    pub fn as_slice(&self) -> &[Piece<'a>]
        ensures { result.now ≡ self.now }
    {
        self.pieces.as_slice()
    }

    /// Puts a piece at the end. Where memory is refused, the list stays as it was and the piece comes back.
    pub fn push(&mut self, piece: Piece<'a>) -> Result<(), AllocFailed<Piece<'a>>>
        ensures ok { OnOk result (self.new ≡ self.old ++ piece.entry ∷ []) }
        ensures err { OnErr result (self.new ≡ self.old) }
    {
        self.pieces.push(piece)
    }
}

/// A value or a path as it stands, in pieces that borrow from the text.
#[derive(Debug, Drop)]
pub struct Value<'a> {
    pub pieces: FewPieces<'a>,
}

/// The paths and the rule of a `build` line.
#[derive(Debug, Drop)]
pub struct BuildLine<'a> {
    pub explicit_outputs: Items<Value<'a>>,
    pub implicit_outputs: Items<Value<'a>>,
    pub rule: &'a str,
    pub explicit_inputs: Items<Value<'a>>,
    pub implicit_inputs: Items<Value<'a>>,
    pub order_only_inputs: Items<Value<'a>>,
    pub validations: Items<Value<'a>>,
}

/// What a line says.
#[derive(Debug, Drop)]
pub enum Statement<'a> {
    /// `name = value` at the beginning of a line.
    Binding { name: &'a str, value: Value<'a> },
    /// `name = value` in the block of the statement above it.
    BlockBinding { name: &'a str, value: Value<'a> },
    /// `rule NAME`
    Rule { name: &'a str },
    /// `build OUTPUTS: RULE INPUTS`
    Build(BuildLine<'a>),
    /// `pool NAME`
    Pool { name: &'a str },
    /// `default PATHS`
    Default { paths: Items<Value<'a>> },
    /// `include PATH`
    Include { path: Value<'a> },
    /// `subninja PATH`
    Subninja { path: Value<'a> },
}

/// A statement, and the line in which it begins.
#[derive(Debug, Drop)]
pub struct Line<'a> {
    /// The number of the line, from 1.
    pub number: usize,
    pub statement: Statement<'a>,
}

/// The statements before the first fault of a text, and that fault.
#[derive(Debug, Drop)]
pub struct Statements<'a> {
    pub lines: Items<Line<'a>>,
    pub fault: Option<Fault>,
}
