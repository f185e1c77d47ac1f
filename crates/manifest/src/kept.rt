//! What is kept of the statements read so far.

use indexmap::IndexMap;
use paths::{Line, Lines, Paths};
use scopes::{Block, Rule, Scopes};
use std::alloc::{AllocError, Global};
use std::rc::Rc;
use text::{Path, SharedText, Text};

/// A build statement. Its rule is expanded when all build files are read.
#[derive(Drop)]
pub struct ReadEdge {
    pub file: Rc<Text>,
    /// The line of the statement.
    pub line: usize,
    /// The number of the scope in which it stands.
    pub scope: usize,
    pub rule_name: SharedText,
    /// None for `phony`.
    pub rule: Option<Rc<Rule>>,
    pub block: Block,
}

/// A path of a `default` statement.
#[derive(Drop)]
pub struct ReadDefault {
    pub file: Rc<Text>,
    /// The line of the statement.
    pub line: usize,
    pub path: Path,
}

/// The paths of build lines, as text once each, and as numbers elsewhere.
#[derive(Drop)]
pub struct Named {
    /// The paths that build lines name.
    pub table: Paths,
    /// The paths of each build statement; those of a `phony` one without the inputs that are outputs of its own.
    pub lines: Lines,
}

/// What the statements so far declare.
#[derive(Drop)]
pub struct Declared {
    pub scopes: Scopes,
    pub edges: Vec<ReadEdge>,
    /// How many commands of each pool may run at once.
    pub pools: IndexMap<String, u32>,
    pub defaults: Vec<ReadDefault>,
    pub paths: Named,
    /// Lists into whose room the next build line is read. What they hold is nothing that counts.
    pub room: Line,
}

impl Declared {
    ghost use Rattle.std.specs.Prelude.{IfOk};
    ghost use Rattle.manifest.specs.States.{nothing};
    ghost use Rattle.manifest.specs.Held.{IsStateOf};

    /// Nothing is read yet.
    pub fn new(alloc: Global) -> Result<Declared, AllocError>
        ensures { IfOk result (λ declared. IsStateOf declared nothing) }
    {
        Ok(Declared {
            scopes: Scopes::new(alloc)?,
            edges: Vec::new(alloc),
            pools: IndexMap::new(alloc),
            defaults: Vec::new(alloc),
            paths: Named {
                table: Paths::new(alloc),
                lines: Lines::new(alloc),
            },
            room: Line::new(alloc),
        })
    }
}
