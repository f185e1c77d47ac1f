//! What build files declare, as tools see it.

ghost use Rattle.std.specs.Prelude.{◌≡◌, get_or};
ghost use Rattle.std.specs.Option.{option_map};
ghost use Rattle.paths.specs.Commands.{no_action};
ghost use Rattle.tools.specs.Files.{command_at, rule_of};

use graph::Graph;
use manifest::Described;
use paths::{Action, Command, EdgeId};
use records::Records;

/// The graph of what build files declare, and what is told beside it.
#[derive(Drop)]
pub struct Declared {
    pub graph: Graph,
    pub described: Described,
}

impl Declared {
    /// The command of the edge; none for an alias, and for what is no edge.
    pub fn command(&self, edge: EdgeId) -> Option<&Command>
        ensures { option_map (λ command. command.now) result ≡ command_at (get_or self.now.graph.manifest.actions edge no_action) }
    {
        if edge.index() >= self.graph.edges() {
            return None;
        }
        match self.graph.manifest.action(edge) {
            Action::Alias => None,
            Action::Command(command) => Some(command),
        }
    }

    /// The name of the rule of the edge.
    pub fn rule(&self, edge: EdgeId) -> &str
        ensures { result.now ≡ rule_of self.now edge }
    {
        self.described.rule(edge)
    }
}

/// What build files declare, and what logs tell of it.
#[derive(Clone, Copy)]
pub struct Logged<'a> {
    pub declared: &'a Declared,
    pub records: &'a Records,
}

impl<'a> Logged<'a> {
    pub fn new(declared: &'a Declared, records: &'a Records) -> Logged<'a> {
        Logged { declared, records }
    }
}
