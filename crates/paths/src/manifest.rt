//! What build files declare, in numbers.

ghost use Rattle.std.specs.Prelude.{◌≡◌, ◌<◌, ◌≤◌, ◌^◌, ℕ, true, length, get_or};
ghost use Rattle.model.specs.Graph.{has_number};
ghost use Rattle.paths.specs.Lists.{all_paths};
ghost use Rattle.paths.specs.Commands.{dyndep_stop, no_action};

use crate::id::{EdgeId, PathId};
use crate::lines::Lines;
use crate::table::Paths;
use model::{Act, Deps, Pool};
use text::{Items, Text};

/// What an edge with a command does.
#[derive(Debug, Drop)]
pub struct Command {
    pub act: Act,
    /// What is shown in place of the command, where it is not empty.
    pub description: Text,
    pub deps: Deps,
    /// Whether outputs that the command left alone count as unchanged.
    pub restat: bool,
    /// The pool in which the command runs.
    pub pool: Option<Text>,
    /// The file that tells more inputs and outputs (manual: "Dynamic Dependencies").
    pub dyndep: Option<PathId>,
}

/// What an edge does.
#[derive(Debug, Drop)]
pub enum Action {
    /// Nothing: it is a name for its inputs (manual: "The `phony` rule").
    Alias,
    Command(Command),
}

/// What build files declare: the build graph, whose paths are kept once and are numbers elsewhere. Contracts see it as the
/// graph of texts by `graph_of`.
#[derive(Drop)]
pub struct Manifest {
    /// All paths: first those that build lines name, then others.
    pub paths: Paths,
    /// How many of the paths are named by build lines. A loaded dyndep file may name more of them.
    pub named: usize,
    /// The paths of the edges, in reading order.
    pub lines: Lines,
    /// What each edge does.
    pub actions: Items<Action>,
    pub pools: Items<Pool>,
    /// The paths of `default` statements, in reading order.
    pub defaults: Items<PathId>,
    /// The folder of the logs; empty is the working folder.
    pub builddir: Text,
    ghost few: { length lines ≤ 2 ^ 32 },
    ghost fits: { length actions ≡ length lines },
    ghost names: { named ≤ length paths },
    ghost numbered: { (p : ℕ) → p < named → has_number (all_paths lines) p ≡ true },
    ghost within: { (p : ℕ) → has_number (all_paths lines) p ≡ true → p < length paths },
    ghost known: { (k : ℕ) → k < length defaults → get_or defaults k 0 < named },
    ghost dyndeps: { (k : ℕ) → dyndep_stop (get_or actions k no_action) ≤ length paths },
}

impl Manifest {
    ghost use Rattle.std.specs.Prelude.{MatchOption};
    ghost use Rattle.paths.specs.Told.{IsUnnamed, IsNamedNumber};

    /// The edge at this place of the reading order, from 0.
    pub fn edge(&self, place: usize) -> EdgeId
        requires { place < length self.now.lines }
        ensures { result ≡ place }
    {
        EdgeId::at_below(place)
    }

    /// What the edge does.
    pub fn action(&self, edge: EdgeId) -> &Action
        requires { edge < length self.now.lines }
        ensures { result.now ≡ get_or self.now.actions edge no_action }
    {
        &self.actions.as_slice()[edge.index()]
    }

    /// The number of a path that some edge names; none for any other.
    pub fn number_of(&self, path: &str) -> Option<PathId>
        ensures { MatchOption result (IsUnnamed self.now path.now) (IsNamedNumber self.now path.now) }
    {
        let number = self.paths.number_of(path)?;
        // a path that no build line names is named by a loaded dyndep file, if by anything
        if number.index() < self.named || self.lines.name(number) {
            Some(number)
        } else {
            None
        }
    }
}
