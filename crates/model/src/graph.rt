//! The build graph as plain data.

use crate::Act;
use text::{Items, Path, Text};

/// How a command tells the inputs that it discovered, by the variable `deps` (manual: "deps").
#[derive(Clone, Copy, Debug, PartialEq, Eq)]
pub enum Deps {
    /// `deps` is not set: a depfile stays where it is.
    Unset,
    /// `deps = gcc`: the depfile is removed once it is read.
    Gcc,
}

/// One build statement (manual: "Build statements"). Its number is its place in reading order, from 1.
#[derive(Debug, Drop)]
pub struct Edge {
    pub explicit_outputs: Items<Path>,
    pub implicit_outputs: Items<Path>,
    pub explicit_inputs: Items<Path>,
    pub implicit_inputs: Items<Path>,
    pub order_only_inputs: Items<Path>,
    pub validations: Items<Path>,
    pub act: Act,
    /// What is shown in place of the command, where it is not empty.
    pub description: Text,
    pub deps: Deps,
    /// Whether outputs that the command left alone count as unchanged.
    pub restat: bool,
    /// The pool in which the command runs.
    pub pool: Option<Text>,
    /// The file that tells more inputs and outputs (manual: "Dynamic Dependencies").
    pub dyndep: Option<Path>,
    /// Whether the edge is an alias, with no command (manual: "The `phony` rule").
    pub phony: bool,
}

/// A pool of commands (manual: "Pools").
#[derive(Debug, Drop)]
pub struct Pool {
    pub name: Text,
    /// How many of its commands may run at once; 0 is no limit.
    pub depth: u32,
}

/// What the build files declare.
#[derive(Debug, Drop)]
pub struct BuildGraph {
    /// The edges in reading order.
    pub edges: Items<Edge>,
    pub pools: Items<Pool>,
    /// The paths of `default` statements, in reading order.
    pub defaults: Items<Path>,
    /// The folder of the logs; empty is the working folder.
    pub builddir: Text,
}
