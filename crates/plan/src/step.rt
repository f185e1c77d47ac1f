//! How far edges have come, and what is to be done next.

ghost use Rattle.std.specs.Prelude.{◌≡◌};
ghost use Rattle.plan.specs.Standing.{is_unjudged, is_alias};

use paths::{EdgeId, PathId};

/// How far an edge has come.
#[derive(Clone, Copy, Debug, PartialEq, Eq)]
pub enum Standing {
    /// It is not in the cone.
    Outside,
    /// A command that was not judged.
    Unjudged,
    Clean,
    OutOfDate,
    Running,
    /// Its command ended well.
    Well,
    /// Its command failed.
    Failed,
    /// An edge with no command, some of whose inputs are not there (manual: "The `phony` rule").
    Alias,
    /// An edge with no command, all of whose inputs are there.
    Known,
}

/// Whether a command has to run.
#[derive(Clone, Copy, Debug, PartialEq, Eq)]
pub enum Verdict {
    Clean,
    OutOfDate,
}

/// Which outputs of a command that has ended were changed.
#[derive(Clone, Copy, Debug)]
pub enum Changed<'a> {
    /// Each of them.
    All,
    /// Those whose flag is set; each output has one.
    Each(&'a [bool]),
}

/// How a plan ended.
#[derive(Clone, Copy, Debug, PartialEq, Eq)]
pub enum End {
    /// No command failed.
    Well,
    Failed,
}

/// What is to be done next.
#[derive(Clone, Copy, Debug, PartialEq, Eq)]
pub enum Step {
    /// Load this dyndep file (manual: "Dynamic Dependencies").
    Load(PathId),
    /// Judge this edge.
    Judge(EdgeId),
    /// Start the command of this edge.
    Start(EdgeId),
    /// Wait for a running command.
    Wait,
    Ended(End),
}
