//! How far a build has come.

ghost use Rattle.std.specs.Prelude.{◌≤◌};

/// How far a build has come, in commands.
#[derive(Clone, Copy, Debug, PartialEq, Eq)]
pub struct Counts {
    /// The commands that were started.
    pub started: usize,
    /// The commands that were started, and those that are still to be.
    pub total: usize,
    /// The commands that run.
    pub running: usize,
    /// The commands that have finished.
    pub finished: usize,
    ghost some: { 1 ≤ total },
    ghost started_of_total: { started ≤ total },
    ghost running_of_total: { running ≤ total },
    ghost finished_of_total: { finished ≤ total },
}
