//! Why an edge is out of date.

/// Why the command of an edge has to run. Where several reasons hold, the first one in this order is given.
#[derive(Clone, Copy, Debug, PartialEq, Eq)]
pub enum Reason {
    /// An output is absent.
    OutputAbsent,
    /// An output has no record of a command that made it.
    NoRecord,
    /// An output was made by another act.
    OtherAct,
    /// A path that the edge reads is absent.
    InputAbsent,
    /// A path that the edge reads was made anew in this build.
    InputChanged,
    /// A path that the edge reads is later than the start of the command that made an output.
    InputLater,
    /// An output is older than a path that the edge reads, and the edge has no `restat`.
    OutputOlder,
    /// What the command read beside its inputs is not known.
    DepsUnknown,
}
