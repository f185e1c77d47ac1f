//! What is told of the commands that are due.

use model::{Act, Reason};
use paths::EdgeId;
use text::Path;

/// The commands that are due, and why.
#[derive(Debug, Drop)]
pub struct Explained {
    /// Makers first, and else by number.
    pub commands: Vec<Explanation>,
    /// A dyndep file that a command makes is loaded when its maker is settled: more may follow then. The first of those that are to be
    /// loaded.
    pub unloaded: Option<Path>,
}

/// A command that is due, and why.
#[derive(Debug, Drop)]
pub struct Explanation {
    pub edge: EdgeId,
    /// The first output of its edge.
    pub output: Path,
    /// The first reason of the table that holds. `InputChanged` stands for what a due command will make anew.
    pub reason: Reason,
    /// The first path of which it holds; none where it is about the depfile of the command.
    pub path: Option<Path>,
    /// Where the command is another one: what the one did that made the path, and what it does now.
    pub acts: Option<Acts>,
    /// Whether it is needed whatever the commands before it leave.
    pub is_sure: bool,
}

/// What a command did, and what it does now.
#[derive(Debug, Drop)]
pub struct Acts {
    pub old: Act,
    pub new: Act,
}
