//! What a run came to.

use paths::{EdgeId, PathId};

/// Why a run that goes on pauses.
#[derive(Debug, Drop)]
pub enum Pause {
    /// This dyndep file is to be loaded next, before anything else (manual: "Dynamic Dependencies"). Commands may run.
    Load(PathId),
    /// Nothing is left to do.
    Ended(Summary),
}

/// What a run came to that was not cut off.
#[derive(Debug, Drop)]
pub enum Summary {
    /// Every command that was started ended well: so many.
    Well { started: usize },
    /// The edges whose command failed, in the order in which they ended.
    Failed { edges: Vec<EdgeId> },
}
