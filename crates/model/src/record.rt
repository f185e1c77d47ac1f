//! What the logs tell of earlier builds.

use crate::Act;
use text::{Items, Path};

/// A record of the build log. The last record that names an output counts for it.
#[derive(Debug, Drop)]
pub enum Record {
    /// A command that makes these outputs was about to start: from here on no earlier record of them counts.
    Begun {
        outputs: Items<Path>,
    },
    /// The command of the act made these outputs and ended well; `start` is the stamp of its start.
    Done {
        outputs: Items<Path>,
        start: u64,
        act: Act,
    },
}

/// A record of the deps log: the command that made these outputs, started under the stamp `start`, told that it read
/// these paths. The last record that names an output counts for it.
#[derive(Debug, Drop)]
pub struct DepsRecord {
    pub outputs: Items<Path>,
    pub start: u64,
    pub paths: Items<Path>,
}
