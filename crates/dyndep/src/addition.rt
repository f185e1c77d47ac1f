//! What a statement of a dyndep file says.

use text::{Items, Path};

/// What an edge gains by a statement of a dyndep file (manual: "Dynamic Dependencies"). All paths are canonical.
#[derive(Debug, Drop)]
pub struct Addition {
    /// An output that the build files give the edge.
    pub output: Path,
    /// More implicit outputs.
    pub outputs: Items<Path>,
    /// More implicit inputs.
    pub inputs: Items<Path>,
    /// Whether its outputs may stay as they were.
    pub restat: bool,
}
