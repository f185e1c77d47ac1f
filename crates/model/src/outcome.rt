//! What a command gives.

use text::{Bytes, Items, Path};

/// What a command leaves at a path.
#[derive(Debug, Drop)]
pub struct Write {
    pub path: Path,
    /// What the file then holds; with none it is gone.
    pub content: Option<Bytes>,
    /// The command does not touch a file that holds this already, so that its stamp stays.
    pub only_changes: bool,
}

/// What a command gives in a view of the files.
#[derive(Debug, Drop)]
pub struct Outcome {
    /// Whether it ends well.
    pub ok: bool,
    /// What it leaves, one after the other.
    pub writes: Items<Write>,
}
