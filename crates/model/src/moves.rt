//! What is done to a site, one thing after another.

use text::{Bytes, Items, Path, Text};

/// One move of a history: an edit or a build.
#[derive(Debug, Drop)]
pub enum Move {
    /// Somebody writes the file.
    Write { path: Path, content: Bytes },
    /// Somebody deletes the file.
    Delete { path: Path },
    /// The targets are built, as they were given; with none, the default ones.
    Build { targets: Items<Text> },
}
