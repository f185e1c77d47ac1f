//! Of what histories are made up.

use std::alloc::{AllocError, Global};
use tables::{unescaped, word};

/// What edits and builds are chosen from.
#[derive(Clone, Copy)]
pub struct Source<'a> {
    /// How many histories there are, and where their random numbers begin.
    pub count: u64,
    pub seed: u64,
    /// Paths that are written and deleted, with a space between. One whose name begins with `u` names what commands read that scan it;
    /// one whose name is `y` and a number is a dyndep file, or what a command copies to one.
    pub sources: &'a str,
    /// Paths that commands make, or that are sources where no edge makes them.
    pub outputs: &'a str,
    /// A line for each build file: `edges TEXT`, or `always TEXT` where a build always has something to do. Behind each `@` stands
    /// what the next of `y1`, `y2` holds then, behind its version.
    pub graphs: &'a str,
}

/// The part of a line that is the build file.
pub fn edges_in(graph: &str) -> &str {
    word(graph).1.split('@').next().unwrap_or("")
}

/// What the dyndep file of this path holds beside the build file of the line.
pub fn dyndep_in(alloc: Global, graph: &str, path: &str) -> Result<Vec<u8>, AllocError> {
    let said = graph.split('@').nth(place_in(path)).unwrap_or("");
    let text = format!(in alloc; "ninja_dyndep_version = 1\\n{said}")?;
    unescaped(alloc, text.as_str())
}

/// The number in the path of a dyndep file, or 1.
fn place_in(path: &str) -> usize {
    let number = match path.strip_prefix('y') {
        Some(number) => number,
        None => "",
    };
    number.parse::<usize>().unwrap_or(1)
}
