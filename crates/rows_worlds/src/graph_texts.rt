//! Large graphs: a chain, which no walk may follow by calling itself, and many edges that read through one phony edge.

use crate::answers::number;
use std::alloc::{AllocError, Global};
use tables::word;

/// `chain EDGES`: so many phony edges of which each needs the next one; the first is built by default.
pub fn push_chain(alloc: Global, text: &mut String, edges: &str) -> Result<(), AllocError> {
    for place in 0..number(edges) {
        let behind = place.saturating_add(1);
        let line = format!(in alloc; "build p{place}: phony p{behind}\n")?;
        text.push_str(line.as_str())?;
    }
    text.push_str("default p0\n")
}

/// `fan FILES EDGES`: a phony edge over so many files, and so many edges that name it.
pub fn push_fan(alloc: Global, text: &mut String, sizes: &str) -> Result<(), AllocError> {
    let (files, edges) = word(sizes);
    text.push_str("build all: phony")?;
    push_all(alloc, text, " f", number(files), "")?;
    text.push('\n')?;
    push_all(alloc, text, "build o", number(edges), ": r all\n")
}

/// Each number below a bound, with a text before and behind it.
fn push_all(
    alloc: Global,
    text: &mut String,
    before: &str,
    bound: usize,
    behind: &str,
) -> Result<(), AllocError> {
    for place in 0..bound {
        let line = format!(in alloc; "{before}{place}{behind}")?;
        text.push_str(line.as_str())?;
    }
    Ok(())
}
