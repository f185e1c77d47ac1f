//! What is below sources that were edited while a build ran.

use model::Edge;
use std::alloc::{AllocError, Global};
use text::Path;

/// For each edge whether it reads one of these files, each behind a space, or something that is made from one. An edge with a depfile counts
/// as one that reads all sources. What is not below an edit is promised to be as the clean build gives it.
pub fn below(alloc: Global, edges: &[Edge], edited: &str) -> Result<Vec<bool>, AllocError> {
    let mut found = vec![in alloc; false; edges.len()]?;
    for _ in edges {
        go_down(edges, edited, &mut found);
    }
    Ok(found)
}

/// Marks each edge that reads an edited file, or what a marked edge makes.
fn go_down(edges: &[Edge], edited: &str, found: &mut Vec<bool>) {
    for (place, edge) in edges.iter().enumerate() {
        if reads(edge, edges, edited, found.as_slice()) {
            mark(found, place);
        }
    }
}

fn mark(found: &mut Vec<bool>, place: usize) {
    if let Some(one) = found.get_mut(place) {
        *one = true;
    }
}

fn reads(edge: &Edge, edges: &[Edge], edited: &str, found: &[bool]) -> bool {
    if !edge.act.depfile.is_empty() && !edited.is_empty() {
        return true;
    }
    has_one(edge.explicit_inputs.as_slice(), edges, edited, found)
        || has_one(edge.implicit_inputs.as_slice(), edges, edited, found)
        || has_one(edge.order_only_inputs.as_slice(), edges, edited, found)
}

fn has_one(paths: &[Path], edges: &[Edge], edited: &str, found: &[bool]) -> bool {
    for path in paths {
        if is_edited(path.as_str(), edited) || is_made_below(path.as_str(), edges, found) {
            return true;
        }
    }
    false
}

fn is_edited(path: &str, edited: &str) -> bool {
    for other in edited.split(' ') {
        if other == path {
            return true;
        }
    }
    false
}

/// Whether a marked edge makes the path.
fn is_made_below(path: &str, edges: &[Edge], found: &[bool]) -> bool {
    for (place, edge) in edges.iter().enumerate() {
        if is_marked(found, place) && makes(edge, path) {
            return true;
        }
    }
    false
}

/// Whether the edge at this place is marked.
pub fn is_marked(found: &[bool], place: usize) -> bool {
    found.get(place).copied().unwrap_or(false)
}

/// Whether the edge makes the path.
pub fn makes(edge: &Edge, path: &str) -> bool {
    is_among(edge.explicit_outputs.as_slice(), path)
        || is_among(edge.implicit_outputs.as_slice(), path)
}

fn is_among(paths: &[Path], path: &str) -> bool {
    for other in paths {
        if other.as_str() == path {
            return true;
        }
    }
    false
}
