//! What of a clean build is looked at.

use crate::dated::Dated;
use meanwhile::Clean;
use model::Edge;
use text::Path;

/// Whether each output of the commands that make the target, or of all where there is none, is as the clean build gives it.
pub fn is_as(site: &Dated<'_>, clean: &Clean, target: Option<&str>) -> bool {
    for edge in clean.edges() {
        if is_asked(edge, target) && !is_left(site, clean, edge) {
            return false;
        }
    }
    true
}

fn is_asked(edge: &Edge, target: Option<&str>) -> bool {
    match target {
        Some(path) => !edge.phony && makes(edge, path),
        None => !edge.phony,
    }
}

/// Whether the edge makes the path.
fn makes(edge: &Edge, path: &str) -> bool {
    is_among(edge.explicit_outputs.as_slice(), path)
        || is_among(edge.implicit_outputs.as_slice(), path)
}

fn is_among(paths: &[Path], path: &str) -> bool {
    for other in paths {
        if other.as_str() == path {
            return true;
        }
    }
    false
}

/// Whether the site has each output of the edge as the clean build leaves it.
fn is_left(site: &Dated<'_>, clean: &Clean, edge: &Edge) -> bool {
    are_left(site, clean, edge.explicit_outputs.as_slice())
        && are_left(site, clean, edge.implicit_outputs.as_slice())
}

fn are_left(site: &Dated<'_>, clean: &Clean, paths: &[Path]) -> bool {
    for path in paths {
        if !site.has(clean, path.as_str()) {
            return false;
        }
    }
    true
}
