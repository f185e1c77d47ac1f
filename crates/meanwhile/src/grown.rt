//! What the dyndep files of a site add to its build graph.

use dyndep::{Addition, ReadError, parse};
use model::{BuildGraph, Edge};
use sim::{Sim, Toy};
use std::alloc::{AllocError, Global};
use std::mem;
use text::{Items, Path};

/// Gives each edge that names a dyndep file what that says of it, as it stands on the site. A file that is absent or cannot be read
/// says nothing.
pub fn grow(alloc: Global, site: &Sim<Toy>, graph: &mut BuildGraph) -> Result<(), AllocError> {
    let mut edges = mem::replace(&mut graph.edges, Items::new(alloc)).into_vec();
    for edge in &mut edges {
        grow_edge(alloc, site, edge)?;
    }
    graph.edges = Items::from_vec(edges);
    Ok(())
}

fn grow_edge(alloc: Global, site: &Sim<Toy>, edge: &mut Edge) -> Result<(), AllocError> {
    let Some(file) = &edge.dyndep else {
        return Ok(());
    };
    let Some(content) = site.content(file.as_str()) else {
        return Ok(());
    };
    match parse(alloc, content.as_slice()) {
        Ok(additions) => add_all(edge, additions.as_slice()),
        Err(ReadError::Memory) => Err(AllocError),
        Err(ReadError::Fault(_)) => Ok(()),
    }
}

/// Adds what the statements say of the edge.
fn add_all(edge: &mut Edge, additions: &[Addition]) -> Result<(), AllocError> {
    for addition in additions {
        if is_output(edge, &addition.output) {
            copy_all(addition.outputs.as_slice(), &mut edge.implicit_outputs)?;
            copy_all(addition.inputs.as_slice(), &mut edge.implicit_inputs)?;
        }
    }
    Ok(())
}

/// Whether the build file gives the edge this explicit output.
fn is_output(edge: &Edge, path: &Path) -> bool {
    for output in edge.explicit_outputs.as_slice() {
        if output == path {
            return true;
        }
    }
    false
}

fn copy_all(paths: &[Path], to: &mut Items<Path>) -> Result<(), AllocError> {
    for path in paths {
        to.push(path.clone()?)?;
    }
    Ok(())
}
