//! What is done to files between builds.

use meanwhile::{Random, Source, dyndep_in, edges_in, put_edges};
use sim::{Sim, Toy};
use std::alloc::{AllocError, Global};

/// The build file of this line, with its dyndep files.
pub fn put_graph(
    alloc: Global,
    site: &mut Sim<Toy>,
    source: Source<'_>,
    graph: &str,
) -> Result<(), AllocError> {
    put_edges(alloc, site, edges_in(graph))?;
    for path in source.sources.split(' ') {
        if path.starts_with('y') {
            site.put(path, &dyndep_in(alloc, graph, path)?)?;
        }
    }
    Ok(())
}

/// A file that a build made is deleted, or a log is, or holds nothing that can be read.
pub fn harm(
    site: &mut Sim<Toy>,
    source: Source<'_>,
    random: &mut Random,
) -> Result<(), AllocError> {
    match random.below(8) {
        0 => site.erase(".nj_log"),
        1 => site.erase(".nj_deps"),
        2 => site.put(".nj_deps", b"zzz\n"),
        3 => site.erase("b.d"),
        _ => site.erase(random.part(source.outputs, ' ')),
    }
}
