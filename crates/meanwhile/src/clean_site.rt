//! What a clean build of the files of a site gives.

use crate::grown::grow;
use crate::made_up::Source;
use crate::texts::graph_of;
use manifest::{Manifest, read};
use model::{BuildGraph, Edge, Writer};
use sim::{History, Sim, Toy};
use std::alloc::{AllocError, Global};
use text::{Bytes, Path};
use witness::{NoDepfiles, clean_build};

/// What the build file of a site declares, with what its dyndep files add, and what a clean build leaves.
#[derive(Drop)]
pub struct Clean {
    graph: BuildGraph,
    files: History,
}

impl Clean {
    /// The clean build from what the paths of the histories hold, unless the build file cannot be read. Dyndep files are taken as they
    /// are.
    pub fn of(
        alloc: Global,
        site: &mut Sim<Toy>,
        source: Source<'_>,
    ) -> Result<Option<Clean>, AllocError> {
        let Some(graph) = declared(alloc, site)? else {
            return Ok(None);
        };
        let files = files_of(alloc, site, source, &graph)?;
        Ok(Some(Clean { graph, files }))
    }

    /// What the build file declares, with what its dyndep files add.
    pub fn edges(&self) -> &[Edge] {
        self.graph.edges.as_slice()
    }

    /// Whether the site has at the path what the clean build leaves there.
    pub fn is_at(&self, site: &Sim<Toy>, path: &str) -> bool {
        self.content(path) == site.content(path).map(|content| content.as_slice())
    }

    /// Whether it has so at each of the paths, which have a space between.
    pub fn are_at(&self, site: &Sim<Toy>, paths: &str) -> bool {
        for path in paths.split(' ') {
            if !self.is_at(site, path) {
                return false;
            }
        }
        true
    }

    /// Whether the clean build leaves a file at the path.
    pub fn has(&self, path: &str) -> bool {
        self.files.content(path).is_some()
    }

    /// Whether the clean build lacks something that a command is to make.
    pub fn lacks_output(&self) -> bool {
        for edge in self.graph.edges.as_slice() {
            if !edge.phony && self.lacks_output_of(edge) {
                return true;
            }
        }
        false
    }

    fn lacks_output_of(&self, edge: &Edge) -> bool {
        for path in edge.explicit_outputs.as_slice() {
            if !self.has(path.as_str()) {
                return true;
            }
        }
        false
    }

    /// What the clean build leaves at the path.
    pub fn content(&self, path: &str) -> Option<&[u8]> {
        self.files.content(path).map(|content| content.as_slice())
    }
}

/// What the clean build of the graph leaves.
fn files_of(
    alloc: Global,
    site: &Sim<Toy>,
    source: Source<'_>,
    graph: &BuildGraph,
) -> Result<History, AllocError> {
    let files = files(alloc, site, source)?;
    clean_build(alloc, &Toy, &NoDepfiles, graph, files)
}

/// The build graph of the site's build file, with what its dyndep files add.
fn declared(alloc: Global, site: &mut Sim<Toy>) -> Result<Option<BuildGraph>, AllocError> {
    match read(alloc, site, "build.ninja") {
        Ok(manifest) => grown(alloc, site, &manifest),
        Err(_) => Ok(None),
    }
}

fn grown(
    alloc: Global,
    site: &Sim<Toy>,
    manifest: &Manifest,
) -> Result<Option<BuildGraph>, AllocError> {
    let mut graph = graph_of(alloc, manifest)?;
    grow(alloc, site, &mut graph)?;
    Ok(Some(graph))
}

/// What the paths of the histories hold.
fn files(alloc: Global, site: &Sim<Toy>, source: Source<'_>) -> Result<History, AllocError> {
    let mut files = History::new(alloc);
    for path in source.sources.split(' ') {
        copy(alloc, site, path, &mut files)?;
    }
    for path in source.outputs.split(' ') {
        copy(alloc, site, path, &mut files)?;
    }
    Ok(files)
}

fn copy(alloc: Global, site: &Sim<Toy>, path: &str, files: &mut History) -> Result<(), AllocError> {
    if let Some(content) = site.content(path) {
        let content = Bytes::from_slice(alloc, content.as_slice())?;
        files.write(Writer::Someone, Path::from_str(alloc, path)?, Some(content))?;
    }
    Ok(())
}
