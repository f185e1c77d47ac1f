//! What a row says of a tree beside its build file, and the first output of each edge.

use auditor::{Auditor, dyndep_in, load};
use graph::Graph;
use log_text::BuildLog;
use paths::{EdgeId, PathId, Paths};
use std::alloc::{AllocError, Global};
use tables::{unescaped, word};
use text::{Items, Path};

/// `log TEXT`: the build log.
pub fn build_log_of(alloc: Global, text: &str) -> Result<BuildLog, AllocError> {
    let text = unescaped(alloc, text)?;
    let (log, _) = BuildLog::parse(alloc, text.as_slice())?;
    Ok(log)
}

/// `deps TEXT`: the deps log.
pub fn deps_log_of(alloc: Global, text: &str) -> Result<log_text::DepsLog, AllocError> {
    let text = unescaped(alloc, text)?;
    let (log, _) = log_text::DepsLog::parse(alloc, text.as_slice())?;
    Ok(log)
}

/// `dyndep FILE TEXT`: loads the dyndep file of this name, which has this text.
pub fn load_file(alloc: Global, graph: &mut Graph, row: &str) -> Result<(), AllocError> {
    let (file, text) = word(row);
    let text = unescaped(alloc, text)?;
    for place in 0..graph.edges() {
        let _ = load_at(alloc, graph, place, file, text.as_slice());
    }
    Ok(())
}

/// Loads the dyndep file, if it is the one of the edge in this place.
fn load_at(alloc: Global, graph: &mut Graph, place: usize, file: &str, text: &[u8]) -> Option<()> {
    if dyndep_in(graph, place)? != file {
        return None;
    }
    load(alloc, graph, place, text)
}

/// `file NUMBER PATH..`: all these paths lead to the file with this number.
pub fn lead(alloc: Global, auditor: &mut Auditor, row: &str) -> Result<(), AllocError> {
    let (number, paths) = word(row);
    for place in 0..auditor.paths() {
        if is_word_of(paths, auditor.path(place)) {
            auditor.leads(place, String::from_str(alloc, number)?)?;
        }
    }
    Ok(())
}

/// `filled PATH..`: these paths lead to plain files that are not empty.
pub fn fill(auditor: &mut Auditor, paths: &str) -> Result<(), AllocError> {
    for place in 0..auditor.paths() {
        if is_word_of(paths, auditor.path(place)) {
            auditor.fills(place)?;
        }
    }
    Ok(())
}

fn is_word_of(words: &str, word: &str) -> bool {
    for one in words.split(' ') {
        if one == word {
            return true;
        }
    }
    false
}

/// How many commands these targets need; none where they have no cone.
pub fn commands_of(
    alloc: Global,
    auditor: &Auditor,
    targets: &str,
) -> Result<Option<usize>, AllocError> {
    let targets = paths(alloc, targets)?;
    Ok(auditor.commands(targets.as_slice()))
}

fn paths(alloc: Global, text: &str) -> Result<Items<Path>, AllocError> {
    let mut paths = Items::new(alloc);
    for word in text.split_whitespace() {
        paths.push(Path::from_str(alloc, word)?)?;
    }
    Ok(paths)
}

/// The first outputs of all edges, in their order: no other edge makes one of them.
pub fn names_of(alloc: Global, graph: &Graph) -> Result<Paths, AllocError> {
    let mut names = Paths::new(alloc);
    for place in 0..graph.edges() {
        names.add(alloc, name_at(graph, place))?;
    }
    Ok(names)
}

/// The first output of the edge in this place.
fn name_at(graph: &Graph, place: usize) -> &str {
    match EdgeId::at(place) {
        Some(edge) => name_of(graph, edge),
        None => "",
    }
}

fn name_of(graph: &Graph, edge: EdgeId) -> &str {
    match outputs_of(graph, edge).first() {
        Some(output) => graph.manifest.paths.get(*output).unwrap_or(""),
        None => "",
    }
}

fn outputs_of(graph: &Graph, edge: EdgeId) -> &[PathId] {
    if edge.index() >= graph.edges() {
        return &[];
    }
    graph.outputs(edge)
}
