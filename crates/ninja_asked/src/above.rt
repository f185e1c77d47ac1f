//! What stands above the file that was read.

ghost use Rattle.std.specs.Prelude.{OnOk, IfOk};
ghost use Rattle.ninja_asked.specs.Above.{AddsEdge, AddsEdges, AreAboveFile, AreEdges, IsAllAbove, IsFileOf};

use graph::Graph;
use lexer::{ReadFault, canonical, one_form};
use paths::{EdgeId, PathId};
use std::alloc::{AllocError, Global};
use text::Text;
use tools::{Declared, edges_above, is_phony_at, outputs_at, text_at};

/// What is above the file that was read.
#[derive(Drop)]
pub struct Above {
    /// The path of the file, where a line names it.
    pub file: Option<PathId>,
    /// The edges with `generator` that make the file, or are above it: makers first.
    pub generators: Vec<EdgeId>,
    /// What other commands above it make, an output of each: it is built first.
    pub first: Vec<Text>,
}

/// What is above the file of this name.
pub fn all_above(alloc: Global, declared: &Declared, name: &str) -> Result<Above, AllocError>
    ensures all { IfOk result (IsAllAbove declared.now name.now) }
    ensures within { IfOk result (λ above. AreEdges declared.now above.generators.items) }
{
    let file = file_path(alloc, declared, name)?;
    let mut above = Above {
        file,
        generators: Vec::new(alloc),
        first: Vec::new(alloc),
    };
    let edges = above_file(alloc, &declared.graph, above.file)?;
    add_edges(alloc, declared, edges.as_slice(), &mut above)?;
    Ok(above)
}

/// The edges that are above the file, makers first.
fn above_file(alloc: Global, graph: &Graph, file: Option<PathId>) -> Result<Vec<EdgeId>, AllocError>
    ensures { IfOk result (λ edges. AreAboveFile graph.now file edges.items) }
{
    match file {
        Some(file) => {
            let one = [file];
            edges_above(alloc, graph, one.as_slice())
        }
        None => Ok(Vec::new(alloc)),
    }
}

/// Adds of these edges the generators, and of the others what is built first, where there was nothing yet.
fn add_edges(
    alloc: Global,
    declared: &Declared,
    edges: &[EdgeId],
    above: &mut Above,
) -> Result<(), AllocError>
    ensures { OnOk result (AddsEdges declared.now edges.now above.old above.new) }
{
    for edge in edges {
        add_edge(alloc, declared, *edge, above)?;
    }
    if above.generators.is_empty() {
        above.first.clear();
    }
    Ok(())
}

/// Adds an edge to those of a generator, or what it makes to what is built first. An alias makes nothing.
fn add_edge(
    alloc: Global,
    declared: &Declared,
    edge: EdgeId,
    above: &mut Above,
) -> Result<(), AllocError>
    ensures { OnOk result (AddsEdge declared.now edge above.old above.new) }
{
    if declared.described.is_generator(edge) {
        above.generators.push(edge)?;
        return Ok(());
    }
    if is_phony_at(&declared.graph, edge) {
        return Ok(());
    }
    let Some(output) = outputs_at(&declared.graph, edge).first() else {
        return Ok(());
    };
    let text = Text::from_str(alloc, text_at(&declared.graph, *output))?;
    above.first.push(text)?;
    Ok(())
}

/// The path of a file, where a line names it.
fn file_path(alloc: Global, declared: &Declared, name: &str) -> Result<Option<PathId>, AllocError>
    ensures { IfOk result (IsFileOf declared.now name.now) }
{
    one_form();
    match canonical(alloc, name) {
        Ok(path) => Ok(declared.graph.manifest.number_of(path.as_str())),
        Err(ReadFault::EmptyPath) => Ok(None),
        Err(ReadFault::Memory) => Err(AllocError),
    }
}
