//! `-t missingdeps`: recorded inputs that are made, and whose maker is not above.

ghost use Rattle.std.specs.Prelude.{◌≡◌, ◌++◌, ◌∷◌, [], IfOk, IsSome, OnOk, false, filter, flat_map, get_or, length};
ghost use Rattle.graph.specs.Links.{links_of};
ghost use Rattle.tools.specs.Above.{AreNamedBy, AreNamedMade, MarksAlso, marked_outputs};
ghost use Rattle.tools.specs.Missing.{AddsApart, AddsDeps, AddsMade, AddsMissingOf, AreNeeded, IsUnmarked, MissesIn, told_text, told_texts};

use crate::above::edges_above;
use crate::access::{inputs_at, outputs_at};
use crate::declared::Logged;
use crate::marks::{is_marked, set_mark};
use graph::Graph;
use paths::{EdgeId, PathId};
use std::alloc::{AllocError, Global};

/// A recorded input of an output whose maker is not above the output's edge.
#[derive(Clone, Copy, Debug, PartialEq, Eq)]
pub struct MissingDep {
    pub output: PathId,
    pub input: PathId,
    pub maker: EdgeId,
}

/// What was found above targets.
#[derive(Drop)]
pub struct Missed {
    pub missing: Vec<MissingDep>,
    /// How many outputs were looked at.
    pub outputs: usize,
}

/// Each recorded input of the outputs above these paths that an edge makes which is not above it by lines alone, in the order of
/// outputs and records. The file that was read is none: it is made between builds. For each output with a made input this takes a time of
/// the order of the edges above it.
pub fn missing_deps(
    alloc: Global,
    logged: Logged<'_>,
    paths: &[PathId],
    file: &str,
) -> Result<Missed, AllocError>
    ensures { IfOk result (λ found. MissesIn logged.entry file.now paths.now found.missing.items) }
{
    let mut found = Missed {
        missing: Vec::new(alloc),
        outputs: 0,
    };
    let outputs = outputs_above(alloc, &logged.declared.graph, paths)?;
    for output in outputs.as_slice() {
        add_missing(alloc, logged, *output, file, &mut found.missing)?;
    }
    found.outputs = outputs.len();
    Ok(found)
}

/// These paths and the inputs of the edges above them, as far as they are made, each once: those of an edge stand behind those that it
/// needs.
pub fn outputs_above(
    alloc: Global,
    graph: &Graph,
    paths: &[PathId],
) -> Result<Vec<PathId>, AllocError>
    ensures { IfOk result (λ outputs. AreNamedMade graph.now paths.now outputs.items) }
{
    let edges = edges_above(alloc, graph, paths)?;
    let named = named_by(alloc, graph, paths, edges.as_slice())?;
    marked_outputs(alloc, graph, edges.as_slice(), named.as_slice())
}

/// For each path whether it is one of these, or an input of one of these edges.
fn named_by(
    alloc: Global,
    graph: &Graph,
    paths: &[PathId],
    edges: &[EdgeId],
) -> Result<Vec<bool>, AllocError>
    ensures { IfOk result (λ named. AreNamedBy graph.now paths.now edges.now named.items) }
{
    let mut named = vec![in alloc; false; graph.paths()]?;
    mark(&mut named, paths);
    mark_inputs(graph, edges, &mut named);
    Ok(named)
}

/// Marks the inputs of these edges.
fn mark_inputs(graph: &Graph, edges: &[EdgeId], marks: &mut Vec<bool>)
    ensures count { length marks.new.items ≡ length marks.old.items }
    ensures marks { MarksAlso marks.old.items marks.new.items (flat_map (links_of graph.now).inputs edges.now) }
{
    for edge in edges {
        mark(marks, inputs_at(graph, *edge));
    }
}

/// The outputs of these edges that are marked.
fn marked_outputs(
    alloc: Global,
    graph: &Graph,
    edges: &[EdgeId],
    marks: &[bool],
) -> Result<Vec<PathId>, AllocError>
    ensures { IfOk result (λ outputs. outputs.items ≡ marked_outputs graph.now marks.now edges.now) }
{
    let mut outputs = Vec::new(alloc);
    for edge in edges {
        push_marked(marks, outputs_at(graph, *edge), &mut outputs)?;
    }
    Ok(outputs)
}

/// Marks each of these.
fn mark(marks: &mut Vec<bool>, paths: &[PathId])
    ensures count { length marks.new.items ≡ length marks.old.items }
    ensures marks { MarksAlso marks.old.items marks.new.items paths.now }
{
    for path in paths {
        set_mark(marks, path.index());
    }
}

/// Adds those of the paths that are marked.
fn push_marked(
    marks: &[bool],
    paths: &[PathId],
    outputs: &mut Vec<PathId>,
) -> Result<(), AllocError>
    ensures { OnOk result (outputs.new.items ≡ outputs.old.items ++ filter (λ p. get_or marks.now p false) paths.now) }
{
    for path in paths {
        push_if_marked(marks, *path, outputs)?;
    }
    Ok(())
}

fn push_if_marked(marks: &[bool], path: PathId, outputs: &mut Vec<PathId>) -> Result<(), AllocError>
    ensures { OnOk result (outputs.new.items ≡ outputs.old.items ++ filter (λ p. get_or marks.now p false) (path ∷ [])) }
{
    if is_marked(marks, path.index()) {
        outputs.push(path)?;
        return Ok(());
    }
    Ok(())
}

/// Adds what is missing of one output.
fn add_missing(
    alloc: Global,
    logged: Logged<'_>,
    output: PathId,
    file: &str,
    missing: &mut Vec<MissingDep>,
) -> Result<(), AllocError>
    requires { IsSome ((links_of logged.declared.now.graph).maker output) }
    ensures { OnOk result (AddsMissingOf logged.entry file.now output missing.old.items missing.new.items) }
{
    let Some(deps) = logged.records.deps(output) else {
        return Ok(());
    };
    add_apart(alloc, logged, output, deps.paths.as_slice(), file, missing)
}

/// Adds those of the recorded paths of an output that edges make which are not above it.
fn add_apart(
    alloc: Global,
    logged: Logged<'_>,
    output: PathId,
    numbers: &[u32],
    file: &str,
    missing: &mut Vec<MissingDep>,
) -> Result<(), AllocError>
    ensures { OnOk result (AddsApart logged.entry file.now output (told_texts logged.entry numbers.now) missing.old.items missing.new.items) }
{
    let made = made_inputs(alloc, logged, output, numbers, file)?;
    if made.is_empty() {
        return Ok(());
    }
    let above = needed(alloc, &logged.declared.graph, output)?;
    push_unmarked(made.as_slice(), above.as_slice(), missing)
}

/// Adds those whose makers have no mark.
fn push_unmarked(
    made: &[MissingDep],
    marks: &[bool],
    missing: &mut Vec<MissingDep>,
) -> Result<(), AllocError>
    ensures { OnOk result (AddsDeps missing.old.items missing.new.items (IsUnmarked marks.now made.now)) }
{
    for dep in made {
        push_if_unmarked(*dep, marks, missing)?;
    }
    Ok(())
}

fn push_if_unmarked(
    dep: MissingDep,
    marks: &[bool],
    missing: &mut Vec<MissingDep>,
) -> Result<(), AllocError>
    ensures { OnOk result (AddsDeps missing.old.items missing.new.items (IsUnmarked marks.now (dep ∷ []))) }
{
    if is_marked(marks, dep.maker.index()) {
        return Ok(());
    }
    missing.push(dep)?;
    Ok(())
}

/// Those of the recorded paths of an output that edges make, with these edges.
fn made_inputs(
    alloc: Global,
    logged: Logged<'_>,
    output: PathId,
    numbers: &[u32],
    file: &str,
) -> Result<Vec<MissingDep>, AllocError>
    ensures { IfOk result (λ made. AddsMade logged.entry file.now output (told_texts logged.entry numbers.now) [] made.items) }
{
    let mut made = Vec::new(alloc);
    for number in numbers {
        push_made(logged, output, *number, file, &mut made)?;
    }
    Ok(made)
}

fn push_made(
    logged: Logged<'_>,
    output: PathId,
    number: u32,
    file: &str,
    made: &mut Vec<MissingDep>,
) -> Result<(), AllocError>
    ensures { OnOk result (AddsMade logged.entry file.now output (told_text logged.entry number) made.old.items made.new.items) }
{
    let Some(path) = logged.records.deps_path(number) else {
        return Ok(());
    };
    if path == file {
        return Ok(());
    }
    let graph = &logged.declared.graph;
    let Some(input) = graph.manifest.paths.number_of(path) else {
        return Ok(());
    };
    let Some(maker) = graph.maker(input) else {
        return Ok(());
    };
    made.push(MissingDep {
        output,
        input,
        maker,
    })?;
    Ok(())
}

/// For each edge whether it is above the output's edge, or that itself.
fn needed(alloc: Global, graph: &Graph, output: PathId) -> Result<Vec<bool>, AllocError>
    ensures { IfOk result (λ marks. AreNeeded graph.now output marks.items) }
{
    let one = [output];
    let edges = edges_above(alloc, graph, one.as_slice())?;
    let mut marks = vec![in alloc; false; graph.edges()]?;
    mark_edges(&mut marks, edges.as_slice());
    Ok(marks)
}

/// Marks each of these edges.
fn mark_edges(marks: &mut Vec<bool>, edges: &[EdgeId])
    ensures count { length marks.new.items ≡ length marks.old.items }
    ensures marks { MarksAlso marks.old.items marks.new.items edges.now }
{
    for edge in edges {
        set_mark(marks, edge.index());
    }
}
