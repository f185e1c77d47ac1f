//! `-t commands`: the commands that make targets.

ghost use Rattle.std.specs.Prelude.{◌∷◌, [], IfOk, OnOk, string_bytes};
ghost use Rattle.tools.specs.Answers.{AreMakers, AreMeant, MeetsOne, PrintsCommands, Tells, commands_of};

use crate::above::edges_above;
use crate::declared::Declared;
use crate::lines::push_line;
use crate::marks::{is_marked, set_mark};
use graph::Graph;
use paths::{EdgeId, PathId};
use std::alloc::{AllocError, Global};

/// What `commands` prints: a line for each command that makes these paths or what they need, makers first; with `single` for those
/// that make the paths themselves.
pub fn commands(
    alloc: Global,
    declared: &Declared,
    paths: &[PathId],
    single: bool,
) -> Result<String, AllocError>
    ensures { IfOk result (λ told. PrintsCommands declared.now paths.now single (string_bytes told)) }
{
    let edges = meant(alloc, &declared.graph, paths, single)?;
    let mut told = String::new(alloc);
    for edge in edges.as_slice() {
        push_command(declared, *edge, &mut told)?;
    }
    Ok(told)
}

/// The line of an edge's command, where it has one.
fn push_command(declared: &Declared, edge: EdgeId, told: &mut String) -> Result<(), AllocError>
    ensures { OnOk result (Tells told.old told.new (commands_of declared.now (edge ∷ []))) }
{
    match declared.command(edge) {
        Some(command) => {
            let (front, rest) = command.act.command.parts();
            push_line(told, &[front, rest])
        }
        None => Ok(()),
    }
}

/// The edges that make these paths, each once, or all that are above them.
fn meant(
    alloc: Global,
    graph: &Graph,
    paths: &[PathId],
    single: bool,
) -> Result<Vec<EdgeId>, AllocError>
    ensures { IfOk result (λ edges. AreMeant graph.now paths.now single edges.items) }
{
    if single {
        return makers(alloc, graph, paths);
    }
    edges_above(alloc, graph, paths)
}

/// The edges that make these paths, each once.
pub fn makers(alloc: Global, graph: &Graph, paths: &[PathId]) -> Result<Vec<EdgeId>, AllocError>
    ensures { IfOk result (λ edges. AreMakers graph.now paths.now edges.items) }
{
    let mut met = vec![in alloc; false; graph.edges()]?;
    let mut edges = Vec::new(alloc);
    for path in paths {
        meet(graph, *path, &mut met, &mut edges)?;
    }
    Ok(edges)
}

/// Adds the edge that makes the path, where it was not met.
fn meet(
    graph: &Graph,
    path: PathId,
    met: &mut Vec<bool>,
    edges: &mut Vec<EdgeId>,
) -> Result<(), AllocError>
    ensures { OnOk result (MeetsOne graph.now path met.old.items edges.old.items met.new.items edges.new.items) }
{
    let Some(edge) = graph.maker(path) else {
        return Ok(());
    };
    if is_marked(met.as_slice(), edge.index()) {
        return Ok(());
    }
    edges.push(edge)?;
    set_mark(met, edge.index());
    Ok(())
}
