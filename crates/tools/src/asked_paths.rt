//! `-t query`: what makes a path, and what is made of it.

ghost use Rattle.std.specs.Prelude.{◌≡◌, ◌<◌, ◌++◌, ◌∷◌, [], IfOk, OnOk, Some, flat_map, length, string_bytes};
ghost use Rattle.graph.specs.Links.{links_of};
ghost use Rattle.tools.specs.Answers.{Tells, lines, maker_lines, marked, outputs_of, query_lines, validated_by, validated_lines, validating, validation_lines};

use crate::access::{outputs_at, text_at, users_at};
use crate::declared::Declared;
use crate::lines::push_line;
use paths::{EdgeId, PathId};
use std::alloc::{AllocError, Global};

/// What `query` prints of each of the paths: its maker with the inputs of that, and the outputs of the edges that name it.
pub fn query(alloc: Global, declared: &Declared, paths: &[PathId]) -> Result<String, AllocError>
    ensures { IfOk result (λ told. string_bytes told ≡ lines (flat_map (query_lines declared.now) paths.now)) }
{
    let mut told = String::new(alloc);
    for path in paths {
        push_path(alloc, declared, *path, &mut told)?;
    }
    Ok(told)
}

fn push_path(
    alloc: Global,
    declared: &Declared,
    path: PathId,
    told: &mut String,
) -> Result<(), AllocError>
    ensures { OnOk result (Tells told.old told.new (query_lines declared.now path)) }
{
    let graph = &declared.graph;
    push_line(told, &[text_at(graph, path), ":"])?;
    push_if_made(declared, path, told)?;
    push_line(told, &["  outputs:"])?;
    push_all_outputs(declared, users_at(graph, path), told)?;
    let validated = validated_by(alloc, declared, path)?;
    push_validated(declared, validated.as_slice(), told)
}

/// What makes the path, with its inputs.
fn push_if_made(declared: &Declared, path: PathId, told: &mut String) -> Result<(), AllocError>
    ensures { OnOk result (Tells told.old told.new (maker_lines declared.now ((links_of declared.now.graph).maker path))) }
{
    match declared.graph.maker(path) {
        Some(edge) => push_maker(declared, edge, told),
        None => Ok(()),
    }
}

/// The outputs of the edges that a path validates, behind a line of their own, where there are such edges.
fn push_validated(
    declared: &Declared,
    edges: &[EdgeId],
    told: &mut String,
) -> Result<(), AllocError>
    ensures { OnOk result (Tells told.old told.new (validated_lines declared.now edges.now)) }
{
    if edges.is_empty() {
        return Ok(());
    }
    push_line(told, &["  validation for:"])?;
    push_all_outputs(declared, edges, told)
}

fn push_maker(declared: &Declared, edge: EdgeId, told: &mut String) -> Result<(), AllocError>
    requires { edge < length declared.now.graph.manifest.lines }
    ensures { OnOk result (Tells told.old told.new (maker_lines declared.now (Some edge))) }
{
    let lines = &declared.graph.manifest.lines;
    push_line(told, &["  input: ", declared.rule(edge)])?;
    push_paths(declared, "    ", lines.explicit_inputs(edge), told)?;
    push_paths(declared, "    | ", lines.implicit_inputs(edge), told)?;
    push_paths(declared, "    || ", lines.order_only_inputs(edge), told)?;
    push_validations(declared, lines.validations(edge), told)
}

/// The validations of an edge, behind a line of their own, where it has some.
fn push_validations(
    declared: &Declared,
    paths: &[PathId],
    told: &mut String,
) -> Result<(), AllocError>
    ensures { OnOk result (Tells told.old told.new (validation_lines declared.now paths.now)) }
{
    if paths.is_empty() {
        return Ok(());
    }
    push_line(told, &["  validations:"])?;
    push_paths(declared, "    ", paths, told)
}

fn push_paths(
    declared: &Declared,
    mark: &str,
    paths: &[PathId],
    told: &mut String,
) -> Result<(), AllocError>
    ensures { OnOk result (Tells told.old told.new (marked declared.now mark.now paths.now)) }
{
    for path in paths {
        push_line(told, &[mark, text_at(&declared.graph, *path)])?;
    }
    Ok(())
}

fn push_all_outputs(
    declared: &Declared,
    edges: &[EdgeId],
    told: &mut String,
) -> Result<(), AllocError>
    ensures { OnOk result (Tells told.old told.new (outputs_of declared.now edges.now)) }
{
    for edge in edges {
        push_paths(declared, "    ", outputs_at(&declared.graph, *edge), told)?;
    }
    Ok(())
}

/// The edges that name the path for validation, in reading order.
fn validated_by(alloc: Global, declared: &Declared, path: PathId) -> Result<Vec<EdgeId>, AllocError>
    ensures { IfOk result (λ edges. edges.items ≡ validated_by declared.now path) }
{
    let mut edges = Vec::new(alloc);
    for place in 0..declared.graph.edges() {
        let edge = declared.graph.manifest.edge(place);
        push_if_validated(declared, edge, path, &mut edges)?;
    }
    Ok(edges)
}

fn push_if_validated(
    declared: &Declared,
    edge: EdgeId,
    path: PathId,
    edges: &mut Vec<EdgeId>,
) -> Result<(), AllocError>
    requires { edge < length declared.now.graph.manifest.lines }
    ensures { OnOk result (edges.new.items ≡ edges.old.items ++ validating declared.now path (edge ∷ [])) }
{
    if declared.graph.validations(edge).contains(&path) {
        edges.push(edge)?;
        return Ok(());
    }
    Ok(())
}
