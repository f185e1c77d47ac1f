//! The paths of an edge, as an audit compares them with what its command did.

use crate::around::Names;
use crate::graphs::{action_of, order_only_inputs_of, outputs_of, regular_inputs_of, text_of};
use audit::Lists;
use graph::Graph;
use log_text::DepsLog;
use model::Act;
use paths::{Action, EdgeId, PathId, Paths};
use std::alloc::{AllocError, Global};

/// What is declared and reported, and how paths are named.
#[derive(Clone, Copy)]
pub struct Declared<'d> {
    pub graph: &'d Graph,
    pub names: &'d Names,
    /// The deps log, if there is one.
    pub deps: Option<&'d DepsLog>,
}

/// The paths of an edge.
pub fn lists_of(alloc: Global, declared: Declared<'_>, edge: EdgeId) -> Result<Lists, AllocError> {
    let mut lists = Lists {
        outputs: Paths::new(alloc),
        sides: Paths::new(alloc),
        inputs: Paths::new(alloc),
        order_only: Paths::new(alloc),
        reported: Paths::new(alloc),
        restat: false,
    };
    fill(alloc, declared, edge, &mut lists)?;
    Ok(lists)
}

/// Takes in the paths of an edge.
fn fill(
    alloc: Global,
    declared: Declared<'_>,
    edge: EdgeId,
    lists: &mut Lists,
) -> Result<(), AllocError> {
    let Declared { graph, .. } = declared;
    let order_only = order_only_inputs_of(graph, edge);
    push_paths(alloc, declared, outputs_of(graph, edge), &mut lists.outputs)?;
    let inputs = regular_inputs_of(graph, edge);
    push_through(alloc, declared, inputs, false, &mut lists.inputs)?;
    push_through(alloc, declared, order_only, true, &mut lists.order_only)?;
    push_all_reported(alloc, declared, edge, &mut lists.reported)?;
    lists.restat = push_sides(alloc, declared, edge, &mut lists.sides)?;
    Ok(())
}

/// Takes in the depfile and the response file of an edge; whether its command may leave outputs as they were.
pub fn push_sides(
    alloc: Global,
    declared: Declared<'_>,
    edge: EdgeId,
    sides: &mut Paths,
) -> Result<bool, AllocError> {
    match action_of(declared.graph, edge) {
        Some(action) => push_sides_of(alloc, declared, action, sides),
        None => Ok(false),
    }
}

fn push_sides_of(
    alloc: Global,
    declared: Declared<'_>,
    action: &Action,
    sides: &mut Paths,
) -> Result<bool, AllocError> {
    match action {
        Action::Command(command) => {
            push_files(alloc, declared, &command.act, sides)?;
            Ok(command.restat)
        }
        Action::Alias => Ok(false),
    }
}

fn push_files(
    alloc: Global,
    declared: Declared<'_>,
    act: &Act,
    sides: &mut Paths,
) -> Result<(), AllocError> {
    push_text(alloc, declared, act.depfile.as_str(), sides)?;
    push_text(alloc, declared, act.response_path.as_str(), sides)
}

fn push_text(
    alloc: Global,
    declared: Declared<'_>,
    path: &str,
    table: &mut Paths,
) -> Result<(), AllocError> {
    if path.is_empty() {
        return Ok(());
    }
    declared.names.add_to(alloc, table, path)
}

fn push_paths(
    alloc: Global,
    declared: Declared<'_>,
    numbers: &[PathId],
    table: &mut Paths,
) -> Result<(), AllocError> {
    for number in numbers {
        let path = text_of(declared.graph, *number);
        declared.names.add_to(alloc, table, path)?;
    }
    Ok(())
}

/// Takes in these paths, into a table that has none, and where a phony edge makes one its inputs too, and so on; with the order-only ones of
/// phony edges, or without.
fn push_through(
    alloc: Global,
    declared: Declared<'_>,
    inputs: &[PathId],
    with_order_only: bool,
    table: &mut Paths,
) -> Result<(), AllocError> {
    let mut open = Vec::from_slice(alloc, inputs)?;
    for _ in 0..usize::MAX {
        let Some(path) = open.pop() else {
            return Ok(());
        };
        let before = table.len();
        declared
            .names
            .add_to(alloc, table, text_of(declared.graph, path))?;
        if before < table.len() {
            push_behind(declared.graph, path, with_order_only, &mut open)?;
        }
    }
    Ok(())
}

/// Where a phony edge makes the path, its inputs are put at the end.
fn push_behind(
    graph: &Graph,
    path: PathId,
    with_order_only: bool,
    open: &mut Vec<PathId>,
) -> Result<(), AllocError> {
    let Some(alias) = graph.alias(path) else {
        return Ok(());
    };
    open.extend_from_slice(regular_inputs_of(graph, alias))?;
    if with_order_only {
        open.extend_from_slice(order_only_inputs_of(graph, alias))?;
    }
    Ok(())
}

/// Takes in what the command of the edge told when it ran last.
fn push_all_reported(
    alloc: Global,
    declared: Declared<'_>,
    edge: EdgeId,
    table: &mut Paths,
) -> Result<(), AllocError> {
    let Some(log) = declared.deps else {
        return Ok(());
    };
    for output in outputs_of(declared.graph, edge) {
        push_reported(
            alloc,
            declared,
            log,
            text_of(declared.graph, *output),
            table,
        )?;
    }
    Ok(())
}

fn push_reported(
    alloc: Global,
    declared: Declared<'_>,
    log: &DepsLog,
    output: &str,
    table: &mut Paths,
) -> Result<(), AllocError> {
    let Some(deps) = log.lookup(output) else {
        return Ok(());
    };
    for number in deps.paths.as_slice() {
        if let Some(path) = log.path(*number) {
            declared.names.add_to(alloc, table, path)?;
        }
    }
    Ok(())
}
