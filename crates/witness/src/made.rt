//! Which command makes a path, and what it gives there.

ghost use Rattle.std.specs.Prelude.{◌≡◌, ◌++◌, ◌&&◌, ℕ, None, List, option_copied, IfOk, OnOk};
ghost use Rattle.model.specs.World.{view_of};
ghost use Rattle.model.specs.Graph.{has};
ghost use Rattle.model.specs.Outcome.{last_write, given};
ghost use Rattle.sim.specs.Toy.{texts_in};
ghost use Rattle.witness.specs.Made.{behaviour, if_command, command_of, made_paths, made_among, given_at, IsWhetherRead};

use crate::depfiles::Depfiles;
use model::{Act, Edge, Outcome, Write};
use sim::{Commands, History};
use std::alloc::{AllocError, Global};
use text::{Bytes, Path};

fn is_among(paths: &[Path], path: &str) -> bool
    ensures { result ≡ has paths.now path.now }
{
    for other in paths {
        if other.as_str() == path {
            return true;
        }
    }
    false
}

#[tactic(auto, using(crate::proofs::CleanLists::has_append))]
fn makes(edge: &Edge, path: &str) -> bool
    ensures { result ≡ has (edge.now.explicit_outputs ++ edge.now.implicit_outputs) path.now }
{
    is_among(edge.explicit_outputs.as_slice(), path)
        || is_among(edge.implicit_outputs.as_slice(), path)
}

/// The edge whose command makes the path; a phony edge has none.
fn command_of<'a>(edges: &'a [Edge], path: &str) -> Option<&'a Edge>
    ensures { option_copied result ≡ command_of edges.now path.now }
{
    for edge in edges {
        if makes(edge, path) {
            return if edge.phony { None } else { Some(edge) };
        }
    }
    None
}

/// What the writes leave at the path where nothing was.
fn left_at<'a>(writes: &'a [Write], path: &str) -> Option<&'a Bytes>
    ensures { option_copied result ≡ last_write path.now None writes.now }
{
    let mut held = None;
    for write in writes {
        if write.path.as_str() == path {
            held = write.content.as_ref();
        }
    }
    held
}

/// Whether the depfile that the outcome leaves for the act is not refused.
fn is_read<D: Depfiles>(
    alloc: Global,
    depfiles: &D,
    act: &Act,
    outcome: &Outcome,
) -> Result<bool, AllocError>
    ensures { IfOk result (IsWhetherRead D.inputs act.now outcome.now) }
{
    if act.depfile.is_empty() {
        return Ok(true);
    }
    match left_at(outcome.writes.as_slice(), act.depfile.as_str()) {
        Some(content) => depfiles.accepts(alloc, content),
        None => Ok(true),
    }
}

/// What the command gives at the path: nothing where it fails.
fn give<C: Commands, D: Depfiles>(
    alloc: Global,
    commands: &C,
    depfiles: &D,
    act: &Act,
    files: &History,
    path: &str,
) -> Result<Option<Bytes>, AllocError>
    ensures { IfOk result (λ content. content ≡ given (behaviour C.outcome D.inputs) act.now (view_of files.now) path.now) }
{
    let outcome = commands.run(alloc, act, files)?;
    if !outcome.ok {
        return Ok(None);
    }
    if !is_read(alloc, depfiles, act, &outcome)? {
        return Ok(None);
    }
    match left_at(outcome.writes.as_slice(), path) {
        Some(content) => Ok(Some(content.clone()?)),
        None => Ok(None),
    }
}

/// What the command that makes the path gives there.
pub(crate) fn give_at<C: Commands, D: Depfiles>(
    alloc: Global,
    commands: &C,
    depfiles: &D,
    edges: &[Edge],
    files: &History,
    path: &str,
) -> Result<Option<Bytes>, AllocError>
    ensures { IfOk result (λ content. content ≡ given_at (behaviour C.outcome D.inputs) (view_of files.now) edges.now path.now) }
{
    match command_of(edges, path) {
        Some(edge) => give(alloc, commands, depfiles, &edge.act, files, path),
        None => Ok(None),
    }
}

/// The paths that commands make.
pub(crate) fn made_paths<'a>(alloc: Global, edges: &'a [Edge]) -> Result<Vec<&'a Path>, AllocError>
    ensures { IfOk result (λ made. texts_in made.items ≡ made_paths edges.now) }
{
    let mut made = Vec::new(alloc);
    for edge in edges {
        push_made(edges, edge.explicit_outputs.as_slice(), &mut made)?;
        push_made(edges, edge.implicit_outputs.as_slice(), &mut made)?;
    }
    Ok(made)
}

/// Those of the outputs that commands make go to the end.
fn push_made<'a>(
    edges: &[Edge],
    outputs: &'a [Path],
    made: &mut Vec<&'a Path>,
) -> Result<(), AllocError>
    ensures { OnOk result (texts_in made.new.items ≡ texts_in made.old.items ++ made_among edges.now outputs.now) }
{
    for path in outputs {
        if command_of(edges, path.as_str()).is_some() {
            made.push(path)?;
        }
    }
    Ok(())
}
