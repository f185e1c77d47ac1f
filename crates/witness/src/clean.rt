//! The clean build, one round after another.

ghost use Rattle.std.specs.Prelude.{◌≡◌, ◌++◌, ◌∷◌, [], None, map, IfOk, OnOk};
ghost use Rattle.model.specs.World.{view_of};
ghost use Rattle.witness.specs.Made.{behaviour, given_round, AreWritten, AreBuilt};

use crate::depfiles::Depfiles;
use crate::made::{give_at, made_paths};
use model::{BuildGraph, Edge, Writer};
use sim::{Commands, History};
use std::alloc::{AllocError, Global};
use text::{Bytes, Path};

/// What the files hold once the graph has been built from nothing but those of these files that no command makes:
/// as many rounds as there are edges, each of all commands at once. It runs every command in every round, so it is
/// for small graphs and for tests.
///
/// # Errors
///
/// Where memory is refused.
pub fn clean_build<C: Commands, D: Depfiles>(
    alloc: Global,
    commands: &C,
    depfiles: &D,
    graph: &BuildGraph,
    files: History,
) -> Result<History, AllocError>
    ensures { IfOk result (AreBuilt (behaviour C.outcome D.inputs) graph.now.edges files) }
{
    let mut files = files;
    build_anew(
        alloc,
        commands,
        depfiles,
        graph.edges.as_slice(),
        &mut files,
    )?;
    Ok(files)
}

/// What commands make is removed, and made in as many rounds as there are edges.
fn build_anew<C: Commands, D: Depfiles>(
    alloc: Global,
    commands: &C,
    depfiles: &D,
    edges: &[Edge],
    files: &mut History,
) -> Result<(), AllocError>
    ensures { OnOk result (AreBuilt (behaviour C.outcome D.inputs) edges.now files.old files.new) }
{
    let made = made_paths(alloc, edges)?;
    write_all(removals(alloc, &made)?, files)?;
    for _ in edges {
        write_all(
            round(alloc, commands, depfiles, edges, &made, files)?,
            files,
        )?;
    }
    Ok(())
}

/// No content for any of the paths.
fn removals(alloc: Global, made: &[&Path]) -> Result<Vec<(Path, Option<Bytes>)>, AllocError>
    ensures { IfOk result (λ contents. contents.items ≡ map (λ path. (path.now, None)) made.now) }
{
    let mut contents = Vec::new(alloc);
    for path in made {
        let path: &Path = path;
        push(&mut contents, path, None)?;
    }
    Ok(contents)
}

/// What the commands give at the paths, all in the same view.
fn round<C: Commands, D: Depfiles>(
    alloc: Global,
    commands: &C,
    depfiles: &D,
    edges: &[Edge],
    made: &[&Path],
    files: &History,
) -> Result<Vec<(Path, Option<Bytes>)>, AllocError>
    ensures { IfOk result (λ contents. contents.items ≡ given_round (behaviour C.outcome D.inputs) (view_of files.now) edges.now made.now) }
{
    let mut contents = Vec::new(alloc);
    for path in made {
        let path: &Path = path;
        let content = give_at(alloc, commands, depfiles, edges, files, path.as_str())?;
        push(&mut contents, path, content)?;
    }
    Ok(contents)
}

/// Puts the content of the path behind the others.
fn push(
    contents: &mut Vec<(Path, Option<Bytes>)>,
    path: &Path,
    content: Option<Bytes>,
) -> Result<(), AllocError>
    ensures { OnOk result (contents.new.items ≡ contents.old.items ++ (path.now, content) ∷ []) }
{
    let path = path.clone()?;
    contents.push((path, content))?;
    Ok(())
}

/// Writes these contents, or deletes a file where there is none.
fn write_all(contents: Vec<(Path, Option<Bytes>)>, files: &mut History) -> Result<(), AllocError>
    ensures { OnOk result (AreWritten contents.items files.old files.new) }
{
    for (path, content) in contents {
        files.write(Writer::Program, path, content)?;
    }
    Ok(())
}
