//! The edges of a manifest in texts, of which the clean build is made.

ghost use Rattle.std.specs.Prelude.{◌<◌, length};

use manifest::Manifest;
use model::{Act, BuildGraph, Deps, Edge};
use paths::{Action, Command, EdgeId, PathId, Paths};
use std::alloc::{AllocError, Global};
use text::{Items, Path, SharedText, Text};

/// A copy of the edges that the manifest declares. Pools and defaults are of no account for a clean build.
pub fn graph_of(alloc: Global, manifest: &Manifest) -> Result<BuildGraph, AllocError> {
    let mut edges = Items::new(alloc);
    for place in 0..manifest.lines.len() {
        edges.push(edge(alloc, manifest, manifest.edge(place))?)?;
    }
    Ok(BuildGraph {
        edges,
        pools: Items::new(alloc),
        defaults: Items::new(alloc),
        builddir: Text::new(alloc),
    })
}

fn edge(alloc: Global, manifest: &Manifest, edge: EdgeId) -> Result<Edge, AllocError>
    requires { edge < length manifest.now.lines }
{
    let mut copy = nothing(alloc);
    put_edge(alloc, manifest, edge, &mut copy)?;
    Ok(copy)
}

fn put_edge(
    alloc: Global,
    manifest: &Manifest,
    edge: EdgeId,
    copy: &mut Edge,
) -> Result<(), AllocError>
    requires { edge < length manifest.now.lines }
{
    put_lists(alloc, manifest, edge, copy)?;
    match manifest.action(edge) {
        Action::Command(command) => put_command(alloc, &manifest.paths, command, copy),
        Action::Alias => Ok(()),
    }
}

/// An alias without paths.
fn nothing(alloc: Global) -> Edge {
    Edge {
        explicit_outputs: Items::new(alloc),
        implicit_outputs: Items::new(alloc),
        explicit_inputs: Items::new(alloc),
        implicit_inputs: Items::new(alloc),
        order_only_inputs: Items::new(alloc),
        validations: Items::new(alloc),
        act: Act {
            command: SharedText::new(),
            depfile: Text::new(alloc),
            response_path: Text::new(alloc),
            response_content: SharedText::new(),
        },
        description: Text::new(alloc),
        deps: Deps::Unset,
        restat: false,
        pool: None,
        dyndep: None,
        phony: true,
    }
}

fn put_lists(
    alloc: Global,
    manifest: &Manifest,
    edge: EdgeId,
    copy: &mut Edge,
) -> Result<(), AllocError>
    requires { edge < length manifest.now.lines }
{
    let (paths, lines) = (&manifest.paths, &manifest.lines);
    put_texts(
        alloc,
        paths,
        lines.explicit_outputs(edge),
        &mut copy.explicit_outputs,
    )?;
    put_texts(
        alloc,
        paths,
        lines.implicit_outputs(edge),
        &mut copy.implicit_outputs,
    )?;
    put_texts(
        alloc,
        paths,
        lines.explicit_inputs(edge),
        &mut copy.explicit_inputs,
    )?;
    put_texts(
        alloc,
        paths,
        lines.implicit_inputs(edge),
        &mut copy.implicit_inputs,
    )?;
    put_texts(
        alloc,
        paths,
        lines.order_only_inputs(edge),
        &mut copy.order_only_inputs,
    )?;
    put_texts(alloc, paths, lines.validations(edge), &mut copy.validations)
}

fn put_command(
    alloc: Global,
    paths: &Paths,
    command: &Command,
    copy: &mut Edge,
) -> Result<(), AllocError> {
    copy.phony = false;
    copy.act = command.act.clone()?;
    copy.deps = command.deps;
    copy.restat = command.restat;
    if let Some(file) = command.dyndep {
        copy.dyndep = Some(Path::from_str(alloc, text_of(paths, file))?);
    }
    Ok(())
}

fn put_texts(
    alloc: Global,
    paths: &Paths,
    numbers: &[PathId],
    to: &mut Items<Path>,
) -> Result<(), AllocError> {
    for number in numbers {
        to.push(Path::from_str(alloc, text_of(paths, *number))?)?;
    }
    Ok(())
}

/// The text of a path; the empty one for a number that no path has.
fn text_of(paths: &Paths, number: PathId) -> &str {
    match paths.get(number) {
        Some(text) => text,
        None => "",
    }
}
