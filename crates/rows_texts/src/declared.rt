//! What a manifest declares, in short.

ghost use Rattle.std.specs.Prelude.{◌<◌, length};

use model::{Act, Deps};
use paths::{Action, Command, EdgeId, Manifest, PathId};
use std::alloc::{AllocError, Global};
use tables::push_word;

/// The edges, pools, defaults and the folder of the logs, each with `;` behind it. What is not set is left out.
pub fn push_declared(
    alloc: Global,
    manifest: &Manifest,
    told: &mut String,
) -> Result<(), AllocError> {
    for place in 0..manifest.lines.len() {
        push_edge(alloc, manifest, manifest.edge(place), told)?;
    }
    push_pools(alloc, manifest, told)?;
    push_defaults(manifest, told)?;
    push_named(told, "builddir", manifest.builddir.as_str())
}

fn push_pools(alloc: Global, manifest: &Manifest, told: &mut String) -> Result<(), AllocError> {
    for pool in manifest.pools.as_slice() {
        let line = format!(in alloc; "{} {}", pool.name.as_str(), pool.depth)?;
        push_named(told, "pool", line.as_str())?;
    }
    Ok(())
}

fn push_defaults(manifest: &Manifest, told: &mut String) -> Result<(), AllocError> {
    for number in manifest.defaults.as_slice() {
        push_named(told, "default", path(manifest, *number))?;
    }
    Ok(())
}

fn path(manifest: &Manifest, number: PathId) -> &str {
    manifest.paths.get(number).unwrap_or("no path")
}

/// Puts a name and a text with `;` behind it, if that is not empty.
fn push_named(told: &mut String, name: &str, text: &str) -> Result<(), AllocError> {
    if text.is_empty() {
        return Ok(());
    }
    push_word(told, name)?;
    push_word(told, text)?;
    told.push(';')
}

/// `outputs | implicit outputs : inputs | implicit inputs || order-only inputs |@ validations {command}` and what else is set.
fn push_edge(
    alloc: Global,
    manifest: &Manifest,
    edge: EdgeId,
    told: &mut String,
) -> Result<(), AllocError>
    requires { edge < length manifest.now.lines }
{
    push_lists(manifest, edge, told)?;
    match manifest.action(edge) {
        Action::Alias => push_word(told, "phony")?,
        Action::Command(command) => {
            push_act(alloc, told, &command.act)?;
            push_settings(manifest, command, told)?;
        }
    }
    told.push(';')
}

fn push_lists(manifest: &Manifest, edge: EdgeId, told: &mut String) -> Result<(), AllocError>
    requires { edge < length manifest.now.lines }
{
    let lines = &manifest.lines;
    push_paths(manifest, "", lines.explicit_outputs(edge), told)?;
    push_paths(manifest, "|", lines.implicit_outputs(edge), told)?;
    push_word(told, ":")?;
    push_paths(manifest, "", lines.explicit_inputs(edge), told)?;
    push_paths(manifest, "|", lines.implicit_inputs(edge), told)?;
    push_paths(manifest, "||", lines.order_only_inputs(edge), told)?;
    push_paths(manifest, "|@", lines.validations(edge), told)
}

/// A mark before the paths, if there are any.
fn push_paths(
    manifest: &Manifest,
    mark: &str,
    numbers: &[PathId],
    told: &mut String,
) -> Result<(), AllocError> {
    push_flag(told, mark, !mark.is_empty() && !numbers.is_empty())?;
    for number in numbers {
        push_word(told, path(manifest, *number))?;
    }
    Ok(())
}

fn push_act(alloc: Global, told: &mut String, act: &Act) -> Result<(), AllocError> {
    push_word(told, "{")?;
    act.command.push_to(told)?;
    told.push('}')?;
    push_set(told, "depfile=", act.depfile.as_str())?;
    push_set(told, "rspfile=", act.response_path.as_str())?;
    let content = act.response_content.to_text(alloc)?;
    push_set(told, "content=", content.as_str())
}

fn push_settings(
    manifest: &Manifest,
    command: &Command,
    told: &mut String,
) -> Result<(), AllocError> {
    push_set(told, "description=", command.description.as_str())?;
    push_flag(told, "deps", command.deps == Deps::Gcc)?;
    push_flag(told, "restat", command.restat)?;
    if let Some(pool) = &command.pool {
        push_set(told, "pool=", pool.as_str())?;
    }
    if let Some(number) = command.dyndep {
        push_set(told, "dyndep=", path(manifest, number))?;
    }
    Ok(())
}

/// Puts a text behind its name, if it is not empty.
fn push_set(told: &mut String, name: &str, text: &str) -> Result<(), AllocError> {
    push_flag(told, name, !text.is_empty())?;
    told.push_str(text)
}

fn push_flag(told: &mut String, mark: &str, is_set: bool) -> Result<(), AllocError> {
    if is_set {
        return push_word(told, mark);
    }
    Ok(())
}
