//! `-t deps`: what deps records tell.

ghost use Rattle.model.specs.Calls.{OnlyLooks};

use crate::access::{outputs_at, text_at};
use crate::declared::Logged;
use crate::fault::Fault;
use crate::lines::push_line;
use log_text::Deps;
use model::Deps as Kind;
use paths::PathId;
use records::Records;
use site::Site;
use std::alloc::{AllocError, Global};

/// What `deps` prints of each of the paths: how many paths the record in force tells of it, when its command began, whether it was
/// written since then, and these paths. Where no path is named, it is told of each output whose edge sets `deps` and has a record.
pub fn deps<S: Site>(
    alloc: Global,
    site: &mut S,
    logged: Logged<'_>,
    paths: &[PathId],
) -> Result<String, Fault>
    ensures { OnlyLooks S.tells (S.world site.old) (S.world site.new) }
{
    let mut told = String::new(alloc);
    for path in paths {
        push_record(alloc, site, logged, *path, &mut told)?;
    }
    Ok(told)
}

/// The outputs of the edges that set `deps`, where they have a record, in reading order.
pub fn recorded_outputs(alloc: Global, logged: Logged<'_>) -> Result<Vec<PathId>, AllocError> {
    let Logged { declared, records } = logged;
    let mut paths = Vec::new(alloc);
    for place in 0..declared.graph.edges() {
        let edge = declared.graph.manifest.edge(place);
        match declared.command(edge) {
            Some(command) if command.deps == Kind::Gcc => {
                push_recorded(records, outputs_at(&declared.graph, edge), &mut paths)?
            }
            _ => {}
        }
    }
    Ok(paths)
}

fn push_recorded(
    records: &Records,
    outputs: &[PathId],
    paths: &mut Vec<PathId>,
) -> Result<(), AllocError> {
    for output in outputs {
        if records.deps(*output).is_some() {
            paths.push(*output)?;
        }
    }
    Ok(())
}

fn push_record<S: Site>(
    alloc: Global,
    site: &mut S,
    logged: Logged<'_>,
    path: PathId,
    told: &mut String,
) -> Result<(), Fault>
    ensures { OnlyLooks S.tells (S.world site.old) (S.world site.new) }
{
    let Logged { declared, records } = logged;
    let text = text_at(&declared.graph, path);
    match records.deps(path) {
        Some(deps) => push_found(alloc, site, records, text, deps, told),
        None => push_none(text, told),
    }
}

fn push_none(text: &str, told: &mut String) -> Result<(), Fault> {
    Ok(push_line(told, &[text, ": deps not found"])?)
}

/// Tells a record of the output with this path.
fn push_found<S: Site>(
    alloc: Global,
    site: &mut S,
    records: &Records,
    text: &str,
    deps: &Deps,
    told: &mut String,
) -> Result<(), Fault>
    ensures { OnlyLooks S.tells (S.world site.old) (S.world site.new) }
{
    let written = site.stat(text)?;
    let count = deps.paths.as_slice().len();
    let start = deps.start;
    let state = state(written, start);
    let numbers = format!(in alloc; ": #deps {count}, deps mtime {start} ({state})")?;
    push_line(told, &[text, numbers.as_str()])?;
    push_paths(records, deps, told)?;
    Ok(told.push('\n')?)
}

/// A record is of what the output holds where that was written once its command had begun, and else of what it held before.
fn state(written: Option<u64>, start: u64) -> &'static str {
    match written {
        Some(stamp) if stamp >= start => "VALID",
        _ => "STALE",
    }
}

fn push_paths(records: &Records, deps: &Deps, told: &mut String) -> Result<(), AllocError> {
    for number in deps.paths.as_slice() {
        if let Some(path) = records.deps_path(*number) {
            push_line(told, &["    ", path])?;
        }
    }
    Ok(())
}
