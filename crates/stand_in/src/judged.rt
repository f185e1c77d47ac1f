//! Whether a generator is to be run: by stamps alone.

ghost use Rattle.std.specs.Prelude.{◌≡◌, ◌<◌, false, length, IsSome};
ghost use Rattle.stand_in.specs.Moves.{OnlyAsks};

use graph::{Graph, Reading};
use model::SiteFault;
use paths::{EdgeId, PathId};
use site::Site;
use std::alloc::Global;
use text::Path;
use tools::{Declared, outputs_at, regular_inputs_at, text_at};

/// Whether the edge of a generator is out of date: an input is absent or later than what it makes, or that is absent. Inputs are the
/// regular ones of its line, through aliases, and those of its depfile as it stands; one that cannot be read counts as later, and so
/// does such a depfile. What it makes is the file that was read, where the edge makes that, and else its oldest output.
pub fn is_out_of_date<S: Site>(
    alloc: Global,
    site: &mut S,
    declared: &Declared,
    edge: EdgeId,
    file: Option<PathId>,
) -> Result<bool, SiteFault>
    requires { edge < length declared.now.graph.manifest.lines }
    ensures { OnlyAsks S.tells (λ later. later ≡ false) (S.world site.old) (S.world site.new) result }
{
    let Some(made) = made_stamp(site, declared, edge, file)? else {
        return Ok(true);
    };
    if has_later_input(alloc, site, &declared.graph, edge, made)? {
        return Ok(true);
    }
    has_later_told(alloc, site, declared, edge, made)
}

/// The stamp of what the edge makes; none where that is absent.
fn made_stamp<S: Site>(
    site: &mut S,
    declared: &Declared,
    edge: EdgeId,
    file: Option<PathId>,
) -> Result<Option<u64>, SiteFault>
    ensures { OnlyAsks S.tells (λ stamp. IsSome stamp) (S.world site.old) (S.world site.new) result }
{
    let outputs = outputs_at(&declared.graph, edge);
    if let Some(file) = file {
        if outputs.contains(&file) {
            return stamp(site, text_at(&declared.graph, file));
        }
    }
    let mut oldest = u64::MAX;
    for output in outputs {
        let Some(stamp) = stamp(site, text_at(&declared.graph, *output))? else {
            return Ok(None);
        };
        oldest = oldest.min(stamp);
    }
    Ok(Some(oldest))
}

/// The stamp of a file; none where it is absent or cannot be looked at.
fn stamp<S: Site>(site: &mut S, path: &str) -> Result<Option<u64>, SiteFault>
    ensures { OnlyAsks S.tells (λ stamp. IsSome stamp) (S.world site.old) (S.world site.new) result }
{
    match site.stat(path) {
        Ok(found) => Ok(found),
        Err(SiteFault::Device) => Ok(None),
        Err(fault) => Err(fault),
    }
}

/// Whether the file is absent or later than this stamp.
fn is_later<S: Site>(site: &mut S, path: &str, made: u64) -> Result<bool, SiteFault>
    ensures { OnlyAsks S.tells (λ later. later ≡ false) (S.world site.old) (S.world site.new) result }
{
    match stamp(site, path)? {
        None => Ok(true),
        Some(stamp) => Ok(stamp > made),
    }
}

/// Whether a regular input of the edge is absent or later, through aliases. An alias itself counts as a build counts it.
fn has_later_input<S: Site>(
    alloc: Global,
    site: &mut S,
    graph: &Graph,
    edge: EdgeId,
    made: u64,
) -> Result<bool, SiteFault>
    requires { edge < length graph.now.manifest.lines }
    ensures { OnlyAsks S.tells (λ later. later ≡ false) (S.world site.old) (S.world site.new) result }
{
    match graph.reading(alloc, edge)? {
        Reading::Itself(edge) => is_one_later(site, graph, regular_inputs_at(graph, edge), made),
        Reading::Through(edges) => has_later_of(site, graph, edges.as_slice(), made),
    }
}

/// Whether a regular input of one of these edges is absent or later.
fn has_later_of<S: Site>(
    site: &mut S,
    graph: &Graph,
    edges: &[EdgeId],
    made: u64,
) -> Result<bool, SiteFault>
    ensures { OnlyAsks S.tells (λ later. later ≡ false) (S.world site.old) (S.world site.new) result }
{
    for edge in edges {
        if is_one_later(site, graph, regular_inputs_at(graph, *edge), made)? {
            return Ok(true);
        }
    }
    Ok(false)
}

fn is_one_later<S: Site>(
    site: &mut S,
    graph: &Graph,
    paths: &[PathId],
    made: u64,
) -> Result<bool, SiteFault>
    ensures { OnlyAsks S.tells (λ later. later ≡ false) (S.world site.old) (S.world site.new) result }
{
    for path in paths {
        if is_input_later(site, graph, *path, made)? {
            return Ok(true);
        }
    }
    Ok(false)
}

/// Whether an input is later. An absent alias that has inputs is not; what cannot be looked at is.
fn is_input_later<S: Site>(
    site: &mut S,
    graph: &Graph,
    path: PathId,
    made: u64,
) -> Result<bool, SiteFault>
    ensures { OnlyAsks S.tells (λ later. later ≡ false) (S.world site.old) (S.world site.new) result }
{
    match site.stat(text_at(graph, path)) {
        Ok(Some(stamp)) => Ok(stamp > made),
        Ok(None) => Ok(!graph.counts_if_present(path)),
        Err(SiteFault::Device) => Ok(true),
        Err(fault) => Err(fault),
    }
}

/// Whether an input that the depfile of the edge tells is absent or later; none is told where the edge names no depfile.
fn has_later_told<S: Site>(
    alloc: Global,
    site: &mut S,
    declared: &Declared,
    edge: EdgeId,
    made: u64,
) -> Result<bool, SiteFault>
    ensures { OnlyAsks S.tells (λ later. later ≡ false) (S.world site.old) (S.world site.new) result }
{
    let Some(command) = declared.command(edge) else {
        return Ok(false);
    };
    match command.act.depfile.as_str() {
        "" => Ok(false),
        path => is_told_later(alloc, site, path, made),
    }
}

/// Whether an input that this depfile tells is absent or later. An absent one, and one that is refused, count as later.
fn is_told_later<S: Site>(
    alloc: Global,
    site: &mut S,
    path: &str,
    made: u64,
) -> Result<bool, SiteFault>
    ensures { OnlyAsks S.tells (λ later. later ≡ false) (S.world site.old) (S.world site.new) result }
{
    let content = match site.read(path) {
        Ok(Some(content)) => content,
        Ok(None) | Err(SiteFault::Device) => return Ok(true),
        Err(fault) => return Err(fault),
    };
    let inputs = match depfile::inputs(alloc, content.as_slice()) {
        Ok(inputs) => inputs,
        Err(depfile::ReadError::Memory) => return Err(SiteFault::Memory),
        Err(depfile::ReadError::Fault(_)) => return Ok(true),
    };
    is_some_later(site, inputs.as_slice(), made)
}

/// Whether one of the paths is absent or later.
fn is_some_later<S: Site>(site: &mut S, paths: &[Path], made: u64) -> Result<bool, SiteFault>
    ensures { OnlyAsks S.tells (λ later. later ≡ false) (S.world site.old) (S.world site.new) result }
{
    for path in paths {
        if is_later(site, path.as_str(), made)? {
            return Ok(true);
        }
    }
    Ok(false)
}
