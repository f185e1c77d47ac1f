//! The paths that words of the command line name.

ghost use Rattle.std.specs.Prelude.{IfOk, IfSome, MatchOption, map};
ghost use Rattle.std.specs.Map.Iter.{deref};
ghost use Rattle.tools.specs.Found.{HasText, IsFirstMade, IsFirstMadeOf, IsMarked, IsNamed, IsNamedBy, IsUnmarked, AreAsked};

use crate::access::{outputs_at, users_at};
use crate::declared::Declared;
use crate::fault::Fault;
use crate::near::near;
use crate::recorded::first_reader;
use crate::unread::defaults;
use graph::Graph;
use lexer::{ReadFault, canonical};
use paths::PathId;
use records::Records;
use std::alloc::Global;
use text::Text;

/// The path that a word names: its canonical one, or with `^` behind it the first output of the first edge that names the path as an
/// input. A graph may know paths that no build line names, as those of a log.
pub fn target(alloc: Global, graph: &Graph, word: &str) -> Result<PathId, Fault>
    ensures { IfOk result (IsNamed graph.now word.now) }
{
    match canonical(alloc, word) {
        Ok(path) => named(alloc, graph, path.as_str()),
        Err(ReadFault::EmptyPath) => Err(Fault::EmptyPath),
        Err(ReadFault::Memory) => Err(Fault::Memory),
    }
}

/// The path that a canonical one names, with or without the mark.
fn named(alloc: Global, graph: &Graph, path: &str) -> Result<PathId, Fault>
    ensures { IfOk result (IsNamedBy graph.now path.now) }
{
    match without_mark(path) {
        Some(read) => first_made_of(alloc, graph, read),
        None => known(alloc, graph, path),
    }
}

/// What stands in front of a `^` at the end.
fn without_mark(path: &str) -> Option<&str>
    ensures { MatchOption result (IsUnmarked path.now) (λ front. IsMarked path.now front.now) }
{
    path.strip_suffix('^')
}

/// The path of this text.
fn known(alloc: Global, graph: &Graph, path: &str) -> Result<PathId, Fault>
    ensures { IfOk result (HasText graph.now path.now) }
{
    match graph.manifest.paths.number_of(path) {
        Some(number) => Ok(number),
        None => {
            let near = near(alloc, &graph.manifest.paths, path)?;
            Err(Fault::UnknownTarget(Text::from_str(alloc, path)?, near))
        }
    }
}

/// The first output of the first edge that names the path as an input.
fn first_made_of(alloc: Global, graph: &Graph, path: &str) -> Result<PathId, Fault>
    ensures { IfOk result (IsFirstMadeOf graph.now path.now) }
{
    let read = known(alloc, graph, path)?;
    match first_made(graph, read) {
        Some(output) => Ok(output),
        None => Err(Fault::NoOutEdge(Text::from_str(alloc, path)?)),
    }
}

/// The first output of the first edge that names the path.
fn first_made(graph: &Graph, path: PathId) -> Option<PathId>
    ensures { IfSome result (IsFirstMade graph.now path) }
{
    let edge = users_at(graph, path).first()?;
    outputs_at(graph, *edge).first().copied()
}

/// The paths that these words name; what is meant where there are none.
pub fn asked(alloc: Global, graph: &Graph, words: &[&str]) -> Result<Vec<PathId>, Fault>
    ensures { IfOk result (λ paths. AreAsked graph.now (map deref words.now) paths.items) }
{
    if words.is_empty() {
        return defaults(alloc, graph);
    }
    let mut paths = Vec::with_capacity(alloc, words.len())?;
    for word in words {
        paths.push(target(alloc, graph, word)?)?;
    }
    Ok(paths)
}

/// The paths that these words name, where logs may tell what is made of a path: with `^` behind it also the first output whose deps
/// record names it.
pub fn asked_in_logs(
    alloc: Global,
    declared: &Declared,
    records: &Records,
    words: &[&str],
) -> Result<Vec<PathId>, Fault> {
    if words.is_empty() {
        return defaults(alloc, &declared.graph);
    }
    let mut paths = Vec::with_capacity(alloc, words.len())?;
    for word in words {
        paths.push(target_in_logs(alloc, declared, records, word)?)?;
    }
    Ok(paths)
}

/// The path that a word names, where logs may tell what is made of a path.
pub fn target_in_logs(
    alloc: Global,
    declared: &Declared,
    records: &Records,
    word: &str,
) -> Result<PathId, Fault> {
    match target(alloc, &declared.graph, word) {
        Err(Fault::NoOutEdge(path)) => match first_reader(declared, records, path.as_str()) {
            Some(output) => Ok(output),
            None => Err(Fault::NoOutEdge(path)),
        },
        found => found,
    }
}
