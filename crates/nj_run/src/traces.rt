//! Whether a build file names what traces are written to.

ghost use Rattle.std.specs.Prelude.{◌≡◌, ◌<◌, ◌^◌, None, IfNone, IfOk, IfSome, IsFalse, IsTrue, codes, slice_get};
ghost use Rattle.std.specs.Option.{option_map};
ghost use Rattle.std.specs.Map.Iter.{deref};
ghost use Rattle.nj_run.specs.Traces.{AreNoTraces, IsTracePath, begins_so, first_of, first_side, side_in};

use paths::{Action, Manifest, PathId, Paths};
use std::alloc::{AllocError, Global};
use text::Text;

/// How the paths begin of files into which traces are written.
const START: &[u8] = b".nj_trace.";

/// The first path that build lines name and that begins as those of files do into which traces are written; where there is none, the first
/// such depfile or response file. It takes a time of the order of the paths and of the edges.
pub fn named_trace(alloc: Global, manifest: &Manifest) -> Result<Option<Text>, AllocError>
    ensures some { IfOk result (λ found. IfSome found IsTracePath) }
    ensures none { IfOk result (λ found. IfNone found (AreNoTraces manifest.now.paths)) }
    ensures sides { IfOk result (λ found. IfNone found (first_side manifest.now.actions ≡ None)) }
{
    if let Some(path) = first_trace(&manifest.paths) {
        return Ok(Some(Text::from_str(alloc, path)?));
    }
    match first_side(manifest.actions.as_slice()) {
        Some(path) => Ok(Some(Text::from_str(alloc, path)?)),
        None => Ok(None),
    }
}

/// The first of these paths that begins so.
fn first_trace(paths: &Paths) -> Option<&str>
    ensures some { IfSome result (λ path. IsTracePath path.now) }
    ensures none { IfNone result (AreNoTraces paths.now) }
{
    for place in 0..paths.len() {
        if let Some(path) = path_at(paths, place) {
            if is_trace_path(path) {
                return Some(path);
            }
        }
    }
    None
}

/// The path in this place.
fn path_at(paths: &Paths, place: usize) -> Option<&str>
    requires { place < 2 ^ 32 }
    ensures { option_map deref result ≡ slice_get paths.now place }
{
    paths.get(PathId::at(place)?)
}

/// The first depfile or response file of these that begins so.
fn first_side(actions: &[Action]) -> Option<&str>
    ensures some { IfSome result (λ path. IsTracePath path.now) }
    ensures side { option_map deref result ≡ first_side actions.now }
{
    for action in actions {
        if let Some(path) = side_in(action) {
            return Some(path);
        }
    }
    None
}

/// The depfile or the response file of what an edge does, if that begins so.
fn side_in(action: &Action) -> Option<&str>
    ensures some { IfSome result (λ path. IsTracePath path.now) }
    ensures side { option_map deref result ≡ side_in action.now }
{
    match action {
        Action::Alias => None,
        Action::Command(command) => first_of(
            command.act.depfile.as_str(),
            command.act.response_path.as_str(),
        ),
    }
}

/// The first of these two that begins so.
fn first_of<'a>(one: &'a str, other: &'a str) -> Option<&'a str>
    ensures some { IfSome result (λ path. IsTracePath path.now) }
    ensures first { option_map deref result ≡ first_of one.now other.now }
{
    if is_trace_path(one) {
        return Some(one);
    }
    if is_trace_path(other) {
        return Some(other);
    }
    None
}

/// Whether the path begins as those of files do into which traces are written.
fn is_trace_path(path: &str) -> bool
    ensures { result ≡ begins_so path.now }
{
    path.as_bytes().starts_with(start())
}

/// How these paths begin.
fn start() -> &'static [u8]
    ensures { result.now ≡ codes ".nj_trace." }
{
    START
}
