//! What helps where a build was refused.

ghost use Rattle.std.specs.Prelude.{◌<◌, ℕ, List, IfOk, IfSome, IsSome, length};
ghost use Rattle.notes.specs.Edges.{AreEdgesOf};
ghost use Rattle.notes.specs.Found.{FindsOnly, IsAbsent, IsOfAbsent, IsOfRecorded};

use crate::edges::{has, makers_of};
use crate::note::{Note, Recorded};
use manifest::{FaultKind, FileFault, ReadError};
use paths::{Action, EdgeId, Manifest};
use site::Texts;
use std::alloc::{AllocError, Global};
use text::Path;

/// That a generator is wanted, or another folder, where this is the fault of a main file that is not there.
pub fn no_build_file(fault: &FileFault) -> Result<Option<Note>, AllocError>
    ensures only { FindsOnly (IsOfAbsent fault.now) result }
    ensures found { IfOk result (λ found. (file : List ℕ) → IsAbsent fault.now file → IsSome found) }
{
    match &fault.kind {
        // the line of a file that is not there is 0 for the main file alone
        FaultKind::NotFound(file) if fault.line == 0 => Ok(Some(Note::NoBuildFile(file.clone()?))),
        _ => Ok(None),
    }
}

/// The first input on the way round a circle that no build line names: a command reported it, and that was recorded in this folder, of
/// which the empty one is the working folder. Each path is made by an edge that needs the next one. The build file is read anew, which takes
/// as long as it took to read it for the build.
///
/// # Errors
///
/// The build files have a fault now, the site gave one, or there was no memory.
pub fn recorded_input<R: Texts>(
    alloc: Global,
    texts: &mut R,
    file: &str,
    folder: &str,
    round: &[Path],
) -> Result<Option<Note>, ReadError>
    ensures { FindsOnly (IsOfRecorded folder.now round.now) result }
{
    let manifest = manifest::read(alloc, texts, file)?;
    Ok(first_recorded(alloc, &manifest, folder, round)?)
}

/// The first of these paths whose next one its edge needs by a record alone.
fn first_recorded(
    alloc: Global,
    manifest: &Manifest,
    folder: &str,
    round: &[Path],
) -> Result<Option<Note>, AllocError>
    ensures { FindsOnly (IsOfRecorded folder.now round.now) result }
{
    let makers = makers_of(alloc, manifest)?;
    for place in 1..round.len() {
        let output = round[place - 1].as_str();
        let input = round[place].as_str();
        if is_recorded(manifest, &makers, output, input) {
            return Ok(Some(Note::Recorded(Recorded {
                output: Path::from_str(alloc, output)?,
                input: Path::from_str(alloc, input)?,
                folder: Path::from_str(alloc, folder)?,
            })));
        }
    }
    Ok(None)
}

/// Whether the edge that makes the output needs the input by a record, where it needs it at all: a command without a dyndep file makes the
/// output, and no build line names the input.
fn is_recorded(manifest: &Manifest, makers: &[Option<EdgeId>], output: &str, input: &str) -> bool
    requires { AreEdgesOf manifest.now makers.now }
{
    match maker_in(manifest, makers, output) {
        Some(edge) => has_records(manifest, edge) && !is_declared(manifest, edge, input),
        None => false,
    }
}

/// The edge that makes the path.
fn maker_in(manifest: &Manifest, makers: &[Option<EdgeId>], path: &str) -> Option<EdgeId>
    requires { AreEdgesOf manifest.now makers.now }
    ensures { IfSome result (λ edge. edge < length manifest.now.lines) }
{
    *makers.get(manifest.number_of(path)?.index())?
}

/// Whether recorded inputs of the edge count.
fn has_records(manifest: &Manifest, edge: EdgeId) -> bool
    requires { edge < length manifest.now.lines }
{
    match manifest.action(edge) {
        Action::Command(command) => command.dyndep.is_none(),
        Action::Alias => false,
    }
}

/// Whether a build line names the input.
fn is_declared(manifest: &Manifest, edge: EdgeId, input: &str) -> bool
    requires { edge < length manifest.now.lines }
{
    match manifest.number_of(input) {
        Some(input) => has(manifest.lines.inputs(edge), input),
        None => false,
    }
}
