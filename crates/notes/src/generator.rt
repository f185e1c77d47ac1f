//! Whether the build file is older than what its generator reads.

ghost use Rattle.std.specs.Prelude.{◌≡◌, ◌<◌, false, IfOk, IfSome, length};

use crate::edges::maker_of;
use crate::note::Older;
use crate::program::program_name;
use crate::stamps::stamp;
use depfile::inputs;
use paths::{Action, Command, EdgeId, Manifest};
use std::alloc::{AllocError, Global};
use std::fs;
use std::fs::Files;
use text::Text;

/// That the build file at this canonical path, which declares this, is older than what the command reads that makes it: the first later
/// input of its build line, or else of its depfile. None where no command makes it, where no build line names it, and where the command may
/// leave it as it was (`restat`).
pub fn older_file(
    alloc: Global,
    rt: &HostRuntime,
    manifest: &Manifest,
    file: &str,
) -> Result<Option<Older>, AllocError>
    ensures { IfOk result (λ found. IfSome found (λ older. older.file ≡ file.now)) }
{
    let Some((edge, command)) = generator_of(manifest, file) else {
        return Ok(None);
    };
    let Some(written) = stamp(rt, file) else {
        return Ok(None);
    };
    let Some(input) = later_text(alloc, rt, manifest, (edge, command), written)? else {
        return Ok(None);
    };
    Ok(Some(Older {
        file: Text::from_str(alloc, file)?,
        input,
        generator: name_of(alloc, command)?,
    }))
}

/// The edge that makes the file, and its command. The file may be a name of what the command makes: GN's generator writes it beside that.
fn generator_of<'a>(manifest: &'a Manifest, file: &str) -> Option<(EdgeId, &'a Command)>
    ensures { IfSome result (λ found. found.0 < length manifest.now.lines) }
{
    let edge = maker_of(manifest, manifest.number_of(file)?)?;
    match manifest.action(edge) {
        Action::Command(_) => writer(manifest, edge),
        Action::Alias => {
            let made = manifest.lines.inputs(edge).first()?;
            writer(manifest, maker_of(manifest, *made)?)
        }
    }
}

/// The edge and its command, if that writes its outputs anew each time it runs.
fn writer(manifest: &Manifest, edge: EdgeId) -> Option<(EdgeId, &Command)>
    requires { edge < length manifest.now.lines }
    ensures edge { IfSome result (λ found. found.0 ≡ edge) }
    ensures anew { IfSome result (λ found. found.1.now.restat ≡ false) }
{
    match manifest.action(edge) {
        Action::Command(command) if !command.restat => Some((edge, command)),
        _ => None,
    }
}

/// What the command of the edge reads and what was written later than then, as it is named.
fn later_text(
    alloc: Global,
    rt: &HostRuntime,
    manifest: &Manifest,
    generator: (EdgeId, &Command),
    written: u64,
) -> Result<Option<Text>, AllocError>
    requires { generator.0 < length manifest.now.lines }
{
    let (edge, command) = generator;
    match later_input(rt, manifest, edge, written) {
        Some(input) => Ok(Some(Text::from_str(alloc, input)?)),
        None => later_reported(alloc, rt, command.act.depfile.as_str(), written),
    }
}

/// The first input on the edge's build line whose file was written later than then.
fn later_input<'a, F: Files>(
    files: &F,
    manifest: &'a Manifest,
    edge: EdgeId,
    written: u64,
) -> Option<&'a str>
    requires { edge < length manifest.now.lines }
{
    for input in manifest.lines.regular_inputs(edge) {
        if let Some(path) = manifest.paths.get(*input) {
            if is_later(files, path, written) {
                return Some(path);
            }
        }
    }
    None
}

/// The first path of the depfile whose file was written later than then. None where there is no depfile, or no such text in it.
fn later_reported(
    alloc: Global,
    rt: &HostRuntime,
    depfile: &str,
    written: u64,
) -> Result<Option<Text>, AllocError> {
    let Ok(bytes) = fs::read(rt, depfile) else {
        return Ok(None);
    };
    let Ok(paths) = inputs(alloc, bytes.as_slice()) else {
        return Ok(None);
    };
    for path in paths.as_slice() {
        if is_later(rt, path.as_str(), written) {
            return Ok(Some(Text::from_str(alloc, path.as_str())?));
        }
    }
    Ok(None)
}

/// Whether the file at the path was written later than then.
fn is_later<F: Files>(files: &F, path: &str, written: u64) -> bool {
    match stamp(files, path) {
        Some(stamp) => stamp > written,
        None => false,
    }
}

/// The name of the program that the command runs.
fn name_of(alloc: Global, command: &Command) -> Result<Option<Text>, AllocError> {
    let line = command.act.command.to_text(alloc)?;
    match program_name(line.as_str()) {
        Some(name) => Ok(Some(Text::from_str(alloc, name)?)),
        None => Ok(None),
    }
}
