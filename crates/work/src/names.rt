//! The texts by which paths and edges are told to the user.

ghost use Rattle.std.specs.Prelude.{◌≡◌, ◌<◌, IfOk, All, length, map};
ghost use Rattle.paths.specs.Told.{text_at, texts_at};
ghost use Rattle.work.specs.Ends.{first_output_of};

use paths::{EdgeId, Manifest, PathId};
use std::alloc::{AllocError, Global};
use text::{Items, Path};

/// The first output of an edge: explicit ones stand before implicit ones. No build statement is without an output.
pub fn first_output(alloc: Global, manifest: &Manifest, edge: EdgeId) -> Result<Path, AllocError>
    requires { edge < length manifest.now.lines }
    ensures { IfOk result (λ path. path ≡ first_output_of manifest.now edge) }
{
    match manifest.lines.outputs(edge).first() {
        Some(output) => path_text(alloc, manifest, *output),
        None => Ok(Path::new(alloc)),
    }
}

/// The first outputs of these edges.
pub fn first_outputs(
    alloc: Global,
    manifest: &Manifest,
    edges: &[EdgeId],
) -> Result<Items<Path>, AllocError>
    requires { All (λ e. e < length manifest.now.lines) edges.now }
    ensures { IfOk result (λ outputs. outputs ≡ map (first_output_of manifest.now) edges.now) }
{
    let mut outputs = Items::new(alloc);
    for edge in edges {
        outputs.push(first_output(alloc, manifest, *edge)?)?;
    }
    Ok(outputs)
}

/// The texts of these paths.
pub fn path_texts(
    alloc: Global,
    manifest: &Manifest,
    numbers: &[PathId],
) -> Result<Items<Path>, AllocError>
    ensures { IfOk result (λ texts. texts ≡ texts_at manifest.now.paths numbers.now) }
{
    let mut texts = Items::new(alloc);
    for number in numbers {
        texts.push(path_text(alloc, manifest, *number)?)?;
    }
    Ok(texts)
}

/// The text of a path; the empty one for a number that no path has.
pub fn path_text(alloc: Global, manifest: &Manifest, number: PathId) -> Result<Path, AllocError>
    ensures { IfOk result (λ path. path ≡ text_at manifest.now.paths number) }
{
    match manifest.paths.get(number) {
        Some(text) => Path::from_str(alloc, text),
        None => Ok(Path::new(alloc)),
    }
}
