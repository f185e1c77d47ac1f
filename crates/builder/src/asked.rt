//! What a build is asked for.

ghost use Rattle.std.specs.Prelude.{◌≡◌, IfOk};
ghost use Rattle.builder.specs.Asked.{IsPathOf, AreTargets, IsFolder};
ghost use Rattle.builder.specs.Build.{limits_of};

use lexer::{ReadFault, canonical};
use std::alloc::{AllocError, Global};
use text::{Items, Path, Text};
use work::Options;

/// How many commands may run at once, and after how many failed ones nothing more is started; 0 is no limit.
#[derive(Clone, Copy, Debug)]
pub struct Limits {
    pub jobs: u32,
    pub keep: u32,
}

/// The targets of a build, its limits, and the folder of the program's own files.
#[derive(Drop)]
pub struct Asked<'a> {
    /// The targets as they were given.
    pub given: &'a [Text],
    /// Their canonical paths; the empty path for the empty target, which has none.
    pub targets: Items<Path>,
    /// The canonical path of `builddir`; empty for the working folder.
    pub folder: Path,
    pub limits: Limits,
}

impl<'a> Asked<'a> {
    /// What these options and targets ask of build files that say this of `builddir`; no targets stand for the default ones.
    pub fn new(
        alloc: Global,
        options: &Options,
        given: &'a [Text],
        builddir: &Text,
    ) -> Result<Asked<'a>, AllocError>
        ensures given { IfOk result (λ asked. asked.given.now ≡ given.now) }
        ensures targets { IfOk result (λ asked. AreTargets given.now asked.targets) }
        ensures folder { IfOk result (λ asked. IsFolder builddir.now asked.folder) }
        ensures limits { IfOk result (λ asked. asked.limits ≡ limits_of options.now) }
    {
        Ok(Asked {
            given,
            targets: canonical_paths(alloc, given)?,
            folder: own_folder(alloc, builddir.as_str())?,
            limits: Limits {
                jobs: options.jobs,
                keep: options.keep,
            },
        })
    }
}

fn canonical_paths(alloc: Global, given: &[Text]) -> Result<Items<Path>, AllocError>
    ensures { IfOk result (AreTargets given.now) }
{
    let mut paths = Items::new(alloc);
    for target in given {
        paths.push(canonical_path(alloc, target.as_str())?)?;
    }
    Ok(paths)
}

/// The folder of the program's own files, which `builddir` names; the empty path is the working folder.
pub fn own_folder(alloc: Global, builddir: &str) -> Result<Path, AllocError>
    ensures { IfOk result (IsFolder builddir.now) }
{
    let path = canonical_path(alloc, builddir)?;
    if path.as_str() == "." {
        return Ok(Path::new(alloc));
    }
    Ok(path)
}

/// The canonical path of a text; the empty path for the empty text.
fn canonical_path(alloc: Global, text: &str) -> Result<Path, AllocError>
    ensures { IfOk result (IsPathOf text.now) }
{
    match canonical(alloc, text) {
        Ok(path) => Ok(Path::from_string(path)),
        Err(ReadFault::EmptyPath) => Ok(Path::new(alloc)),
        Err(ReadFault::Memory) => Err(AllocError),
    }
}
