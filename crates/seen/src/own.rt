//! The program's own files beside the build log.

ghost use Rattle.std.specs.Prelude.{◌≡◌, IfOk, bytes_eq};
ghost use Rattle.model.specs.Records.{file_in};
ghost use Rattle.seen.specs.Own.{AreOwnIn, is_own};

use crate::names::{DEPS_LOG, LOG, SEEN, TICK, beside, within};
use std::alloc::{AllocError, Global};
use text::Path;

/// The paths of the program's own files, of which none is noted.
#[derive(Drop)]
pub struct Own {
    pub log: Path,
    pub deps_log: Path,
    pub tick: Path,
    pub seen: Path,
}

impl Own {
    /// Those that lie in this folder; the empty folder is the working folder.
    pub fn within(alloc: Global, folder: &str) -> Result<Own, AllocError>
        ensures { IfOk result (AreOwnIn folder.now) }
    {
        let log = path_in(alloc, folder, LOG)?;
        let deps_log = path_in(alloc, folder, DEPS_LOG)?;
        let tick = path_in(alloc, folder, TICK)?;
        let seen = path_in(alloc, folder, SEEN)?;
        Ok(Own {
            log,
            deps_log,
            tick,
            seen,
        })
    }

    /// Those that lie beside the file at the path.
    pub fn beside(alloc: Global, file: &str) -> Result<Own, AllocError> {
        Ok(Own {
            log: own_path(alloc, file, LOG)?,
            deps_log: own_path(alloc, file, DEPS_LOG)?,
            tick: own_path(alloc, file, TICK)?,
            seen: own_path(alloc, file, SEEN)?,
        })
    }

    /// None of them is known, which takes no memory.
    pub fn none(alloc: Global) -> Own {
        Own {
            log: Path::new(alloc),
            deps_log: Path::new(alloc),
            tick: Path::new(alloc),
            seen: Path::new(alloc),
        }
    }

    /// Whether the path is one of them.
    pub fn has(&self, path: &str) -> bool
        ensures { result ≡ is_own self.now path.now }
    {
        self.log.as_str() == path
            || self.deps_log.as_str() == path
            || self.tick.as_str() == path
            || self.seen.as_str() == path
    }

    /// Whether the path is that of the notes.
    pub fn is_seen(&self, path: &str) -> bool
        ensures { result ≡ bytes_eq self.now.seen path.now }
    {
        self.seen.as_str() == path
    }
}

/// The path of the file of this name in the folder.
fn path_in(alloc: Global, folder: &str, name: &str) -> Result<Path, AllocError>
    ensures { IfOk result (λ path. path ≡ file_in folder.now name.now) }
{
    let path = within(alloc, folder, name)?;
    Ok(Path::from_string(path))
}

/// The path of the file of this name beside that one.
fn own_path(alloc: Global, file: &str, name: &str) -> Result<Path, AllocError> {
    Ok(Path::from_string(beside(alloc, file, name)?))
}
