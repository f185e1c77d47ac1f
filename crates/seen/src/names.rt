//! The program's own files beside the build log.

ghost use Rattle.std.specs.Prelude.{◌≡◌, IfOk, string_bytes};
ghost use Rattle.model.specs.Records.{file_in};

use std::alloc::{AllocError, Global};

/// The last part of the path of a build log.
pub const LOG: &str = ".nj_log";

/// The last part of the path of a deps log.
pub const DEPS_LOG: &str = ".nj_deps";

/// The last part of the path of the file that a tick touches.
pub const TICK: &str = ".nj_tick";

/// The last part of the path of the log of what was seen.
pub const SEEN: &str = ".nj_seen";

/// Whether a path is that of a build log.
pub fn is_build_log(path: &str) -> bool {
    last_part(path) == LOG
}

/// Whether a path is that of a log behind which a build puts records.
pub fn is_log(path: &str) -> bool {
    is_build_log(path) || last_part(path) == DEPS_LOG
}

/// What stands behind the last slash.
fn last_part(path: &str) -> &str {
    match path.rsplit_once('/') {
        Some((_, last)) => last,
        None => path,
    }
}

/// The path of the file of this name in the folder; the empty folder is the working folder.
pub fn within(alloc: Global, folder: &str, name: &str) -> Result<String, AllocError>
    ensures { IfOk result (λ path. string_bytes path ≡ file_in folder.now name.now) }
{
    match folder {
        "" => String::from_str(alloc, name),
        "/" => format!(in alloc; "/{name}"),
        _ => format!(in alloc; "{folder}/{name}"),
    }
}

/// The path of the file of this name in the folder of a file.
pub fn beside(alloc: Global, file: &str, name: &str) -> Result<String, AllocError> {
    match file.rsplit_once('/') {
        Some((folder, _)) => format!(in alloc; "{folder}/{name}"),
        None => String::from_str(alloc, name),
    }
}
