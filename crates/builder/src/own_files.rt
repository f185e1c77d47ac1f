//! The program's own files.

ghost use Rattle.std.specs.Prelude.{◌≡◌, IfOk, string_bytes};
ghost use Rattle.model.specs.Records.{file_in};

use std::alloc::{AllocError, Global};

/// The build log.
pub const LOG: &str = ".nj_log";

/// The deps log.
pub const DEPS_LOG: &str = ".nj_deps";

/// The file that gets a new stamp before each start.
pub const TICK: &str = ".nj_tick";

/// The path of the file of this name in the folder; the empty folder is the working folder.
pub fn own_path(alloc: Global, folder: &str, name: &str) -> Result<String, AllocError>
    ensures { IfOk result (λ path. string_bytes path ≡ file_in folder.now name.now) }
{
    match folder {
        "" => String::from_str(alloc, name),
        "/" => format!(in alloc; "/{name}"),
        _ => format!(in alloc; "{folder}/{name}"),
    }
}
