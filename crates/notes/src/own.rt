//! The program's own files.

use std::fmt;

/// The build log.
pub const LOG: &str = ".nj_log";

/// The deps log.
pub const DEPS_LOG: &str = ".nj_deps";

/// The file that gets a new stamp before each start.
pub const TICK: &str = ".nj_tick";

/// The build log of another ninja.
pub const OTHER_LOG: &str = ".ninja_log";

/// The path of the file of this name in the folder, which is how it prints. The empty folder is the working folder.
#[derive(Clone, Copy)]
pub struct InFolder<'a> {
    pub folder: &'a str,
    pub name: &'a str,
}

impl<'a> fmt::Display for InFolder<'a> {
    fn fmt<W: fmt::Write>(&self, f: &mut fmt::Formatter<W>) -> fmt::Result {
        let InFolder { folder, name } = *self;
        match folder {
            "" => f.write_str(name),
            "/" => write!(f, "/{name}"),
            _ => write!(f, "{folder}/{name}"),
        }
    }
}
