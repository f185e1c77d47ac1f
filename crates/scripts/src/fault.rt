//! Why a script was given up.

use std::alloc::{AllocError, AllocFailed};
use std::io::{self, ErrorKind};
use thiserror::Error;

/// Why a script was given up. A part of it may have been read, and a part of what it prints written.
#[derive(Clone, Copy, Debug, PartialEq, Eq, Error)]
pub enum ScriptFault {
    /// The script could not be read.
    #[error("the script cannot be read")]
    Read,
    /// What the script prints could not be written.
    #[error("the output cannot be written")]
    Write,
    /// A growth of memory was refused.
    #[error("out of memory")]
    Memory,
}

impl ScriptFault {
    /// Why the reader gave nothing. A reader tells a refused growth by the kind of its error.
    pub fn of_reader(error: io::Error) -> ScriptFault {
        match error.kind() {
            ErrorKind::OutOfMemory => ScriptFault::Memory,
            _ => ScriptFault::Read,
        }
    }

    /// Why the writer took nothing. What is printed may need memory, too.
    pub fn of_writer(error: io::Error) -> ScriptFault {
        match error.kind() {
            ErrorKind::OutOfMemory => ScriptFault::Memory,
            _ => ScriptFault::Write,
        }
    }
}

impl From<AllocError> for ScriptFault {
    fn from(_: AllocError) -> ScriptFault {
        ScriptFault::Memory
    }
}

impl<T: Drop> From<AllocFailed<T>> for ScriptFault {
    fn from(_: AllocFailed<T>) -> ScriptFault {
        ScriptFault::Memory
    }
}
