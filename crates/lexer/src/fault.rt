//! Why a text could not be read.

use std::alloc::{AllocError, AllocFailed};
use thiserror::Error;

/// Why a path has no canonical form.
#[derive(Clone, Copy, Debug, PartialEq, Eq, Error)]
pub enum ReadFault {
    /// A growth of memory was refused.
    #[error("out of memory")]
    Memory,
    /// The path is the empty text.
    #[error("empty path")]
    EmptyPath,
}

impl From<AllocError> for ReadFault {
    ghost use Rattle.std.specs.Prelude.{◌≡◌};
    ghost use Rattle.lexer.specs.declared.fault.ReadFault.TheVariants.{Memory};

    ghost from_gives = { λ _ fault. fault ≡ Memory };

    fn from(_: AllocError) -> ReadFault {
        ReadFault::Memory
    }
}

impl<T: Drop> From<AllocFailed<T>> for ReadFault {
    ghost use Rattle.std.specs.Prelude.{◌≡◌};
    ghost use Rattle.lexer.specs.declared.fault.ReadFault.TheVariants.{Memory};

    ghost from_gives = { λ _ fault. fault ≡ Memory };

    fn from(_: AllocFailed<T>) -> ReadFault {
        ReadFault::Memory
    }
}

/// What is wrong with a line of a build file.
#[derive(Clone, Copy, Debug, PartialEq, Eq, Error)]
pub enum FaultKind {
    /// A tab outside values and comments.
    #[error("tab")]
    Tab,
    /// A dollar with what may not stand behind it.
    #[error("bad $ escape")]
    Escape,
    /// Anything else that no statement has there.
    #[error("unexpected token")]
    Unexpected,
    /// A path that is empty as it stands.
    #[error("empty path")]
    EmptyPath,
    /// The text is past its limit.
    #[error("too large")]
    TooLarge,
}

/// The first fault of a text.
#[derive(Clone, Copy, Debug, PartialEq, Eq)]
pub struct Fault {
    /// The line in which it stands, from 1.
    pub line: usize,
    pub kind: FaultKind,
}
