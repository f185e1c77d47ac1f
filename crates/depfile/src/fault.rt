//! Why a depfile was not read.

use std::alloc::{AllocError, AllocFailed};
use thiserror::Error;

/// What is wrong with a depfile.
#[derive(Clone, Copy, Debug, PartialEq, Eq, Error)]
pub enum DepFault {
    /// A rule names something, and no colon parts its targets from its inputs.
    #[error("no colon")]
    NoColon,
    /// The bytes are no text.
    #[error("not UTF-8")]
    NotUtf8,
}

impl DepFault {
    /// The number of the refusal.
    pub fn number(&self) -> u8 {
        match self {
            DepFault::NoColon => 40,
            DepFault::NotUtf8 => 41,
        }
    }
}

/// Why a depfile was not read.
#[derive(Clone, Copy, Debug, PartialEq, Eq, Error)]
pub enum ReadError {
    /// A growth of memory was refused.
    #[error("out of memory")]
    Memory,
    /// The depfile is refused.
    #[error("{0}")]
    Fault(DepFault),
}

impl From<AllocError> for ReadError {
    ghost use Rattle.std.specs.Prelude.{◌≡◌};
    ghost use Rattle.depfile.specs.declared.fault.ReadError.TheVariants.{Memory};

    ghost from_gives = { λ _ error. error ≡ Memory };

    fn from(_: AllocError) -> ReadError {
        ReadError::Memory
    }
}

impl<T: Drop> From<AllocFailed<T>> for ReadError {
    ghost use Rattle.std.specs.Prelude.{◌≡◌};
    ghost use Rattle.depfile.specs.declared.fault.ReadError.TheVariants.{Memory};

    ghost from_gives = { λ _ error. error ≡ Memory };

    fn from(_: AllocFailed<T>) -> ReadError {
        ReadError::Memory
    }
}
