//! Why a dyndep file was not read.

use std::alloc::{AllocError, AllocFailed};
use thiserror::Error;

/// What is wrong with a dyndep file. Its text is shown with the file's name.
#[derive(Clone, Copy, Debug, PartialEq, Eq, Error)]
pub enum DynFault {
    /// The first statement is no version that is known.
    #[error("bad version")]
    BadVersion,
    /// Something else does not fit.
    #[error("bad statement")]
    BadStatement,
}

impl DynFault {
    /// The number of the refusal.
    pub fn number(&self) -> u8 {
        match self {
            DynFault::BadVersion => 50,
            DynFault::BadStatement => 51,
        }
    }
}

/// Why a dyndep file was not read.
#[derive(Clone, Copy, Debug, PartialEq, Eq, Error)]
pub enum ReadError {
    /// A growth of memory was refused.
    #[error("out of memory")]
    Memory,
    /// The dyndep file is refused.
    #[error("{0}")]
    Fault(DynFault),
}

impl From<AllocError> for ReadError {
    ghost use Rattle.std.specs.Prelude.{◌≡◌};
    ghost use Rattle.dyndep.specs.declared.fault.ReadError.TheVariants.{Memory};

    ghost from_gives = { λ _ error. error ≡ Memory };

    fn from(_: AllocError) -> ReadError {
        ReadError::Memory
    }
}

impl<T: Drop> From<AllocFailed<T>> for ReadError {
    ghost use Rattle.std.specs.Prelude.{◌≡◌};
    ghost use Rattle.dyndep.specs.declared.fault.ReadError.TheVariants.{Memory};

    ghost from_gives = { λ _ error. error ≡ Memory };

    fn from(_: AllocFailed<T>) -> ReadError {
        ReadError::Memory
    }
}
