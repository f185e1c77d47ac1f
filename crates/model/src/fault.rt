//! Why a site did not do what it was asked.

use std::alloc::{AllocError, AllocFailed};
use thiserror::Error;

/// Why a call of a site gave no answer.
#[derive(Clone, Copy, Debug, PartialEq, Eq, Error)]
pub enum SiteFault {
    /// The device refused: a disk, a process that cannot be started.
    #[error("the site failed")]
    Device,
    /// The site has stopped, and answers nothing until it is started again.
    #[error("the site stopped")]
    Stopped,
    /// A growth of memory was refused.
    #[error("out of memory")]
    Memory,
}

impl From<AllocError> for SiteFault {
    ghost use Rattle.std.specs.Prelude.{◌≡◌};
    ghost use Rattle.model.specs.declared.fault.SiteFault.TheVariants.{Memory};

    ghost from_gives = { λ _ fault. fault ≡ Memory };

    fn from(_: AllocError) -> SiteFault {
        SiteFault::Memory
    }
}

impl<T: Drop> From<AllocFailed<T>> for SiteFault {
    ghost use Rattle.std.specs.Prelude.{◌≡◌};
    ghost use Rattle.model.specs.declared.fault.SiteFault.TheVariants.{Memory};

    ghost from_gives = { λ _ fault. fault ≡ Memory };

    fn from(_: AllocFailed<T>) -> SiteFault {
        SiteFault::Memory
    }
}
