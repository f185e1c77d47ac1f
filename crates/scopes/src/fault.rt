//! Why a call on scopes is refused.

use std::alloc::{AllocError, AllocFailed};
use thiserror::Error;

/// Why a rule is not declared.
#[derive(Clone, Copy, Debug, PartialEq, Eq, Error)]
pub enum DeclareFault {
    /// A growth of memory was refused.
    #[error("out of memory")]
    Memory,
    /// The scope itself has a rule of this name, or the name is `phony`.
    #[error("declared twice")]
    Twice,
}

impl From<AllocError> for DeclareFault {
    ghost use Rattle.std.specs.Prelude.{◌≡◌};
    ghost use Rattle.scopes.specs.declared.fault.DeclareFault.TheVariants.{Memory};

    ghost from_gives = { λ _ fault. fault ≡ Memory };

    fn from(_: AllocError) -> DeclareFault {
        DeclareFault::Memory
    }
}

impl<T: Drop> From<AllocFailed<T>> for DeclareFault {
    ghost use Rattle.std.specs.Prelude.{◌≡◌};
    ghost use Rattle.scopes.specs.declared.fault.DeclareFault.TheVariants.{Memory};

    ghost from_gives = { λ _ fault. fault ≡ Memory };

    fn from(_: AllocFailed<T>) -> DeclareFault {
        DeclareFault::Memory
    }
}

/// Why a value is not expanded.
#[derive(Clone, Copy, Debug, PartialEq, Eq, Error)]
pub enum ExpandFault {
    /// A growth of memory was refused.
    #[error("out of memory")]
    Memory,
    /// It has more bytes than a value may have.
    #[error("too large")]
    TooLarge,
}

impl From<AllocError> for ExpandFault {
    ghost use Rattle.std.specs.Prelude.{◌≡◌};
    ghost use Rattle.scopes.specs.declared.fault.ExpandFault.TheVariants.{Memory};

    ghost from_gives = { λ _ fault. fault ≡ Memory };

    fn from(_: AllocError) -> ExpandFault {
        ExpandFault::Memory
    }
}

/// Why a rule variable is not expanded where its rule is used.
#[derive(Clone, Copy, Debug, PartialEq, Eq, Error)]
pub enum UseFault {
    /// A growth of memory was refused.
    #[error("out of memory")]
    Memory,
    /// Variables of the rule name each other in a circle on the way.
    #[error("rule variables in a circle")]
    Circle,
    /// The value has more bytes than a value may have.
    #[error("too large")]
    TooLarge,
}

impl From<AllocError> for UseFault {
    ghost use Rattle.std.specs.Prelude.{◌≡◌};
    ghost use Rattle.scopes.specs.declared.fault.UseFault.TheVariants.{Memory};

    ghost from_gives = { λ _ fault. fault ≡ Memory };

    fn from(_: AllocError) -> UseFault {
        UseFault::Memory
    }
}

impl<T: Drop> From<AllocFailed<T>> for UseFault {
    ghost use Rattle.std.specs.Prelude.{◌≡◌};
    ghost use Rattle.scopes.specs.declared.fault.UseFault.TheVariants.{Memory};

    ghost from_gives = { λ _ fault. fault ≡ Memory };

    fn from(_: AllocFailed<T>) -> UseFault {
        UseFault::Memory
    }
}

impl From<ExpandFault> for UseFault {
    ghost use Rattle.scopes.specs.Faults.{IsSameFault};

    ghost from_gives = { IsSameFault };

    fn from(fault: ExpandFault) -> UseFault {
        match fault {
            ExpandFault::Memory => UseFault::Memory,
            ExpandFault::TooLarge => UseFault::TooLarge,
        }
    }
}
