//! Why no more of a text is read.

ghost use Rattle.std.specs.Prelude.{◌≡◌, IfOk};

use crate::fault::Fault;
use std::alloc::{AllocError, AllocFailed};

/// Why no more is read.
#[derive(Clone, Copy, Debug)]
pub enum Stop {
    /// A growth of memory was refused.
    Memory,
    /// The text has a fault.
    Found(Fault),
}

impl From<AllocError> for Stop {
    ghost use Rattle.std.specs.Prelude.{◌≡◌};
    ghost use Rattle.lexer.specs.declared.stop.Stop.TheVariants.{Memory};

    ghost from_gives = { λ _ stop. stop ≡ Memory };

    fn from(_: AllocError) -> Stop {
        Stop::Memory
    }
}

impl<T: Drop> From<AllocFailed<T>> for Stop {
    ghost use Rattle.std.specs.Prelude.{◌≡◌};
    ghost use Rattle.lexer.specs.declared.stop.Stop.TheVariants.{Memory};

    ghost from_gives = { λ _ stop. stop ≡ Memory };

    fn from(_: AllocFailed<T>) -> Stop {
        Stop::Memory
    }
}

impl Stop {
    /// The fault, if it was one.
    pub fn into_fault(self) -> Result<Fault, AllocError>
        ensures { IfOk result (λ fault. self ≡ Stop.Found fault) }
    {
        match self {
            Stop::Found(fault) => Ok(fault),
            Stop::Memory => Err(AllocError),
        }
    }
}
