//! How depfiles are read.

use std::alloc::{AllocError, Global};
use text::Bytes;

/// A way to read depfiles.
pub trait Depfiles {
    ghost use Rattle.std.specs.Prelude.{◌≡◌, ℕ, List, Option, IfOk};
    ghost use Rattle.model.specs.Outcome.{is_accepted};

    /// The inputs that a depfile lists, or nothing where it is refused.
    ghost inputs: { List ℕ → Option (List (List ℕ)) };

    /// Whether the depfile is not refused.
    fn accepts(&self, alloc: Global, content: &Bytes) -> Result<bool, AllocError>
        ensures { IfOk result (λ accepted. accepted ≡ is_accepted (inputs content.now)) };
}

/// Depfiles that list nothing, whatever they hold: for commands that name none.
#[derive(Clone, Copy, Debug, Drop)]
pub struct NoDepfiles;

impl Depfiles for NoDepfiles {
    ghost use Rattle.std.specs.Prelude.{Some, []};

    ghost inputs = { λ _. Some [] };

    fn accepts(&self, _: Global, _: &Bytes) -> Result<bool, AllocError> {
        Ok(true)
    }
}
