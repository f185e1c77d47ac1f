//! What is known of a command that finished well.

ghost use Rattle.std.specs.Prelude.{◌≡◌};

use model::Act;
use std::alloc::AllocError;

/// The command of the act was started under the stamp `start` and finished well.
#[derive(Debug, PartialEq, Eq, Drop)]
pub struct Done {
    pub start: u64,
    pub act: Act,
}

impl Clone for Done {
    ghost is_clone = { λ this copy. copy ≡ this };

    fn clone(&self) -> Result<Done, AllocError> {
        Ok(Done {
            start: self.start,
            act: self.act.clone()?,
        })
    }
}
