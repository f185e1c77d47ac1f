//! What a command is.

ghost use Rattle.std.specs.Prelude.{◌≡◌};

use std::alloc::AllocError;
use text::{SharedText, Text};

/// What an edge does: its command, and the files that go with it. Two acts are the same where all four texts are;
/// a text that is not set is empty. A copy shares the two that may be long.
#[derive(Debug, PartialEq, Eq, Drop)]
pub struct Act {
    /// The command line.
    pub command: SharedText,
    /// The path of the depfile that the command leaves.
    pub depfile: Text,
    /// The path of the response file that the command is given.
    pub response_path: Text,
    /// What the response file holds.
    pub response_content: SharedText,
}

impl Clone for Act {
    ghost is_clone = { λ this copy. copy ≡ this };

    fn clone(&self) -> Result<Act, AllocError> {
        Ok(Act {
            command: self.command.clone()?,
            depfile: self.depfile.clone()?,
            response_path: self.response_path.clone()?,
            response_content: self.response_content.clone()?,
        })
    }
}
