//! What a tool answers.

ghost use Rattle.std.specs.Prelude.{◌≤◌};

use std::alloc::Global;

/// What a tool answers: the text that it prints, what it tells on the standard error, and the status with which the program ends.
#[derive(Drop)]
pub struct Answer {
    pub text: String,
    pub beside: String,
    pub status: u8,
    ghost known: { status ≤ 3 },
}

impl Answer {
    /// A text, with nothing beside it, and the status of success.
    pub fn well(alloc: Global, text: String) -> Answer {
        Answer::warned(text, String::new(alloc))
    }

    /// A text with warnings, and the status of success.
    pub fn warned(text: String, warned: String) -> Answer {
        Answer {
            text,
            beside: warned,
            status: 0,
        }
    }
}
