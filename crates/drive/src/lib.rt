//! A list of edits and builds, one after another, and the theorem over it: whatever was edited, failed or stopped before, each
//! build is as the headline says.
#![tactic(auto)]

mod driving;
mod edits;
mod laws;
mod one_move;

pub use driving::{count_builds, drive, start_again};
pub use edits::{delete, write};
pub use laws::builds_end;
pub use one_move::{is_fault, push_reserved};
