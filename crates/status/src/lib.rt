//! What a build shows: the line of each command, what follows where one ends, and the screen that a console command
//! has to itself.
#![tactic(auto)]

mod counts;
mod endings;
mod laws;
mod lines;
mod part;
mod pattern;
mod screen;

pub use counts::Counts;
pub use endings::{DepfileFault, Ending, Failure, push_ending};
pub use laws::one_pattern;
pub use lines::{line, said_of};
pub use part::{Part, Placeholder};
pub use pattern::Pattern;
pub use screen::Screen;
