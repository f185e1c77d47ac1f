//! The words of the stand-in for ninja, and what it shows: what stands in front of lines, and which escapes are left out.
#![tactic(auto)]

mod escapes;
mod given;
mod heading;
mod screen;
mod words;

pub use escapes::escapes_are_left_out;
pub use given::{Asked, Information, Options, Shown, WordFault};
pub use heading::{Heading, HeadingFault};
pub use screen::{Front, Output, PATTERN, Screen};
pub use words::asked;
