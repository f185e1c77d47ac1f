//! A list of edits and builds, one after another, in which each build goes by what was seen: a source may get any other stamp, and anybody may write
//! what a command makes. And the theorem over it: whatever was edited, failed or stopped before, each build is as the headline says.
#![tactic(auto)]

mod driving;
mod laws;
mod one_build;
mod one_move;

pub use driving::drive_seen;
pub use laws::{moves_are_clean, moves_are_seen, moves_begin, seen_comes_behind};
