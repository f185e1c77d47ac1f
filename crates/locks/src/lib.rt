//! Who may look at files: one build in a folder at a time, and none while a command of an earlier build runs.
#![tactic(auto)]

mod asked;
mod behind;
mod entered;
mod identity;
mod left;
mod lines;
mod lists;
mod names;
mod pace;
mod sight;
mod wait;
mod watch;

pub use behind::Behind;
pub use entered::{Entered, enter};
pub use identity::{Identity, is_at, mode_at};
pub use left::{has_outputs, wait_for_left};
pub use names::{INPUT, OUTPUT, path_in};
pub use watch::Watch;
