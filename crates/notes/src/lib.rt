//! What may help whoever watches a build, beside what the build itself says: notes, and how each is found.
//!
//! All of it only looks. A note that cannot be found for want of memory, or since a file cannot be read, is none; it is for the caller to
//! go on without it.
#![tactic(auto)]

mod ahead;
mod alike;
mod clock;
mod edges;
mod generator;
mod logs;
mod nearest;
mod note;
mod own;
mod program;
mod refused;
mod stamps;

pub use ahead::{Reported, made_later};
pub use clock::clock_went_back;
pub use edges::makers_of;
pub use generator::older_file;
pub use logs::other_ninja;
pub use nearest::nearest_target;
pub use note::{AnotherNinja, Later, MadeLater, Note, Older, Recorded};
pub use program::program_name;
pub use refused::{no_build_file, recorded_input};
