//! The stand-in for ninja over a site: regenerating between builds, what is built then, and its tools.
#![tactic(auto)]

mod build;
mod due;
mod judged;
mod laws;
mod patient;
mod place;
mod regenerating;
mod tools_here;

pub use build::{Ended, Outcome, build_here};
pub use due::{Due, due_here};
pub use laws::runs_are_as_claimed;
pub use patient::{Patient, site_here};
pub use place::Place;
pub use regenerating::{Regenerated, regenerate};
pub use tools_here::{NoAnswer, answer};
