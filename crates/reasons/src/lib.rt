//! Why commands are due: of each the first reason that holds, and the path that it is about.
#![tactic(auto)]

mod asked;
mod flags;
mod inputs;
mod order;
mod outputs;
mod table;
mod told;

pub use told::{DueCommand, due_commands};
