//! Depfiles: which files a command has read beside those that its build line names.
#![tactic(auto)]

mod characters;
mod fault;
mod laws;
mod listed;
mod pieces;
mod reading;
mod rules;
mod runs;
mod separators;
mod words;

pub use fault::{DepFault, ReadError};
pub use laws::{has_reading, one_answer};
pub use listed::Listed;
pub use reading::{borrowed_inputs, inputs};
