//! The run of the stand-in for ninja: what its words ask for, done over real files and told.
#![tactic(auto)]

mod program;
mod told;

pub use program::{Around, run};
