//! A project that is audited: what is told of the trace of each command, by what is declared and recorded.
#![tactic(auto)]

mod above;
mod around;
mod dyndeps;
mod folders;
mod given;
mod graphs;
mod later;
mod links;
mod listed;
mod outside;
mod project;
mod scratch;
mod spelled;
mod tally;
mod twins;
mod ways;

pub use dyndeps::{dyndep_in, load};
pub use outside::Outside;
pub use project::Auditor;
pub use tally::{Counts, Tally};
