//! Dyndep files: outputs and inputs of edges that are known only when a build runs.
#![tactic(auto)]

mod addition;
mod fault;
mod laws;
mod paths;
mod reading;
mod statements;
mod values;

pub use addition::Addition;
pub use fault::{DynFault, ReadError};
pub use laws::{one_answer, statements_add};
pub use reading::parse;
