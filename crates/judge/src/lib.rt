//! Which commands have to run, and why: what was seen of each path, the judgement of an edge by it and by the records of the logs,
//! which edges are due, and which source is missing.
#![tactic(auto)]

mod again;
mod aliases;
mod answers;
mod commands;
mod depfile;
mod due;
mod dues;
mod input_facts;
mod inputs;
mod judgement;
mod lack;
mod lasting;
mod later;
mod laws;
mod looks;
mod output_facts;
mod outputs;
mod reason_table;
mod stamp;
mod sums;

pub use answers::{Answer, Answers};
pub use dues::Dues;
pub use input_facts::Inputs;
pub use lack::{Found, Lack};
pub use laws::{answers_follow, dues_follow, looks_follow, sums_follow};
pub use looks::{Look, Looks};
pub use model::Reason;
pub use output_facts::{OutputFacts, Outputs};
pub use reason_table::{Facts, judge};
pub use sums::Sums;
