//! The plan of a build as a scan of all edges, which the plan with counters is compared with in tests.
#![tactic(auto)]

mod first;
mod plain;
mod pools;
mod scan;

pub use plain::{Plan, names_none};
