//! Builds that go by what was seen: each is, of the files that count, what a build promises; and so builds one after another are clean, whatever
//! others did between.
#![tactic(auto)]

mod build;
mod laws;

pub use build::{build_from, build_over, build_seen};
pub use laws::{begun_is_run, fresh_is_met, kept_as_told, listed_are_made, seen_builds_are_clean};
