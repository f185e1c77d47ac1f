//! What a site tells of a file beside its stamp, in one look.
#![tactic(auto)]

mod measure;

pub use measure::{Measure, Measured};
