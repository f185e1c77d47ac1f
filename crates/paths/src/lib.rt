//! Paths as numbers: the table of their texts, and the lists that build lines and edges have of them.
#![tactic(auto)]

mod id;
mod line;
mod lines;
mod manifest;
mod table;

pub use id::{EdgeId, PathId};
pub use line::Line;
pub use lines::Lines;
pub use manifest::{Action, Command, Manifest};
pub use table::Paths;
