//! What build files declare: all that the language has (manual: "Ninja file reference").
#![tactic(auto)]

mod bindings;
mod blocks;
mod builds;
mod declaration;
mod defaults;
mod described;
mod edges;
mod fault;
mod fronts;
mod graph;
mod kept;
mod laws;
mod made;
mod numbers;
mod path_reader;
mod place;
mod pools;
mod reader;
mod rules;
mod values;

pub use described::{Described, RuleTold};
pub use fault::{FaultKind, FileFault, ReadError};
pub use laws::{one_outcome, reads_longer};
pub use model::SiteFault;
pub use paths::Manifest;
pub use reader::{read, read_described};
