//! The whole build graph in numbers: who makes what, what is needed and in which order, what an edge reads, who names a path.
#![tactic(auto)]

mod access;
mod back;
mod build;
mod choice;
mod cone;
mod defaults;
mod extend;
mod fault;
mod few;
mod graph;
mod grow;
mod laws;
mod loaded;
mod makers;
mod path_set;
mod placed;
mod reading;
mod recorded;
mod side_files;
mod statements;
mod targets;
mod users;
mod walk;

pub use back::{Before, LoadedEdge};
pub use cone::{Cone, ConeFault, Mark};
pub use fault::{ExtendFault, GraphFault, Occupied, SideFile};
pub use graph::Graph;
pub use laws::{files_stand, lists_stand, numbers_stand, reading_stands};
pub use path_set::PathSet;
pub use placed::cones_stay;
pub use reading::Reading;
