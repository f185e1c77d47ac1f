//! The build, as everything here speaks of it: plain data, and in specs/ the definitions that contracts cite.
#![tactic(auto)]

mod act;
mod event;
mod fault;
mod graph;
mod moves;
mod outcome;
mod reason;
mod record;

pub use act::Act;
pub use event::{Event, Finished, Moment, Writer};
pub use fault::SiteFault;
pub use graph::{BuildGraph, Deps, Edge, Pool};
pub use moves::Move;
pub use outcome::{Outcome, Write};
pub use reason::Reason;
pub use record::{DepsRecord, Record};
