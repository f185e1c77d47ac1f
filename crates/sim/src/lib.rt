//! A site in memory, with commands that are functions of what they read.
#![tactic(auto)]

mod commands;
mod faults;
mod history;
mod jobs;
mod moments;
mod notes;
mod sim;
mod toy;

pub use commands::Commands;
pub use faults::{Call, Trouble};
pub use history::History;
pub use jobs::Order;
pub use sim::{Sim, Timing};
pub use toy::Toy;
