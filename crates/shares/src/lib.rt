//! Shares: which lines of one trace over all commands of a build are whose.
#![tactic(auto)]

mod families;
mod laws;
mod lines;
mod marks;
mod numbers;
mod owners;
mod processes;
mod reading;
mod sharing;

pub use families::Families;
pub use laws::each_share_is_whole;
pub use reading::{Lines, TakesLines};
pub use sharing::{Share, Shares};
