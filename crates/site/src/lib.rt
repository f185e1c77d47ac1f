//! The world outside a build, as a build sees it: its files, its clock and its commands.
#![tactic(auto)]

mod site;
mod texts;

pub use model::{Event, Finished, Moment, SiteFault, Writer};
pub use site::Site;
pub use texts::{Texts, hand_over};
