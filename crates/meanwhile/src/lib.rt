//! Histories that are made up, in which somebody writes sources and scratch files while commands run, and stamps are as coarse as they
//! may be; and of what such histories are made, for other programs of rows too.
//!
//! Only programs of tests stand on this crate.
#![tactic(auto)]

mod beneath;
mod busy;
mod clean_site;
mod clock;
mod compared;
mod counts;
mod edits;
mod grown;
mod made_up;
mod random;
mod rules;
mod somebody;
mod texts;
mod trial;
mod trouble;

pub use clean_site::Clean;
pub use edits::edit;
pub use made_up::{Source, dyndep_in, edges_in};
pub use random::Random;
pub use rules::{edges_of, options, put_edges, targets};
pub use trial::push_meanwhile;
pub use trouble::{CALLS, name_trouble};
