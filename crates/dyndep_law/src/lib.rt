//! That each dyndep file says something, or is refused for a reason.
#![tactic(auto)]

mod laws;

pub use laws::has_reading;
