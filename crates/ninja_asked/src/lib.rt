//! What the words of the stand-in for ninja ask for, found in what was read: answers of tools, and what is built beside what generators make.
#![tactic(auto)]

mod above;
mod answers;
mod cleaning;
mod missing_told;
mod processors;
mod targets;
mod written;

pub use above::{Above, all_above};
pub use answers::{Asking, answer_read};
pub use processors::default_jobs;
pub use targets::{Targets, left_targets};
