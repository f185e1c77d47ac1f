//! The log of what was seen: its lines, and what is noted of each path. What it has in common with the other logs stands in
//! `log_text`.
#![tactic(auto)]

mod log;
mod note;
mod number;
mod record;
mod room;

pub use log::{Log, counts_of};
pub use note::{Kind, Last, Note, Noted};
pub use record::note_line;
pub use room::arena;
