//! Traces: what the processes of a command did to files, by what `strace` tells of their calls.
#![tactic(auto)]

mod arguments;
mod calls;
mod ending;
mod fact;
mod facts;
mod hex;
mod laws;
mod lines;
mod marks;
mod parts;
mod processes;
mod reading;
mod steps;

pub use fact::{Deed, Fact};
pub use laws::each_line_is_told;
pub use reading::{Told, read};
