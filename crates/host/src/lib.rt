//! The site of real files and real commands.
#![tactic(auto)]

mod below;
mod clock;
mod commands;
mod content;
mod disk;
mod environment;
mod files;
mod held;
mod host;
mod jobs;
mod load;
mod logs;
mod measured;
mod number;
mod process;
mod rests;
mod signals;
mod tracing;
mod trouble;
mod waiting;
mod watch;
mod words;

pub use below::{Below, SHARED_TRACE};
pub use host::{Host, StandingClock};
pub use trouble::Trouble;
