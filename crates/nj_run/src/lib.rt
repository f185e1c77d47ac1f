//! The run of `nj`: what its words ask for, done with real files and real commands, and what it tells at its end.
#![tactic(auto)]

mod alone;
mod anew;
mod audited;
mod command;
mod environment;
mod given;
mod handed;
mod left;
mod links;
mod looked;
mod named;
mod noted;
mod program;
mod reported;
mod shared;
mod told;
mod tracer;
mod traces;
mod whys;
mod words_laws;

pub use alone::{Alone, build_alone, explain_alone};
pub use command::options;
pub use environment::Environment;
pub use given::Options;
pub use handed::{BELOW, Handed, hand_on};
pub use noted::Noted;
pub use program::{build_on, explain_on, run, run_watched};
pub use whys::tell_why;
pub use words_laws::worked_words;
