//! Scripts of files and builds on a site in memory.
#![tactic(auto)]

mod command;
mod fault;
mod idle;
mod print;
mod run;

pub use fault::ScriptFault;
pub use run::script;
