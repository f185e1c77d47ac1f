//! Tables of tests: a program reads rows from standard input, and prints each with its answer behind it, so that what it
//! prints is a table of what is expected.
//!
//! Only programs of tests stand on this crate.
#![tactic(auto)]

mod escapes;
mod made_up;
mod rows;

pub use escapes::{push_escaped, unescaped};
pub use made_up::MadeUp;
pub use rows::{Table, push_word, run, word};
