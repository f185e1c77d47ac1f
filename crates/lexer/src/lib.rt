//! Paths and statements of a build file.
#![tactic(auto)]

mod bindings;
mod build_lines;
mod characters;
mod cursor;
mod escapes;
mod fault;
mod forms;
mod lines;
mod path;
mod paths;
mod runs;
mod shell;
mod statement;
mod steps;
mod stop;
mod tokens;
mod values;

pub use fault::{Fault, FaultKind, ReadFault};
pub use lines::{one_reading, statements};
pub use path::{canonical, has_canonical, is_canonical_at_sight, is_settled, one_form};
pub use shell::{is_bare_path, quote, quoted_is_one_word};
pub use statement::{BuildLine, FewPieces, Line, Piece, Statement, Statements, Value};
