//! The text of both logs: their lines, how a text ends, and which record of each output is in force. What logs have in common
//! stands here too: the forms of lines and texts, and what is kept of records.
#![tactic(auto)]

mod build_log;
mod build_record;
mod deps;
mod deps_laws;
mod deps_log;
mod deps_record;
mod done;
mod field;
mod form;
mod head_number;
mod kept;
mod laws;
mod line;
mod number;
mod one_output;
mod outputs;
mod pieces;
mod read;
mod sharing;
mod stock;
mod tail;
mod texts;
mod two_outputs;

pub use build_log::BuildLog;
pub use build_record::{begun_line, done_line, made_line};
pub use deps::Deps;
pub use deps_laws::has_format;
pub use deps_log::DepsLog;
pub use deps_record::record_line;
pub use done::Done;
pub use field::{Field, field_text, plain_fields, push_field};
pub use form::{Records, Version};
pub use kept::{InForce, Kept};
pub use laws::{
    each_is_read, front_of_lines, front_of_log, has_reader, in_force_keeps, line_grows_log,
    one_reading, one_spelling, parts_are_decided,
};
pub use line::{end_line, fields, plain_field, push_list, push_number, push_text, without_dot};
pub use number::number_of;
pub use outputs::{are_distinct, split_counted, split_outputs};
pub use pieces::Pieces;
pub use read::{parse, parse_from};
pub use stock::Stock;
pub use tail::Tail;
