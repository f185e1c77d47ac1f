//! The logs of one build on a site: what they told at the entry, and what is put behind them.
//!
//! Each log is one file, in version 2 of its text: the build log tells how each output was made, the deps log which paths the
//! command that made it told to have read. They are read once, before anything runs, and what they told then stays in memory as
//! it was: a judgement reads the records of the entry. An absent or an empty log has no records, a damaged one has none either, a
//! torn one loses its last line alone.
//!
//! A build that puts nothing behind a log leaves its file as it is. Before the first record is put there, a log that is not
//! whole in version 2, or that wants compaction, is replaced by the records in force; an absent or empty one so begins with its
//! first line. Each record is one append: one for all outputs of an edge before its command starts; where it ended well one of
//! the deps log, if it has a depfile, and behind it one of the build log. Where an append or a replacement failed, a beginning of
//! the new line may stand there, and nothing more is appended: a caller starts and records nothing after a fault.
#![tactic(auto)]

mod file;
mod laws;
mod lines;
mod logs;
mod records;

pub use file::{LogFile, State};
pub use laws::{log_begins, log_stays, none_while_running};
pub use logs::Logs;
pub use records::Records;
