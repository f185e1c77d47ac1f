//! A site over a site, on which a file that is another than was noted counts as written when it was put there, whatever its stamp is, and an
//! output that its last command did not leave so counts as absent.
//!
//! It keeps a file of its own, `.nj_seen`, beside the build log. What it alters are answers of `stat` and `read`, which find
//! nothing where an output counts as absent; what it does besides is to read that file right behind the build log, to ask for files that are
//! to be noted, and to put lines behind it before a record goes behind another log. So a program that is ended between two writes has noted too little, never too much: something runs once more.
#![tactic(auto)]

mod answer;
mod beginning;
mod counts;
mod judging;
mod known;
mod laws;
mod lines;
mod makers;
mod names;
mod notes;
mod own;
mod retold;
mod seen;
mod starts;

pub use answer::Looked;
pub use beginning::Beginning;
pub use counts::Counts;
pub use judging::{Judged, Past, judge, next_number};
pub use known::Known;
pub use laws::{counts_either, looks_go_on, number_is_later, tellings_are_same};
pub use notes::{Entry, enter};
pub use retold::Retold;
pub use seen::Seen;
