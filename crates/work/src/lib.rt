//! A build under way: runs the commands of a plan on a site, keeps the log of what was started and what ended well, and shows it.
#![tactic(auto)]

mod closing;
mod commands;
mod counts;
mod cut;
mod display;
mod endings;
mod folders;
mod going;
mod judged;
mod laws;
mod loads;
mod names;
mod outputs;
mod recorded;
mod report;
mod reported;
mod response;
mod rest;
mod run;
mod shown;
mod sources;
mod start;
mod state;
mod stop;
mod summary;
mod taken;
mod terminal;
mod turn;

pub use cut::Cut;
pub use display::{Display, Progress};
pub use going::source_to_load;
pub use laws::{makers_stand_first, orders_stand, phonies_record_none, sources_load};
pub use names::{first_output, first_outputs, path_text, path_texts};
pub use recorded::join_recorded;
pub use report::{Missing, Options, Refusal, Report, Unfit};
pub use rest::give_up;
pub use state::Work;
pub use stop::Stop;
pub use summary::{Pause, Summary};
pub use terminal::has_terminal;
