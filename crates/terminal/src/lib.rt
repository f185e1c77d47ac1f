//! What a build shows on a terminal while it runs: what stays, and below it rows that are drawn over and over: the last line of a command
//! that passed, how far the build is, and the commands that run longest.
#![tactic(auto)]

mod counts;
mod drawing;
mod laws;
mod live;
mod look;
mod names;
mod rows;
mod stays;
mod terminal;
mod times;
mod work;

pub use laws::drawings_draw;
pub use live::Live;
pub use look::Look;
pub use names::Names;
pub use terminal::Terminal;
