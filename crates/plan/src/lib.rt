//! The plan of a build: which edge is judged and which command is started next.
#![tactic(auto)]

mod by_name;
mod coming;
mod extend;
mod first;
mod laws;
mod loads;
mod lowest;
mod plan;
mod pool;
mod pools;
mod queue;
mod settle;
mod stay;
mod step;

pub use laws::{
    lists_count, loads_go_on, loads_go_on_by, standings_tell, steps_move, steps_name, task_of,
};
pub use lowest::Lowest;
pub use plan::{Plan, note_changes};
pub use queue::Queue;
pub use step::{Changed, End, Standing, Step, Verdict};
