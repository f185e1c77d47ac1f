//! What a build holds at its end.

use graph::{Cone, Graph};
use judge::Looks;
use plan::Plan;
use records::Records;
use work::Work;

/// What a build knew at its end: it has served, and who ends the program right after need not let it go.
#[derive(Drop)]
pub struct Held {
    pub graph: Graph,
    pub cone: Cone,
    pub plan: Plan,
    pub looks: Looks,
    pub records: Records,
}

impl Held {
    /// What is large of a run's state.
    pub(crate) fn of(state: Work<'_>) -> Held {
        let Work {
            graph,
            cone,
            plan,
            looks,
            records,
            ..
        } = state;
        Held {
            graph,
            cone,
            plan,
            looks,
            records,
        }
    }
}
