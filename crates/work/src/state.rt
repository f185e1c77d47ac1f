//! A build under way.

use crate::display::Display;
use graph::{Cone, Graph};
use judge::Looks;
use paths::EdgeId;
use plan::Plan;
use records::Records;
use std::alloc::Global;
use text::Path;

/// A build under way: its graph and what is asked of that, its plan, what it has seen of files, its logs, and what it shows. It takes
/// 9 bytes for each edge of the graph beside these.
#[derive(Drop)]
pub struct Work<'a> {
    pub alloc: Global,
    /// What is built; loads of dyndep files add to it.
    pub graph: Graph,
    /// The cone of what was asked for.
    pub cone: Cone,
    pub plan: Plan,
    pub looks: Looks,
    pub records: Records,
    pub display: Display<'a>,
    /// The file that gets a new stamp before each start.
    pub tick: Path,
    /// For each edge whether it was due before anything ran: so the display counts it.
    pub due: Vec<bool>,
    /// For each edge the stamp of its start, once its command was started.
    pub starts: Vec<u64>,
    /// The edges whose command failed, in the order in which they ended.
    pub failed: Vec<EdgeId>,
}
