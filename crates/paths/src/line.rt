//! The paths of one edge.

use crate::id::PathId;
use std::alloc::Global;
use text::Items;

/// The paths of a build line, or of an edge, in numbers (manual: "Build statements").
#[derive(Debug, Drop)]
pub struct Line {
    pub explicit_outputs: Items<PathId>,
    pub implicit_outputs: Items<PathId>,
    pub explicit_inputs: Items<PathId>,
    pub implicit_inputs: Items<PathId>,
    pub order_only_inputs: Items<PathId>,
    pub validations: Items<PathId>,
}

impl Line {
    /// A line without paths, which takes no memory.
    pub fn new(alloc: Global) -> Line {
        Line {
            explicit_outputs: Items::new(alloc),
            implicit_outputs: Items::new(alloc),
            explicit_inputs: Items::new(alloc),
            implicit_inputs: Items::new(alloc),
            order_only_inputs: Items::new(alloc),
            validations: Items::new(alloc),
        }
    }
}
