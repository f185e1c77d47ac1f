//! The build graph in numbers.

ghost use Rattle.paths.specs.Numbers.{HaveOnePlace};
ghost use Rattle.graph.specs.Held.{AreMakers, DyndepsAreInputs, AreRecorded, AreUsers};

use crate::recorded::Recorded;
use crate::users::Users;
use paths::{EdgeId, Manifest};
use text::Items;

/// What build files declare, which edge makes each path, the recorded inputs of each edge, and for each path the edges
/// that name it. Each path is made once, and each dyndep file is an input of the edge that names it.
///
/// Beside the manifest an edge takes 16 bytes, and 4 to 16 for each input, as who names a path has room that grows; a path takes 32 bytes,
/// and each time that it is recorded 8 more, or up to 20 where it was not known how often it would be.
#[derive(Drop)]
pub struct Graph {
    pub manifest: Manifest,
    /// The edge that makes each path; none makes a path past the end of the list.
    pub makers: Items<Option<EdgeId>>,
    pub recorded: Recorded,
    pub users: Users,
    ghost apart: { HaveOnePlace manifest.paths },
    ghost making: { AreMakers manifest makers },
    ghost dyndeps: { DyndepsAreInputs manifest },
    ghost recording: { AreRecorded manifest recorded },
    ghost using: { AreUsers manifest recorded users },
}
