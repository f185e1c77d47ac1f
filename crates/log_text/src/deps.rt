//! What is known of the paths that a command read.

use text::Items;

/// The command that was started under the stamp `start` told that it read the paths with these numbers, which
/// `DepsLog::path` gives, in their order.
#[derive(Drop)]
pub struct Deps {
    pub start: u64,
    pub paths: Items<u32>,
}
