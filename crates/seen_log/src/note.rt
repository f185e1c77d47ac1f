//! What is noted of paths.

use text::Path;

/// Who wrote what stood at a path when it was noted.
#[derive(Clone, Copy, Debug, PartialEq, Eq)]
pub enum Kind {
    /// Somebody: no command made the path.
    Source,
    /// The command that made the path left it so, or it was found where one made it.
    Made,
    /// Somebody, where a command had made the path before, at a time at which none did: that is no output of that command.
    Turned,
}

/// What stood at a path when it was noted, and the stamp that counts for that.
#[derive(Clone, Copy, Debug, PartialEq, Eq)]
pub struct Noted {
    pub kind: Kind,
    /// The stamp of the file.
    pub stamp: u64,
    /// How many bytes it held.
    pub size: u64,
    /// The stamp that counts for it where that is another than its own; 0 where its own stamp counts.
    pub number: u64,
}

/// Three numbers: a stamp, a size, and the stamp that counts.
#[derive(Clone, Copy)]
pub(crate) struct Numbers {
    pub stamp: u64,
    pub size: u64,
    pub number: u64,
}

/// A record of the log: this was noted of the path. The last record that names a path counts for it.
#[derive(Debug, Drop)]
pub struct Note {
    pub path: Path,
    pub noted: Noted,
}

/// What is in force for a path: what the last record that names it notes, and its place among all.
#[derive(Clone, Copy, Debug)]
pub struct Last {
    pub place: usize,
    pub noted: Noted,
}
