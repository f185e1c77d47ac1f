//! What processes did to files.

use text::Bytes;

/// What a process did at a path.
#[derive(Clone, Copy, Debug, PartialEq, Eq)]
pub enum Deed {
    /// It opened the file to read it, ran it, or gave it another path or one more.
    Read,
    /// It made the file, or emptied it to write it.
    Wrote,
    /// It opened the file to write into it, and left in it what stood there.
    Into,
    /// It set the stamp of the file, or what belongs to it beside its content.
    Stamped,
    /// It gave the file this path, beside the one that it had.
    Linked,
    /// It gave the file or the folder this path, in place of the one that it had.
    Moved,
    /// It made a link here, which leads to another path.
    Led,
    /// It emptied the file, which it had opened.
    Emptied,
    /// It removed the file.
    Removed,
    /// It gave the file or the folder another path.
    Left,
    /// It listed the folder.
    Listed,
    /// It asked for the file, which is there.
    Asked,
    /// It asked for a file that is not there.
    Missed,
    /// It asked for a file that is not there, or lacks something else that was needed beside it.
    Sought,
    /// It saw that a folder is there, or removed one.
    Folder,
    /// It made a folder.
    Made,
    /// It connected to a server. The path says nothing.
    Connected,
}

/// What a process did at a path, which is as the trace has it: it is not canonical.
#[derive(Debug, Drop)]
pub struct Fact {
    pub deed: Deed,
    pub path: Bytes,
    /// By which path the kernel has the file, where the trace tells it.
    pub real: Option<Bytes>,
    /// Of a file that was given this path: by which other one it had it. Of a link: where it leads, as it is written.
    pub other: Option<Bytes>,
    /// The path goes up behind a name, which may be that of a link.
    pub up: bool,
    /// Where a link stands at the path, what it leads to is meant.
    pub follows: bool,
}
