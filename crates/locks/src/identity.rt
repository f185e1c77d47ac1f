//! Which file a path leads to, or an opening is of.

use std::fs;
use std::fs::{File, Metadata};
use std::os::unix::fs::MetadataExt;

/// Which file it is: two paths lead to one file, and two openings are of one, where these are the same.
#[derive(Clone, Copy, PartialEq, Eq)]
pub struct Identity {
    device: u64,
    inode: u64,
}

impl Identity {
    /// The file that this was asked of.
    pub fn of(metadata: &Metadata) -> Identity {
        Identity {
            device: metadata.dev(),
            inode: metadata.ino(),
        }
    }

    /// The file of an opening, if that is known.
    pub fn of_file(file: &File) -> Option<Identity> {
        match file.metadata() {
            Ok(metadata) => Some(Identity::of(&metadata)),
            Err(_) => None,
        }
    }

    /// The file to which the path leads, if that is known.
    pub fn at(rt: &HostRuntime, path: &str) -> Option<Identity> {
        match fs::metadata(rt, path) {
            Ok(metadata) => Some(Identity::of(&metadata)),
            Err(_) => None,
        }
    }
}

/// Whether the path leads to the file of the opening.
pub fn is_at(rt: &HostRuntime, path: &str, file: &File) -> bool {
    mode_at(rt, path, file).is_some()
}

/// The mode of the opening's file, if the path leads to that.
pub fn mode_at(rt: &HostRuntime, path: &str, file: &File) -> Option<u32> {
    let metadata = file.metadata().ok()?;
    if Identity::at(rt, path) == Some(Identity::of(&metadata)) {
        Some(metadata.mode())
    } else {
        None
    }
}
