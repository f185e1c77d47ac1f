//! Passing on that a running command waits, as a build that it has started.

use crate::lines::{last_waiting, tell_text};
use std::alloc::Global;
use std::fs::File;
use std::os::unix::fs::FileExt;

/// So many bytes at the end of what a command printed are looked at.
const ROOM: usize = 4096;

/// What was passed on so far.
#[derive(Drop)]
pub struct Watch {
    alloc: Global,
    told: Vec<String>,
}

impl Watch {
    /// Nothing was passed on. This takes no memory.
    pub fn new(alloc: Global) -> Watch {
        Watch {
            alloc,
            told: Vec::new(alloc),
        }
    }

    /// Where the last line of what a command printed so far tells that a build waits, as `enter` and `wait_for_left` tell it, that
    /// line is told on standard error: once for each text. `printed` is an opening for reading of the file into which the command
    /// prints, and stays at its place.
    pub fn pass_on(&mut self, rt: &HostRuntime, printed: &File) {
        let mut room = [0u8; ROOM];
        let Some(end) = read_end(printed, &mut room) else {
            return;
        };
        let Some(line) = last_waiting(end) else {
            return;
        };
        if self.told.iter().any(|told| told.as_str() == line) {
            return;
        }
        tell_text(rt, line.as_bytes());
        // without memory for it, it may be told again
        if let Ok(told) = String::from_str(self.alloc, line) {
            let _ = self.told.push(told);
        }
    }
}

/// The last bytes that the file holds, up to as many as there is room for.
fn read_end<'r>(file: &File, room: &'r mut [u8; ROOM]) -> Option<&'r [u8]> {
    let size = file.metadata().ok()?.len();
    let start = size.saturating_sub(ROOM as u64);
    let count = file.read_at(room, start).ok()?;
    room.get(..count)
}
