//! Names of jobs.

use std::alloc::{AllocError, Global};

/// A name that is longer is cut, at a character.
const LONGEST: usize = 200;

/// The names of jobs, in the order of their numbers. They have no control characters and no escapes.
#[derive(Drop)]
pub struct Names {
    text: Vec<u8>,
    /// Where each ends in the text.
    ends: Vec<usize>,
}

/// How far an escape of a terminal has come.
#[derive(Clone, Copy)]
enum Escape {
    /// Outside of one.
    Outside,
    /// Behind ESC.
    Opened,
    /// Behind ESC and a bracket.
    Inside,
}

impl Names {
    /// No job has a name. This takes no memory.
    pub fn new(alloc: Global) -> Names {
        Names {
            text: Vec::new(alloc),
            ends: Vec::new(alloc),
        }
    }

    /// Names the next job. An empty name is none.
    pub fn push(&mut self, name: &str) -> Result<(), AllocError> {
        push_visible(&mut self.text, name.as_bytes())?;
        self.ends.push(self.text.len())?;
        Ok(())
    }

    /// The name of a job, the first of which has the number 1; empty where it has none.
    pub fn name(&self, job: usize) -> &[u8] {
        match self.found(job) {
            Some(name) => name,
            None => b"",
        }
    }

    fn found(&self, job: usize) -> Option<&[u8]> {
        let place = job.checked_sub(1)?;
        let end = *self.ends.get(place)?;
        let start = match place.checked_sub(1) {
            Some(before) => *self.ends.get(before)?,
            None => 0,
        };
        self.text.get(start..end)
    }
}

/// Puts a name behind a text: its visible characters, and blanks for tabs.
fn push_visible(text: &mut Vec<u8>, name: &[u8]) -> Result<(), AllocError> {
    let mut escape = Escape::Outside;
    let mut pushed: usize = 0;
    for byte in name {
        if pushed >= LONGEST && begins_character(*byte) {
            return Ok(());
        }
        match escape {
            Escape::Outside => {
                if let Some(visible) = visible(*byte) {
                    text.push(visible)?;
                    pushed = pushed.saturating_add(1);
                }
            }
            Escape::Opened | Escape::Inside => {}
        }
        escape = behind(escape, *byte);
    }
    Ok(())
}

/// Whether a character begins by this byte.
fn begins_character(byte: u8) -> bool {
    byte & 0xC0 != 0x80
}

/// What is shown of a byte outside of an escape, if anything is.
fn visible(byte: u8) -> Option<u8> {
    match byte {
        b'\t' => Some(b' '),
        0..=31 | 127 => None,
        other => Some(other),
    }
}

/// How far an escape is behind one more byte.
fn behind(escape: Escape, byte: u8) -> Escape {
    match escape {
        Escape::Outside if byte == 27 => Escape::Opened,
        Escape::Opened if byte == b'[' => Escape::Inside,
        Escape::Inside if !(64..=126).contains(&byte) => Escape::Inside,
        _ => Escape::Outside,
    }
}
