//! What the device refused.

use std::{fmt, io};

/// What the device refused last: the path that a call was about, and why. It prints as `PATH: REASON`.
#[derive(Debug, Drop)]
pub struct Trouble {
    pub path: String,
    pub reason: io::Error,
}

impl fmt::Display for Trouble {
    fn fmt<W: fmt::Write>(&self, f: &mut fmt::Formatter<W>) -> fmt::Result {
        let path = &self.path;
        let reason = &self.reason;
        write!(f, "{path}: {reason}")
    }
}
