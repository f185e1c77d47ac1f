//! How much the machine has to do.

use std::str;
use text::Bytes;

/// What tells the load of the machine.
pub const LOAD: &str = "/proc/loadavg";

/// The load of the last minute, with which such a file begins.
pub fn load_of(content: &Bytes) -> Option<f64> {
    let (first, _) = str::from_utf8(content.as_slice()).ok()?.split_once(' ')?;
    first.parse::<f64>().ok()
}
