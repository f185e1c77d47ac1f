//! How a screen looks.

/// How a screen looks.
#[derive(Clone, Copy, Debug)]
pub struct Look {
    /// Whether failures are red.
    pub colours: bool,
    /// Whether no line passes: each stays.
    pub keeps_lines: bool,
}
