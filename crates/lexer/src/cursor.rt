//! A place in a text.

ghost use Rattle.std.specs.Prelude.{◌+◌, ◌<◌, ◌^◌, length};

/// The longest text that is read, in bytes.
pub const LIMIT: usize = 64 * 1024 * 1024;

/// A place in a text: what stands from there on, and the number of its line.
#[derive(Clone, Copy, Debug)]
pub struct Cursor<'a> {
    pub rest: &'a str,
    pub line: usize,
    ghost fits: { line + length rest.now < 2 ^ 32 },
}
