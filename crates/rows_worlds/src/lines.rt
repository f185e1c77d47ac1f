//! A history as it is written.

use tables::word;

/// A history, and what is looked at in its end.
#[derive(Clone, Copy)]
pub struct Row<'a> {
    /// Paths whose files are looked at, with a space between.
    pub outputs: &'a str,
    /// A line for each move.
    pub moves: &'a str,
    /// In which wait the site stops, and which removal is refused, where the moves are one list.
    pub stop_in_wait: u64,
    pub refuse_remove: u64,
}

/// What a line says.
#[derive(Clone, Copy)]
pub enum Move<'a> {
    /// `write PATH TEXT`: somebody writes a file.
    Write(&'a str, &'a str),
    /// `left PATH TEXT`: the same, of a file that an earlier program made. A clean build does not have it.
    Left(&'a str, &'a str),
    /// `edges TEXT`: the build file gets the rules of the toys, and this text behind them.
    Edges(&'a str),
    /// `delete PATH`.
    Delete(&'a str),
    /// `build`, or `build TARGET`.
    Build(Option<&'a str>),
}

/// The move that a line says: a build of what is built by default where it is none.
pub fn move_of(line: &str) -> Move<'_> {
    let (first, rest) = word(line);
    let (path, text) = word(rest);
    match first {
        "write" => Move::Write(path, text),
        "left" => Move::Left(path, text),
        "edges" => Move::Edges(rest),
        "delete" => Move::Delete(path),
        _ => Move::Build(target(rest)),
    }
}

/// The one target that is named, if one is.
fn target(word: &str) -> Option<&str> {
    if word.is_empty() { None } else { Some(word) }
}
