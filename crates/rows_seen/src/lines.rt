//! What somebody does to the files of a scenario, as a line says it.
//!
//! - `edges TEXT`: the build file gets the rules of the toys, and this text behind them.
//! - `put PATH STAMP TEXT`: somebody writes the file under this stamp, which is a small number for a time before all builds; with `now` under
//!   that of the write, and with `kept` under the one that the file has.
//! - `meanwhile PATH STAMP TEXT`: the same while the next command runs that is started.
//! - `delete PATH`: somebody deletes the file.
//! - `back PATH..`: each of these goes away, and comes back as it was, with its stamp.
//! - `cut PATH..`: the same, with a stamp that is cut to whole seconds.
//! - `early`: from now on commands read and write when they start.

use crate::dated::{Coming, Dated};
use std::alloc::{AllocError, Global};
use tables::{unescaped, word};

/// A second, in nanoseconds.
const SECOND: u64 = 1_000_000_000;

/// Does what the line says, where this is the build file.
pub fn change<'a>(
    alloc: Global,
    site: &mut Dated<'a>,
    file: &str,
    line: &'a str,
) -> Result<(), AllocError> {
    let (first, rest) = word(line);
    match first {
        "edges" => site.put_edges(file, rest),
        "put" => put(alloc, site, rest),
        "delete" => site.erase(rest),
        "back" => bring_back(site, rest),
        "cut" => cut(site, rest),
        _ => {
            prepare(site, first, rest);
            Ok(())
        }
    }
}

/// Says what is to come in the next build.
fn prepare<'a>(site: &mut Dated<'a>, first: &str, rest: &'a str) {
    match first {
        "meanwhile" => let_come(site, rest),
        "early" => site.read_early(),
        _ => {}
    }
}

fn put(alloc: Global, site: &mut Dated<'_>, rest: &str) -> Result<(), AllocError> {
    let (path, rest) = word(rest);
    let (said, text) = word(rest);
    let stamp = stamp_said(site, path, said);
    let content = unescaped(alloc, text)?;
    site.put_under(path, content.as_slice(), stamp)
}

fn let_come<'a>(site: &mut Dated<'a>, rest: &'a str) {
    let (path, rest) = word(rest);
    let (said, text) = word(rest);
    let stamp = stamp_said(site, path, said);
    site.let_come(Coming { path, stamp, text });
}

/// The stamp that a word says, or none for that of the write.
fn stamp_said(site: &mut Dated<'_>, path: &str, said: &str) -> Option<u64> {
    match said {
        "now" => None,
        "kept" => site.stamp(path),
        other => Some(other.parse::<u64>().unwrap_or(0)),
    }
}

fn bring_back(site: &mut Dated<'_>, paths: &str) -> Result<(), AllocError> {
    for path in paths.split(' ') {
        let stamp = site.stamp(path);
        site.bring_again(path, stamp)?;
    }
    Ok(())
}

fn cut(site: &mut Dated<'_>, paths: &str) -> Result<(), AllocError> {
    for path in paths.split(' ') {
        let stamp = site.stamp(path);
        site.bring_again(path, whole_seconds(stamp))?;
    }
    Ok(())
}

/// A stamp, if there is one, cut to whole seconds.
fn whole_seconds(stamp: Option<u64>) -> Option<u64> {
    match stamp {
        Some(stamp) => Some(stamp.saturating_sub(stamp % SECOND)),
        None => None,
    }
}
