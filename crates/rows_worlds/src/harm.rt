//! What is done to the files of a history between builds.

use meanwhile::{Random, Source};
use sim::{Sim, Toy};
use std::alloc::{AllocError, Global};

/// A log, the first byte of the lines that tell of a good end, and how such a line may begin.
#[derive(Clone, Copy)]
struct Log {
    path: &'static str,
    kind: u8,
    begun: &'static [u8],
}

const BUILD_LOG: Log = Log {
    path: ".nj_log",
    kind: b'd',
    begun: b"d\t1\tb",
};

const DEPS_LOG: Log = Log {
    path: ".nj_deps",
    kind: b'r',
    begun: b"r\t1\tb",
};

/// A file that a build made is deleted, or a log is damaged.
pub fn harm(
    alloc: Global,
    site: &mut Sim<Toy>,
    source: Source<'_>,
    random: &mut Random,
) -> Result<(), AllocError> {
    let log = if random.one_in(2) {
        BUILD_LOG
    } else {
        DEPS_LOG
    };
    match random.below(9) {
        0 => site.erase(log.path),
        1 => site.erase(".nj_tick"),
        2 => site.put(log.path, b"zzz\n"),
        3 => site.put(log.path, b""),
        4 => tear(alloc, site, log, random),
        5 => site.erase("b.d"),
        _ => site.erase(random.part(source.outputs, ' ')),
    }
}

/// A part of the last line of a log goes, if that tells something of a good end, or something else comes behind the last one.
fn tear(
    alloc: Global,
    site: &mut Sim<Toy>,
    of: Log,
    random: &mut Random,
) -> Result<(), AllocError> {
    let mut log = content(alloc, site, of.path)?;
    match last_line(&log, of.kind) {
        Some(length) if random.one_in(2) => {
            let gone = random.below(length).saturating_add(1);
            log.truncate(log.len().saturating_sub(gone));
        }
        _ => log.extend_from_slice(of.begun)?,
    }
    site.put(of.path, log.as_slice())
}

/// What a file holds.
fn content(alloc: Global, site: &Sim<Toy>, path: &str) -> Result<Vec<u8>, AllocError> {
    match site.content(path) {
        Some(content) => Vec::from_slice(alloc, content.as_slice()),
        None => Ok(Vec::new(alloc)),
    }
}

/// How long the last line of a log is, with its end, if it is of this kind.
fn last_line(log: &[u8], kind: u8) -> Option<usize> {
    let line = log
        .strip_suffix(b"\n")?
        .rsplit(|byte| *byte == b'\n')
        .next()?;
    if line.first() == Some(&kind) {
        return line.len().checked_add(1);
    }
    None
}
