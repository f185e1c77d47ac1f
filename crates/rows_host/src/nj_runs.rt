//! Runs of the program.

use crate::answers::plain;
use crate::folder::Folder;
use nj_run::{Environment, run};
use std::alloc::{AllocError, Global};
use std::convert::AsStr;

/// What a run came to.
#[derive(Drop)]
pub struct Ran {
    pub status: u8,
    pub out: String,
    pub err: String,
}

/// Runs the program where `NINJA_STATUS` is this pattern, or is not set, with these words. `@` in front of a word stands for the
/// folder.
pub fn run_of(folder: &Folder<'_>, pattern: Option<&str>, words: &str) -> Result<Ran, AllocError> {
    let environment = Environment {
        pattern,
        trusts_stamps: false,
        is_in_folder: false,
        is_below: false,
    };
    run_in(folder, environment, words)
}

/// The same where `NJ_TRUST_STAMPS` is 1, and the pattern is not set.
pub fn trusting_run_of(folder: &Folder<'_>, words: &str) -> Result<Ran, AllocError> {
    let environment = Environment {
        pattern: None,
        trusts_stamps: true,
        is_in_folder: false,
        is_below: false,
    };
    run_in(folder, environment, words)
}

fn run_in(
    folder: &Folder<'_>,
    environment: Environment<'_>,
    words: &str,
) -> Result<Ran, AllocError> {
    let alloc = folder.alloc();
    let words = words_of(folder, words)?;
    let mut out = Vec::new(alloc);
    let mut err = Vec::new(alloc);
    let status = run(folder.rt, words.as_slice(), environment, &mut out, &mut err);
    Ok(Ran {
        status,
        out: String::from_utf8_lossy(alloc, out.as_slice())?,
        err: String::from_utf8_lossy(alloc, err.as_slice())?,
    })
}

/// The words, with a blank between, of a text.
pub fn words_of(folder: &Folder<'_>, text: &str) -> Result<Vec<String>, AllocError> {
    let alloc = folder.alloc();
    let mut words = Vec::new(alloc);
    for word in text.split(' ') {
        if !word.is_empty() {
            words.push(word_of(folder, word)?)?;
        }
    }
    Ok(words)
}

fn word_of(folder: &Folder<'_>, word: &str) -> Result<String, AllocError> {
    let alloc = folder.alloc();
    let mut all = String::new(alloc);
    let rest = match word.strip_prefix('@') {
        Some(rest) => {
            all.push_str(folder.path.as_str())?;
            rest
        }
        None => word,
    };
    all.push_str(plain(alloc, rest)?.as_str())?;
    Ok(all)
}

/// Puts the status, what was told on the standard output, and behind `!` what was told on the standard error.
pub fn push_ran(ran: &Ran, told: &mut String) -> Result<(), AllocError> {
    push_status(ran.status, told)?;
    push_behind(told, " ", ran.out.as_str())?;
    push_behind(told, " ! ", ran.err.as_str())
}

pub fn push_status(status: u8, told: &mut String) -> Result<(), AllocError> {
    write!(told, "{status}")
}

fn push_behind(told: &mut String, mark: &str, text: &str) -> Result<(), AllocError> {
    if text.is_empty() {
        return Ok(());
    }
    told.push_str(mark)?;
    told.push_str(text)
}

/// Puts the same, but of the standard output the first lines alone, so many.
pub fn push_front(ran: &Ran, lines: usize, told: &mut String) -> Result<(), AllocError> {
    push_status(ran.status, told)?;
    told.push(' ')?;
    for line in ran.out.as_str().split('\n').take(lines) {
        told.push_str(line)?;
        told.push('\n')?;
    }
    push_behind(told, " ! ", ran.err.as_str())
}
