//! The program: builds what build files describe, with real files and real commands.
#![tactic(auto)]

use nj_run::{BELOW, Environment, Handed, Noted, hand_on, run, run_watched};
use std::env::VarError;
use std::io::{BufWriter, ErrorKind, IsTerminal};
use std::process::ExitCode;
use std::{env, io};

fn main(rt: HostRuntime) -> ExitCode {
    match run_words(&rt) {
        Ok(status) => ExitCode::from(status),
        Err(error) => {
            let _ = match error.kind() {
                ErrorKind::OutOfMemory => eprintln!(rt; "nj: error: N61: out of memory"),
                _ => eprintln!(rt; "nj: {error}"),
            };
            ExitCode::FAILURE
        }
    }
}

/// Runs the program on the words of its command line. Notes come where somebody may read them: a program that reads the standard error, as
/// an editor does, knows the lines of [`run`]. Rows are drawn where the standard output is a terminal.
fn run_words(rt: &HostRuntime) -> io::Result<u8> {
    let alloc = rt.alloc();
    let words: Vec<String> = env::args(rt)?.skip(1).collect(alloc)?;
    let (words, is_below) = split_below(words.as_slice());
    let is_in_folder = if is_below {
        true
    } else {
        match hand_on(rt, words) {
            Handed::Ended(status) => return Ok(status),
            Handed::Stays { is_in_folder } => is_in_folder,
        }
    };
    let pattern = variable(rt, "NINJA_STATUS")?;
    let is_drawn = is_drawn(rt)?;
    let mut out = BufWriter::new(alloc, rt.stdout())?;
    let mut err = BufWriter::new(alloc, rt.stderr())?;
    let environment = Environment {
        pattern: pattern.as_ref().map(|pattern| pattern.as_str()),
        trusts_stamps: trusts_stamps(rt)?,
        is_in_folder,
        is_below,
    };
    let mut noted = if rt.stderr().is_terminal() {
        Noted::wanted(rt)
    } else if is_drawn {
        Noted::unwanted(rt)
    } else {
        return Ok(run(rt, words, environment, &mut out, &mut err));
    };
    if is_drawn {
        noted.draw(has_colours(rt)?);
    }
    Ok(run_watched(noted, words, environment, &mut out, &mut err))
}

/// The words without the one that the program puts in front where it starts itself below a tracer, and whether that is there.
fn split_below(words: &[String]) -> (&[String], bool) {
    match words.split_first() {
        Some((first, rest)) if first.as_str() == BELOW => (rest, true),
        _ => (words, false),
    }
}

/// Whether rows are drawn: the standard output is a terminal, and one that can do it.
fn is_drawn(rt: &HostRuntime) -> io::Result<bool> {
    if !rt.stdout().is_terminal() {
        return Ok(false);
    }
    match variable(rt, "TERM")? {
        Some(terminal) => Ok(terminal.as_str() != "dumb"),
        None => Ok(true),
    }
}

/// Whether colours are wanted: `NO_COLOR` is not set, or empty.
fn has_colours(rt: &HostRuntime) -> io::Result<bool> {
    match variable(rt, "NO_COLOR")? {
        Some(no) => Ok(no.is_empty()),
        None => Ok(true),
    }
}

/// Whether `NJ_TRUST_STAMPS` is set to 1.
fn trusts_stamps(rt: &HostRuntime) -> io::Result<bool> {
    match variable(rt, "NJ_TRUST_STAMPS")? {
        Some(trusts) => Ok(trusts.as_str() == "1"),
        None => Ok(false),
    }
}

/// What a variable of the environment is set to, where that is a text.
fn variable(rt: &HostRuntime, name: &str) -> io::Result<Option<String>> {
    match env::var(rt, name) {
        Ok(value) => Ok(Some(value)),
        Err(VarError::OutOfMemory) => Err(ErrorKind::OutOfMemory.into()),
        Err(_) => Ok(None),
    }
}
