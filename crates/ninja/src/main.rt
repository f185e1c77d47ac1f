//! The program: a stand-in for ninja, with real files and real commands.
#![tactic(auto)]

use ninja_run::{Around, run};
use ninja_words::Output;
use std::env::VarError;
use std::io::{BufWriter, ErrorKind, IsTerminal};
use std::process::ExitCode;
use std::{env, io};

fn main(rt: HostRuntime) -> ExitCode {
    match run_words(&rt) {
        Ok(status) => ExitCode::from(status),
        Err(error) => {
            let _ = match error.kind() {
                ErrorKind::OutOfMemory => eprintln!(rt; "ninja: error: N61: out of memory"),
                _ => eprintln!(rt; "ninja: {error}"),
            };
            ExitCode::FAILURE
        }
    }
}

/// Runs the program on the words of its command line.
fn run_words(rt: &HostRuntime) -> io::Result<u8> {
    let alloc = rt.alloc();
    let given: Vec<String> = env::args(rt)?.skip(1).collect(alloc)?;
    let mut words = Vec::with_capacity(alloc, given.len())?;
    for word in given.as_slice() {
        words
            .push(word.as_str())
            .map_err(std::alloc::AllocError::from)?;
    }
    let heading = variable(rt, "NINJA_STATUS")?;
    let output = output(rt)?;
    let mut out = BufWriter::new(alloc, rt.stdout())?;
    let mut err = BufWriter::new(alloc, rt.stderr())?;
    let around = Around {
        heading: heading.as_ref().map(|heading| heading.as_str()),
        output,
        trusts_stamps: trusts_stamps(rt)?,
    };
    Ok(run(rt, words.as_slice(), around, &mut out, &mut err))
}

/// What the standard output is: a terminal on which rows are drawn, or what takes escapes where they are asked for (`CLICOLOR_FORCE`).
fn output(rt: &HostRuntime) -> io::Result<Output> {
    if is_drawn(rt)? {
        return Ok(Output::Drawn {
            colours: has_colours(rt)?,
        });
    }
    if is_forced(rt)? {
        return Ok(Output::Coloured);
    }
    Ok(Output::Plain)
}

/// Whether the standard output is a terminal, and one that can draw.
fn is_drawn(rt: &HostRuntime) -> io::Result<bool> {
    if !rt.stdout().is_terminal() {
        return Ok(false);
    }
    match variable(rt, "TERM")? {
        Some(terminal) => Ok(terminal.as_str() != "dumb"),
        None => Ok(true),
    }
}

/// Whether colours are wanted: `NO_COLOR` is not set, or empty.
fn has_colours(rt: &HostRuntime) -> io::Result<bool> {
    match variable(rt, "NO_COLOR")? {
        Some(no) => Ok(no.is_empty()),
        None => Ok(true),
    }
}

/// Whether `NJ_TRUST_STAMPS` is set to 1.
fn trusts_stamps(rt: &HostRuntime) -> io::Result<bool> {
    match variable(rt, "NJ_TRUST_STAMPS")? {
        Some(trusts) => Ok(trusts.as_str() == "1"),
        None => Ok(false),
    }
}

/// Whether escapes are wanted also where no terminal is: `CLICOLOR_FORCE` is set, and not 0.
fn is_forced(rt: &HostRuntime) -> io::Result<bool> {
    match variable(rt, "CLICOLOR_FORCE")? {
        Some(forced) => Ok(forced.as_str() != "0"),
        None => Ok(false),
    }
}

/// What a variable of the environment is set to, where that is a text.
fn variable(rt: &HostRuntime, name: &str) -> io::Result<Option<String>> {
    match env::var(rt, name) {
        Ok(value) => Ok(Some(value)),
        Err(VarError::OutOfMemory) => Err(ErrorKind::OutOfMemory.into()),
        Err(_) => Ok(None),
    }
}
