//! What a build shows.
//!
//! `pattern STARTED TOTAL RUNNING FINISHED TEXT` is the line of the command `cat b a` under a pattern, at these counts; of the text
//! `DEFAULT` it is the pattern that stands where none is set. `says yes|no TEXT|COMMAND` is what a line says of a command with this
//! description, and whether commands are asked for. `ending OUTPUT|OUTPUTS|COMMAND|DEPFILE|NUMBER|FAULT` is what is shown where a
//! command ends: it failed where outputs are given, with `,` between them, and of its depfile where that is given. In `screen
//! WORD..` the word `hold` holds the screen, `release=TEXT` shows what was held back behind the text, and `=TEXT` hands a text in.

use status::{Counts, DepfileFault, Ending, Failure, Pattern, Screen, line, said_of};
use std::alloc::{AllocError, Global};
use tables::{push_word, unescaped, word};

/// `pattern`.
pub fn push_line(alloc: Global, row: &str, told: &mut String) -> Result<(), AllocError> {
    let (started, rest) = count(row);
    let (total, rest) = count(rest);
    let (running, rest) = count(rest);
    let (finished, text) = count(rest);
    if total == 0 || started > total || running > total || finished > total {
        return told.push_str("no such counts");
    }
    let counts = Counts {
        started,
        total,
        running,
        finished,
    };
    push_line_at(alloc, &counts, text, told)
}

/// The number that a row begins with, and the rest.
fn count(row: &str) -> (usize, &str) {
    let (first, rest) = word(row);
    (first.parse::<usize>().unwrap_or(0), rest)
}

fn push_line_at(
    alloc: Global,
    counts: &Counts,
    text: &str,
    told: &mut String,
) -> Result<(), AllocError> {
    let pattern = pattern(alloc, text)?;
    let line = line(alloc, &pattern, counts, "cat b a")?;
    push_bytes(alloc, line.as_slice(), told)
}

fn pattern(alloc: Global, text: &str) -> Result<Pattern, AllocError> {
    if text == "DEFAULT" {
        return Pattern::parse(alloc, Pattern::DEFAULT);
    }
    let bytes = unescaped(alloc, text)?;
    let text = String::from_utf8_lossy(alloc, bytes.as_slice())?;
    Pattern::parse(alloc, text.as_str())
}

fn push_bytes(alloc: Global, bytes: &[u8], told: &mut String) -> Result<(), AllocError> {
    let text = String::from_utf8_lossy(alloc, bytes)?;
    told.push_str(text.as_str())
}

/// `says`.
pub fn push_said_of(row: &str, told: &mut String) -> Result<(), AllocError> {
    let (verbose, rest) = word(row);
    let (description, command) = rest.split_once('|').unwrap_or((rest, ""));
    told.push_str(said_of(verbose == "yes", description, command))
}

/// `ending`.
pub fn push_ending(alloc: Global, row: &str, told: &mut String) -> Result<(), AllocError> {
    let parts = row.split('|').collect::<Vec<&str>>(alloc)?;
    let output = unescaped(alloc, part(parts.as_slice(), 0))?;
    push_ending_of(alloc, parts.as_slice(), output.as_slice(), told)
}

/// One of the parts of a row, or nothing.
fn part<'a>(parts: &[&'a str], place: usize) -> &'a str {
    match parts.get(place) {
        Some(part) => part,
        None => "",
    }
}

fn push_ending_of(
    alloc: Global,
    parts: &[&str],
    output: &[u8],
    told: &mut String,
) -> Result<(), AllocError> {
    if parts.len() < 2 {
        let ending = Ending {
            failure: None,
            output,
        };
        return push_ended(alloc, &ending, told);
    }
    let outputs = part(parts, 1).split(',').collect::<Vec<&str>>(alloc)?;
    push_failed(alloc, outputs.as_slice(), parts, output, told)
}

fn push_failed<'x>(
    alloc: Global,
    outputs: &'x [&'x str],
    parts: &'x [&'x str],
    output: &'x [u8],
    told: &mut String,
) -> Result<(), AllocError> {
    let failure = Failure {
        outputs,
        command: part(parts, 2),
        depfile: depfile_fault(parts),
    };
    let ending = Ending {
        failure: Some(failure),
        output,
    };
    push_ended(alloc, &ending, told)
}

fn depfile_fault<'a>(parts: &[&'a str]) -> Option<DepfileFault<'a>> {
    if parts.len() < 4 {
        return None;
    }
    Some(DepfileFault {
        path: part(parts, 3),
        number: part(parts, 4).parse::<u32>().unwrap_or(0),
        text: part(parts, 5),
    })
}

fn push_ended(alloc: Global, ending: &Ending<'_>, told: &mut String) -> Result<(), AllocError> {
    let mut shown = Vec::from_slice(alloc, b"line\n")?;
    status::push_ending(&mut shown, ending)?;
    push_bytes(alloc, shown.as_slice(), told)
}

/// `screen`.
pub fn push_screen(alloc: Global, row: &str, told: &mut String) -> Result<(), AllocError> {
    let mut screen = Screen::new();
    for asked in row.split(' ') {
        push_shown(alloc, &mut screen, asked, told)?;
    }
    Ok(())
}

/// What is shown at a word; `-` where it is nothing.
fn push_shown(
    alloc: Global,
    screen: &mut Screen,
    asked: &str,
    told: &mut String,
) -> Result<(), AllocError> {
    let (first, text) = asked.split_once('=').unwrap_or((asked, ""));
    let mut text = unescaped(alloc, text)?;
    match first {
        "hold" => {
            screen.hold(alloc);
            Ok(())
        }
        "release" => {
            screen.release(&mut text)?;
            push_bytes(alloc, text.as_slice(), told)
        }
        _ => match screen.show(text.as_slice())? {
            Some(now) => push_bytes(alloc, now, told),
            None => push_word(told, "-"),
        },
    }
}
