//! Status lines.

ghost use Rattle.std.specs.Prelude.{◌≡◌, ◌≤◌, ◌++◌, length, IfOk, OnOk, decimal};
ghost use Rattle.status.specs.Line.{percentage, in_three_places, value_of, shown, line_text, said_of};

use crate::counts::Counts;
use crate::part::{Part, Placeholder};
use crate::pattern::Pattern;
use itoa::Buffer;
use std::alloc::{AllocError, Global};

/// The places of a percentage, filled with blanks.
const PLACES: &[u8] = b"   ";

/// The line of a command, with its newline: the pattern, in which each placeholder shows its count, and the text.
pub fn line(
    alloc: Global,
    pattern: &Pattern,
    counts: &Counts,
    text: &str,
) -> Result<Vec<u8>, AllocError>
    ensures { IfOk result (λ line. line.items ≡ line_text pattern.now counts.now text.now) }
{
    let mut line = Vec::new(alloc);
    for part in pattern.parts() {
        push_part(&mut line, *part, counts)?;
    }
    line.extend_from_slice(text.as_bytes())?;
    line.push(b'\n')?;
    Ok(line)
}

/// What a line says of a command: its description, or the command itself where that is empty or `verbose` asks for
/// commands (manual, "Rule variables": `description`).
pub fn said_of<'a>(verbose: bool, description: &'a str, command: &'a str) -> &'a str
    ensures { result.now ≡ said_of verbose description.now command.now }
{
    if verbose || description.is_empty() {
        command
    } else {
        description
    }
}

fn push_part(line: &mut Vec<u8>, part: Part, counts: &Counts) -> Result<(), AllocError>
    ensures { OnOk result (line.new.items ≡ line.old.items ++ shown counts.now part) }
{
    match part {
        Part::Plain(byte) => line.push(byte)?,
        Part::Shown(placeholder) => push_value(line, placeholder, counts)?,
    }
    Ok(())
}

fn push_value(
    line: &mut Vec<u8>,
    placeholder: Placeholder,
    counts: &Counts,
) -> Result<(), AllocError>
    ensures { OnOk result (line.new.items ≡ line.old.items ++ value_of counts.now placeholder) }
{
    match placeholder {
        Placeholder::Started => push_number(line, counts.started),
        Placeholder::Total => push_number(line, counts.total),
        Placeholder::Percentage => push_percentage(line, counts),
        Placeholder::Running => push_number(line, counts.running),
        Placeholder::Unstarted => push_number(line, counts.total - counts.started),
        Placeholder::Finished => push_number(line, counts.finished),
        Placeholder::Sign => line.extend_from_slice(b"%"),
    }
}

fn push_number(line: &mut Vec<u8>, number: usize) -> Result<(), AllocError>
    ensures { OnOk result (line.new.items ≡ line.old.items ++ decimal number) }
{
    let mut buffer = Buffer::new();
    line.extend_from_slice(buffer.format(number).as_bytes())
}

fn push_percentage(line: &mut Vec<u8>, counts: &Counts) -> Result<(), AllocError>
    ensures { OnOk result (line.new.items ≡ line.old.items ++ value_of counts.now Placeholder.Percentage) }
{
    let mut buffer = Buffer::new();
    push_in_places(line, buffer.format(percentage(counts)).as_bytes())?;
    line.push(b'%')?;
    Ok(())
}

/// The digits, right-aligned.
fn push_in_places(line: &mut Vec<u8>, digits: &[u8]) -> Result<(), AllocError>
    requires { length digits.now ≤ 3 }
    ensures { OnOk result (line.new.items ≡ line.old.items ++ in_three_places digits.now) }
{
    let places = PLACES;
    line.extend_from_slice(&places[digits.len()..])?;
    line.extend_from_slice(digits)?;
    Ok(())
}

/// How many of a hundred commands have finished, rounded down.
fn percentage(counts: &Counts) -> usize
    ensures value { result ≡ percentage counts.now }
    ensures of_hundred { result ≤ 100 }
{
    (counts.finished as u128 * 100 / counts.total as u128) as usize
}
