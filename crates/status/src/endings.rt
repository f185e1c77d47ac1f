//! What is shown of a command that has ended.

ghost use Rattle.std.specs.Prelude.{◌≡◌, ◌++◌, ◌∷◌, [], OnOk, map};
ghost use Rattle.std.specs.List.{join_with_byte};
ghost use Rattle.status.specs.Ending.{depfile_line, failed_lines, whole_lines, ending_text};

use itoa::Buffer;
use std::alloc::AllocError;
use std::marker::Model;

/// Why a depfile is refused. Contracts see it as that of the definition.
#[derive(Debug, Drop)]
pub struct DepfileFault<'a> {
    /// The path of the depfile.
    pub path: &'a str,
    /// The number of the refusal.
    pub number: u32,
    /// The text of the refusal, without its number.
    pub text: &'a str,
}

impl<'a> Model for DepfileFault<'a> {
    ghost use Rattle.status.specs.Ending.{DepfileFault};

    ghost Value = { DepfileFault };

    ghost view = { λ fault. record { path = fault.path.now; number = fault.number; text = fault.text.now } };
}

/// Which command failed. Contracts see it as that of the definition.
#[derive(Debug, Drop)]
pub struct Failure<'a> {
    /// The paths of all its outputs.
    pub outputs: &'a [&'a str],
    /// Its command line.
    pub command: &'a str,
    /// What is wrong with its depfile, where that is why it counts as failed.
    pub depfile: Option<DepfileFault<'a>>,
}

impl<'a> Model for Failure<'a> {
    ghost use Rattle.std.specs.Prelude.{map};
    ghost use Rattle.status.specs.Ending.{Failure};

    ghost Value = { Failure };

    ghost view = { λ failure. record { outputs = map (λ output. output.now) failure.outputs.now; command = failure.command.now; depfile = failure.depfile } };
}

/// How a command ended. Contracts see it as that of the definition.
#[derive(Debug, Drop)]
pub struct Ending<'a> {
    /// `None` where it ended well.
    pub failure: Option<Failure<'a>>,
    /// What it printed; of a console command nothing.
    pub output: &'a [u8],
}

impl<'a> Model for Ending<'a> {
    ghost use Rattle.status.specs.Ending.{Ending};

    ghost Value = { Ending };

    ghost view = { λ ending. record { failure = ending.failure; output = ending.output.now } };
}

/// Puts what is shown of a command that has ended behind its line: where it failed, a line with its outputs, its command
/// and what is wrong with its depfile, each on a line; and what it printed, with a newline added where it lacks one at
/// its end. Where memory is refused, a part of it may stand there.
pub fn push_ending(shown: &mut Vec<u8>, ending: &Ending<'_>) -> Result<(), AllocError>
    ensures { OnOk result (shown.new.items ≡ shown.old.items ++ ending_text ending.now) }
{
    if let Some(failure) = &ending.failure {
        push_failure(shown, failure)?;
    }
    push_whole_lines(shown, ending.output)
}

fn push_failure(shown: &mut Vec<u8>, failure: &Failure<'_>) -> Result<(), AllocError>
    ensures { OnOk result (shown.new.items ≡ shown.old.items ++ failed_lines (Some failure.now)) }
{
    shown.extend_from_slice(b"FAILED: ")?;
    push_spaced(shown, failure.outputs)?;
    shown.push(b'\n')?;
    shown.extend_from_slice(failure.command.as_bytes())?;
    shown.push(b'\n')?;
    match &failure.depfile {
        Some(fault) => push_depfile_line(shown, fault),
        None => Ok(()),
    }
}

fn push_depfile_line(shown: &mut Vec<u8>, fault: &DepfileFault<'_>) -> Result<(), AllocError>
    ensures { OnOk result (shown.new.items ≡ shown.old.items ++ depfile_line (Some fault.now)) }
{
    let mut buffer = Buffer::new();
    shown.extend_from_slice(b"nj: depfile '")?;
    shown.extend_from_slice(fault.path.as_bytes())?;
    shown.extend_from_slice(b"': N")?;
    shown.extend_from_slice(buffer.format(fault.number).as_bytes())?;
    shown.extend_from_slice(b": ")?;
    shown.extend_from_slice(fault.text.as_bytes())?;
    shown.push(b'\n')?;
    Ok(())
}

/// The texts with a space between each two.
fn push_spaced(shown: &mut Vec<u8>, texts: &[&str]) -> Result<(), AllocError>
    ensures { OnOk result (shown.new.items ≡ shown.old.items ++ join_with_byte 32 (map (λ text. text.now) texts.now)) }
{
    let Some((first, others)) = texts.split_first() else {
        return Ok(());
    };
    shown.extend_from_slice(first.as_bytes())?;
    for text in others {
        shown.push(b' ')?;
        shown.extend_from_slice(text.as_bytes())?;
    }
    Ok(())
}

/// The bytes, with a newline added where the last line lacks one.
fn push_whole_lines(shown: &mut Vec<u8>, bytes: &[u8]) -> Result<(), AllocError>
    ensures { OnOk result (shown.new.items ≡ shown.old.items ++ whole_lines bytes.now) }
{
    shown.extend_from_slice(bytes)?;
    if bytes.is_empty() || bytes.ends_with(b"\n") {
        return Ok(());
    }
    shown.push(b'\n')?;
    Ok(())
}
