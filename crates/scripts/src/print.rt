//! What a script prints.

use builder::Report;
use indexmap::IndexMap;
use model::Event;
use site::SiteFault;
use std::alloc::Global;
use std::io::{self, Write};
use text::Bytes;

/// Prints a line for each event. The line of an end has the command of its job's start.
pub fn print_events<W: Write>(alloc: Global, writer: &mut W, events: &[Event]) -> io::Result<()> {
    let mut commands = IndexMap::new(alloc);
    for event in events {
        match event {
            Event::Start { job, act, .. } => {
                commands.insert(*job, &act.command)?;
                let (front, rest) = act.command.parts();
                writeln!(writer, "start {front}{rest}")?;
            }
            Event::Finish { job, ok } => {
                if let Some(command) = commands.get(job) {
                    let (front, rest) = command.parts();
                    let word = if *ok { "end" } else { "fail" };
                    writeln!(writer, "{word} {front}{rest}")?;
                }
            }
        }
    }
    Ok(())
}

/// Prints the line that tells how a build ended.
pub fn print_report<W: Write>(writer: &mut W, report: &Report) -> io::Result<()> {
    match report {
        Report::Success { started } => writeln!(writer, "success {started}"),
        Report::Failed { outputs } => {
            write!(writer, "failed")?;
            for output in outputs.as_slice() {
                write!(writer, " {output}")?;
            }
            writeln!(writer, "")
        }
        Report::Refused(refusal) => writeln!(writer, "refused {refusal}"),
        Report::Fault(SiteFault::Device) => writeln!(writer, "fault N60"),
        Report::Fault(SiteFault::Memory) => writeln!(writer, "fault N61"),
        Report::Fault(SiteFault::Stopped) => writeln!(writer, "stopped"),
    }
}

/// Prints what a file holds, in one line.
pub fn print_file<W: Write>(writer: &mut W, path: &str, content: Option<&Bytes>) -> io::Result<()> {
    match content {
        Some(content) => {
            write!(writer, "{path}=")?;
            for byte in content.as_slice().chunks(1) {
                writer.write_all(escaped(byte))?;
            }
            writeln!(writer, "")
        }
        None => writeln!(writer, "{path} absent"),
    }
}

/// A byte as a text has it that `write` takes: a newline is `\n` and a backslash `\\`.
fn escaped(byte: &[u8]) -> &[u8] {
    match byte {
        b"\n" => b"\\n",
        b"\\" => b"\\\\",
        plain => plain,
    }
}
