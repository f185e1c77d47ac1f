//! The run of a script.

ghost use Rattle.std.specs.Prelude.{◌≡◌, ◌⊎◌, IfOk};

use crate::command::{Command, Line, Unescaped};
use crate::fault::ScriptFault;
use crate::idle::IdleSite;
use crate::print::{print_events, print_file, print_report};
use builder::Options;
use status::Pattern;
use std::alloc::{AllocError, Global};
use std::io::{BufRead, BufReader, BufWriter, Read, Write};
use text::Text;

/// Runs a script on a fresh site, and answers the exit status: 0, or 2 at a line that is no command.
///
/// Where it fails, a part of the script may have been run, and a part of what it prints written.
pub fn script<R: Read, W: Write>(
    alloc: Global,
    reader: &mut R,
    writer: &mut W,
) -> Result<u8, ScriptFault>
    ensures status { IfOk result (λ status. (status ≡ 0) ⊎ (status ≡ 2)) }
{
    let reader = BufReader::new(alloc, reader).map_err(ScriptFault::of_reader)?;
    let mut writer = BufWriter::new(alloc, writer).map_err(ScriptFault::of_writer)?;
    let status = run_lines(alloc, reader, &mut writer)?;
    writer.flush().map_err(ScriptFault::of_writer)?;
    Ok(status)
}

/// Runs the lines in order, up to one that is no command.
fn run_lines<R: BufRead + Drop, W: Write>(
    alloc: Global,
    reader: R,
    writer: &mut W,
) -> Result<u8, ScriptFault>
    ensures status { IfOk result (λ status. (status ≡ 0) ⊎ (status ≡ 2)) }
{
    let mut run = Run::new(alloc)?;
    for line in reader.split(alloc, b'\n') {
        let line = line.map_err(ScriptFault::of_reader)?;
        let understood = match Line::parse(line.as_slice()) {
            Some(line) => run.take_line(line, writer)?,
            None => false,
        };
        if !understood {
            writeln!(writer, "bad line").map_err(ScriptFault::of_writer)?;
            return Ok(2);
        }
    }
    Ok(0)
}

/// A script between two of its lines.
#[derive(Drop)]
struct Run {
    alloc: Global,
    site: IdleSite,
    options: Options,
    /// Whether builds print what they show, in place of their events.
    lines: bool,
    /// The file whose content lines are being read.
    begun: Option<BegunFile>,
}

/// A file, and as much of its content as has been read.
#[derive(Drop)]
struct BegunFile {
    path: Text,
    content: Vec<u8>,
}

impl Run {
    fn new(alloc: Global) -> Result<Run, AllocError> {
        Ok(Run {
            alloc,
            site: IdleSite::new(alloc),
            options: Options {
                file: Text::from_str(alloc, "build.ninja")?,
                jobs: 4,
                keep: 1,
                verbose: false,
                pattern: Pattern::parse(alloc, Pattern::DEFAULT)?,
            },
            lines: false,
            begun: None,
        })
    }

    /// Does what the line asks for. Answers false for a content line with no file above it.
    fn take_line<W: Write>(&mut self, line: Line<'_>, writer: &mut W) -> Result<bool, ScriptFault> {
        match line {
            Line::Content(line) => Ok(self.add_content(line)?),
            Line::Command(command) => {
                self.end_file()?;
                self.perform(command, writer)?;
                Ok(true)
            }
        }
    }

    fn perform<W: Write>(
        &mut self,
        command: Command<'_>,
        writer: &mut W,
    ) -> Result<(), ScriptFault> {
        match command {
            Command::File { path } => self.begin_file(path)?,
            Command::Write { path, text } => self.write(path, text)?,
            Command::Delete { path } => self.site.erase(path)?,
            Command::Build { targets } => self.build(writer, targets)?,
            Command::Lines => self.lines = true,
            Command::Jobs(jobs) => self.options.jobs = jobs,
            Command::Keep(keep) => self.options.keep = keep,
            Command::Finish(order) => self.site.order(order),
            Command::Writes(timing) => self.site.timing(timing),
            Command::Gate(commands) => self.site.gate(commands),
            Command::Fault { call, number } => self.site.fail(call, number)?,
            Command::Stop {
                call,
                number,
                bytes,
            } => self.site.stop_at(call, number, bytes)?,
            Command::Show { path } => print_file(writer, path, self.site.content(path)).map_err(
                ScriptFault::of_writer,
            )?,
        }
        Ok(())
    }

    fn begin_file(&mut self, path: &str) -> Result<(), AllocError> {
        self.begun = Some(BegunFile {
            path: Text::from_str(self.alloc, path)?,
            content: Vec::new(self.alloc),
        });
        Ok(())
    }

    /// Adds a line to the file that was begun, and answers whether there is one.
    fn add_content(&mut self, line: &[u8]) -> Result<bool, AllocError> {
        let Some(file) = &mut self.begun else {
            return Ok(false);
        };
        file.content.extend_from_slice(line)?;
        file.content.push(b'\n')?;
        Ok(true)
    }

    /// Writes the file that was begun, if there is one.
    fn end_file(&mut self) -> Result<(), AllocError> {
        let Some(file) = self.begun.take() else {
            return Ok(());
        };
        self.site.put(file.path.as_str(), file.content.as_slice())
    }

    /// Writes the text to a file, or what the file holds. A file that is absent holds nothing.
    fn write(&mut self, path: &str, text: Option<&[u8]>) -> Result<(), AllocError> {
        let content = match text {
            Some(text) => Unescaped(text).collect(self.alloc)?,
            None => match self.site.content(path) {
                Some(content) => Vec::from_slice(self.alloc, content.as_slice())?,
                None => Vec::new(self.alloc),
            },
        };
        self.site.put(path, content.as_slice())
    }

    /// Builds, and prints what happened in this build, or what it showed, and how it ended.
    fn build<W: Write>(
        &mut self,
        writer: &mut W,
        targets: Option<&str>,
    ) -> Result<(), ScriptFault> {
        let targets = words(self.alloc, targets)?;
        let events = self.site.events().len();
        let shown = self.site.shown().len();
        let report = self.site.build(&self.options, &targets);
        if self.lines {
            let shown = self.site.shown().get(shown..).unwrap_or_default();
            writer.write_all(shown).map_err(ScriptFault::of_writer)?;
        } else {
            let events = self.site.events().get(events..).unwrap_or_default();
            print_events(self.alloc, writer, events).map_err(ScriptFault::of_writer)?;
        }
        print_report(writer, &report).map_err(ScriptFault::of_writer)
    }
}

/// The words of the targets; none where none are given.
fn words(alloc: Global, targets: Option<&str>) -> Result<Vec<Text>, AllocError> {
    let mut words = Vec::new(alloc);
    if let Some(targets) = targets {
        for word in targets.split(' ') {
            words.push(Text::from_str(alloc, word)?)?;
        }
    }
    Ok(words)
}
