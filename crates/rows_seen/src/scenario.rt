//! Scenarios: files are put back, brought from elsewhere or overwritten, as lines say, and built.

use crate::asked::is_as;
use crate::builds::{build_by, learn};
use crate::dated::Dated;
use crate::lines::change;
use builder::{Options, Report};
use meanwhile::{Source, options};
use model::{Event, SiteFault};
use seen::Seen;
use site::Site;
use std::alloc::{AllocError, Global};
use std::io::{self, Write};
use std::marker::Brand;
use tables::{push_word, word};
use text::Text;

/// The greatest of the small numbers that stand for stamps of before all builds.
const OLDEST: u64 = 99;

/// A scenario, as far as it was carried out. Its lines stand where the build files of other histories do: what somebody does, as `lines` says;
/// `file PATH`, from which on this is the build file; and `build TARGET`, or `build` for what is built by default. The last line is a build.
#[derive(Drop)]
pub struct Scenario<'a> {
    alloc: Global,
    source: Source<'a>,
    /// Whether builds go by stamps alone.
    trusts: bool,
    /// The build file, and what is asked for.
    file: &'a str,
    options: Options,
    target: Option<&'a str>,
    targets: Vec<Text>,
}

/// How a build ended.
#[derive(Clone, Copy)]
pub enum End {
    /// Well, and it started so many commands.
    Well(usize),
    Failed,
    Refused,
    /// The site stopped.
    Stopped,
    /// The device refused a call, or there was no memory.
    Fault,
}

/// Carries out the scenario. Told is what the last build starts, whether what it was asked for is as the clean build gives it then, and what one
/// more build starts.
pub fn push_built(
    alloc: Global,
    source: Source<'_>,
    trusts: bool,
    told: &mut Vec<u8>,
) -> io::Result<()> {
    let mut scenario = Scenario::new(alloc, source, trusts)?;
    let pushed = scenario.push_all(told);
    pushed
}

impl<'a> Scenario<'a> {
    pub fn new(
        alloc: Global,
        source: Source<'a>,
        trusts: bool,
    ) -> Result<Scenario<'a>, AllocError> {
        let options = options(alloc, 1, 1)?;
        Ok(Scenario {
            alloc,
            source,
            trusts,
            file: "build.ninja",
            options,
            target: None,
            targets: Vec::new(alloc),
        })
    }

    /// The scenario on a fresh site.
    fn push_all(&mut self, told: &mut Vec<u8>) -> io::Result<()> {
        let site = Dated::new(self.alloc, self.source, 0);
        let mut seen: Seen<Dated<'a>, Brand> = Seen::new(self.alloc, site);
        let pushed = self.push_on(&mut seen, told);
        pushed
    }

    fn push_on(&mut self, seen: &mut Seen<Dated<'a>, Brand>, told: &mut Vec<u8>) -> io::Result<()> {
        self.come_to_last(seen)?;
        if self.push_build(seen, told)? {
            self.push_behind(seen, told)?;
        }
        seen.retold.site.check()?;
        Ok(())
    }

    /// Does what all lines say but the last, and asks for what that one says.
    pub fn come_to_last(&mut self, seen: &mut Seen<Dated<'a>, Brand>) -> Result<(), AllocError> {
        let (before, last) = last_line(self.source.graphs);
        let told = &mut seen.retold;
        told.site.grow(OLDEST)?;
        for line in before.split('\n') {
            self.make(seen, line)?;
        }
        self.ask(word(last).1)
    }

    /// Does what the line says.
    fn make(&mut self, seen: &mut Seen<Dated<'a>, Brand>, line: &'a str) -> Result<(), AllocError> {
        let (first, rest) = word(line);
        match first {
            "build" => self.build_target(seen, rest),
            "file" => self.turn_to(rest),
            _ => {
                let told = &mut seen.retold;
                change(self.alloc, &mut told.site, self.file, line)
            }
        }
    }

    /// Builds what is asked for so. How that ends is told where it is asked.
    fn build_target(
        &mut self,
        seen: &mut Seen<Dated<'a>, Brand>,
        target: &'a str,
    ) -> Result<(), AllocError> {
        self.ask(target)?;
        self.build_anew(seen);
        Ok(())
    }

    /// From now on this is the build file.
    fn turn_to(&mut self, file: &'a str) -> Result<(), AllocError> {
        self.options.file = Text::from_str(self.alloc, file)?;
        self.file = file;
        Ok(())
    }

    /// This target is asked for, or what is built by default.
    fn ask(&mut self, target: &'a str) -> Result<(), AllocError> {
        self.targets.clear();
        self.target = None;
        if !target.is_empty() {
            self.targets.push(Text::from_str(self.alloc, target)?)?;
            self.target = Some(target);
        }
        Ok(())
    }

    /// Builds what is asked for, as a program that is started anew.
    pub fn build_anew(&self, seen: &mut Seen<Dated<'a>, Brand>) -> End {
        self.begin(seen);
        self.build(seen)
    }

    /// A program is started anew, and knows the build file.
    pub fn begin(&self, seen: &mut Seen<Dated<'a>, Brand>) {
        seen.restart();
        learn(self.alloc, seen, self.file);
    }

    /// It builds. What was to go wrong or to come is over then.
    pub fn build(&self, seen: &mut Seen<Dated<'a>, Brand>) -> End {
        let report = build_by(
            self.alloc,
            seen,
            self.trusts,
            &self.options,
            self.targets.as_slice(),
        );
        let told = &mut seen.retold;
        told.site.leave();
        end_of(&report)
    }

    /// Whether what was asked for is as the clean build gives it.
    pub fn is_clean(&self, site: &Dated<'a>) -> Result<bool, AllocError> {
        match site.clean_build_by(self.file)? {
            Some(clean) => Ok(is_as(site, &clean, self.target)),
            None => Ok(false),
        }
    }

    /// Builds, and tells what that starts, and how it ends if not well. Whether it ends well.
    fn push_build(
        &self,
        seen: &mut Seen<Dated<'a>, Brand>,
        told: &mut Vec<u8>,
    ) -> io::Result<bool> {
        let before = seen.events().len();
        let end = self.build_anew(seen);
        let events = seen.events().get(before..).unwrap_or(&[]);
        push_started(self.alloc, events, told)?;
        push_end(end, told)
    }

    /// What is so behind a build that ended well.
    fn push_behind(&self, seen: &mut Seen<Dated<'a>, Brand>, told: &mut Vec<u8>) -> io::Result<()> {
        let retold = &seen.retold;
        if self.is_clean(&retold.site)? {
            write!(told, ", clean, then ")?;
        } else {
            write!(told, ", stale, then ")?;
        }
        self.push_build(seen, told)?;
        Ok(())
    }
}

/// The lines before the last one, and that.
fn last_line(lines: &str) -> (&str, &str) {
    lines.rsplit_once('\n').unwrap_or(("", lines))
}

/// The first output of each command that was started, by these events.
fn push_started(alloc: Global, events: &[Event], told: &mut Vec<u8>) -> io::Result<()> {
    let mut started = String::new(alloc);
    for event in events {
        push_output(alloc, event, &mut started)?;
    }
    if started.is_empty() {
        return told.write_all(b"nothing");
    }
    told.write_all(started.as_bytes())
}

/// The first output of the command, if one is started.
fn push_output(alloc: Global, event: &Event, started: &mut String) -> Result<(), AllocError> {
    match event {
        Event::Start { act, .. } => {
            let command = act.command.to_text(alloc)?;
            push_word(started, second_word(command.as_str()))
        }
        Event::Finish { .. } => Ok(()),
    }
}

/// The second word of a toy command, which is its output.
fn second_word(command: &str) -> &str {
    command.split(' ').nth(1).unwrap_or("")
}

/// How a build ended, if not well. Whether it ended well.
fn push_end(end: End, told: &mut Vec<u8>) -> io::Result<bool> {
    match end {
        End::Well(_) => return Ok(true),
        End::Failed => write!(told, ", failed")?,
        End::Refused => write!(told, ", refused")?,
        End::Stopped => write!(told, ", stopped")?,
        End::Fault => write!(told, ", fault")?,
    }
    Ok(false)
}

fn end_of(report: &Report) -> End {
    match report {
        Report::Success { started } => End::Well(*started),
        Report::Failed { .. } => End::Failed,
        Report::Refused(_) => End::Refused,
        Report::Fault(SiteFault::Stopped) => End::Stopped,
        Report::Fault(_) => End::Fault,
    }
}
