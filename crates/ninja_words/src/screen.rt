//! What is shown, as ninja shows it: with the front of lines, and without escapes where the output takes none.

ghost use Rattle.std.specs.Prelude.{◌<◌, length};

use crate::escapes::{Escape, push_left};
use crate::given::Shown;
use crate::heading::{Heading, Moment};
use std::alloc::{AllocError, Global};
use std::time::Instant;
use std::{io, str};
use terminal::Look;

/// The byte in front of the counts of a line, and behind them.
const MARK: u8 = 0x1f;

/// The pattern with which a build shows its lines: the counts between two marks.
pub const PATTERN: &str = "\u{1f}%s/%t/%r/%u/%f\u{1f}";

/// How many ends of commands count as the last ones where there is no limit of jobs.
const MOST_RECENT: usize = 64;

/// Where what is shown goes to.
#[derive(Clone, Copy)]
pub enum Output {
    /// A pipe, a file, or a terminal that can do nothing: it takes no escapes.
    Plain,
    /// What takes escapes, and no rows.
    Coloured,
    /// A terminal on which rows are drawn. Failures are red there, where colours are wanted.
    Drawn { colours: bool },
}

impl Output {
    /// The same without rows.
    pub fn undrawn(self) -> Output {
        match self {
            Output::Plain => Output::Plain,
            Output::Coloured | Output::Drawn { .. } => Output::Coloured,
        }
    }
}

/// What is shown of lines, and where.
#[derive(Clone, Copy)]
pub struct Front<'a> {
    pub heading: &'a Heading,
    pub output: Output,
    pub shown: Shown,
    /// How many commands may run at once; 0 is no limit.
    pub jobs: u32,
}

impl Front<'_> {
    /// How the terminal looks, where rows are drawn on it.
    pub fn look(&self) -> Option<Look> {
        match self.output {
            Output::Drawn { colours } => look_of(colours, self.shown),
            Output::Plain | Output::Coloured => None,
        }
    }
}

/// How a terminal looks on which so much is shown. Lines that show commands stay; where no lines are shown, no rows are.
fn look_of(colours: bool, shown: Shown) -> Option<Look> {
    match shown {
        Shown::Printed => None,
        Shown::Lines => Some(Look {
            colours,
            keeps_lines: false,
        }),
        Shown::Commands => Some(Look {
            colours,
            keeps_lines: true,
        }),
    }
}

/// How far a build has come, as its lines tell it.
#[derive(Clone, Copy)]
struct Counts {
    started: u64,
    total: u64,
    running: u64,
    unstarted: u64,
    finished: u64,
}

/// What makes the texts of a build those that are shown: it puts a heading in the place of the counts with which lines begin. Nothing is
/// replaced in what stands behind them. Of lines that begin otherwise, which tell what commands printed and which failed, escapes are left
/// out where the output takes none.
#[derive(Drop)]
pub struct Screen<'a> {
    rt: &'a HostRuntime,
    alloc: Global,
    front: Front<'a>,
    begun: Instant,
    /// How long ago that was when the clock was looked at last, in thousandths of a second.
    elapsed: u64,
    /// When the last commands finished, in thousandths of a second, the oldest first.
    ends: Vec<u64>,
    most: usize,
    finished: u64,
}

impl<'a> Screen<'a> {
    pub fn new(rt: &'a HostRuntime, alloc: Global, front: Front<'a>) -> io::Result<Screen<'a>> {
        let most = match front.jobs {
            0 => MOST_RECENT,
            jobs => jobs as usize,
        };
        Ok(Screen {
            rt,
            alloc,
            front,
            begun: Instant::now(rt)?,
            elapsed: 0,
            ends: Vec::new(alloc),
            most,
            finished: 0,
        })
    }

    /// What is shown of a text of the build, in a time of its order. An escape ends with what its command printed.
    pub fn shown(&mut self, text: &[u8]) -> Result<Vec<u8>, AllocError> {
        let mut shown = Vec::with_capacity(self.alloc, text.len())?;
        let mut escape = Escape::Outside;
        let mut rest = text;
        'lines: while !rest.is_empty() {
            let (line, behind) = split_line(rest);
            escape = self.push_line(&mut shown, escape, line)?;
            rest = behind;
        }
        end_line(&mut shown)?;
        Ok(shown)
    }

    /// Puts what is shown of a line behind a text, in front of which an escape has come so far. Answers how far one has come then.
    fn push_line(
        &mut self,
        text: &mut Vec<u8>,
        escape: Escape,
        line: &[u8],
    ) -> Result<Escape, AllocError> {
        match split_counts(line) {
            Some((counts, said)) => {
                self.push_head(text, counts, said)?;
                Ok(Escape::Outside)
            }
            None => self.push_printed(text, escape, line),
        }
    }

    /// Puts a heading behind a text, and what is said behind it.
    fn push_head(
        &mut self,
        text: &mut Vec<u8>,
        counts: Counts,
        said: &[u8],
    ) -> Result<(), AllocError> {
        end_line(text)?;
        if self.front.shown == Shown::Printed {
            return Ok(());
        }
        let moment = self.moment(counts)?;
        self.front.heading.push(self.alloc, text, &moment)?;
        text.extend_from_slice(said)
    }

    /// Puts what is shown of printed bytes behind a text.
    fn push_printed(
        &self,
        text: &mut Vec<u8>,
        escape: Escape,
        printed: &[u8],
    ) -> Result<Escape, AllocError> {
        match self.front.output {
            Output::Plain => push_left(text, escape, printed),
            Output::Coloured | Output::Drawn { .. } => {
                text.extend_from_slice(printed)?;
                Ok(escape)
            }
        }
    }

    /// The moment at which these counts are shown.
    fn moment(&mut self, counts: Counts) -> Result<Moment, AllocError> {
        let Counts {
            started,
            total,
            running,
            unstarted,
            finished,
        } = counts;
        let elapsed = self.look();
        if finished != self.finished {
            self.finished = finished;
            self.note_end(elapsed)?;
        }
        Ok(Moment {
            started,
            total,
            running,
            unstarted,
            finished,
            elapsed,
            recent: self.recent(),
        })
    }

    /// How long ago it began, in thousandths of a second. Where no clock tells it, no time has passed since it was looked last.
    fn look(&mut self) -> u64 {
        if let Ok(elapsed) = self.begun.elapsed(self.rt) {
            self.elapsed = u64::try_from(elapsed.as_millis()).unwrap_or(u64::MAX);
        }
        self.elapsed
    }

    fn note_end(&mut self, elapsed: u64) -> Result<(), AllocError> {
        if self.ends.len() >= self.most && !self.ends.is_empty() {
            self.ends.remove(0);
        }
        self.ends.push(elapsed)?;
        Ok(())
    }

    /// How many commands finished last, and within which time, if that is some.
    fn recent(&self) -> Option<(u64, u64)> {
        let first = self.ends.first()?;
        let last = self.ends.last()?;
        let time = last.checked_sub(*first)?;
        if time == 0 {
            return None;
        }
        Some((self.ends.len() as u64, time))
    }
}

/// Ends the last line of a text, where something stands on it: an escape may have taken its newline along.
fn end_line(text: &mut Vec<u8>) -> Result<(), AllocError> {
    if text.is_empty() || text.ends_with(b"\n") {
        return Ok(());
    }
    text.push(b'\n')?;
    Ok(())
}

/// The first line, with its newline, and what stands behind it.
fn split_line(text: &[u8]) -> (&[u8], &[u8])
    requires { 0 < length text.now }
    ensures { length result.1.now < length text.now }
{
    for (place, byte) in text.iter().enumerate() {
        if *byte == b'\n' {
            return text.split_at(place + 1);
        }
    }
    (text, b"")
}

/// The counts with which a line begins, if it does, and what stands behind them.
fn split_counts(line: &[u8]) -> Option<(Counts, &[u8])> {
    let (first, behind) = line.split_first()?;
    if *first != MARK {
        return None;
    }
    let end = behind.iter().position(|byte| *byte == MARK)?;
    let (front, said) = behind.split_at(end);
    let (_, said) = said.split_first()?;
    let counts = counts_of(str::from_utf8(front).ok()?)?;
    Some((counts, said))
}

/// Five numbers with slashes between them.
fn counts_of(text: &str) -> Option<Counts> {
    let (started, rest) = split_number(text)?;
    let (total, rest) = split_number(rest)?;
    let (running, rest) = split_number(rest)?;
    let (unstarted, finished) = split_number(rest)?;
    Some(Counts {
        started,
        total,
        running,
        unstarted,
        finished: finished.parse::<u64>().ok()?,
    })
}

/// The number in front of a slash, and what stands behind that.
fn split_number(text: &str) -> Option<(u64, &str)> {
    let (number, behind) = text.split_once('/')?;
    Some((number.parse::<u64>().ok()?, behind))
}
