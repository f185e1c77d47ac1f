//! Texts cut at each place and with each byte replaced, and texts that are made up.

use crate::asked::{Asked, Kind};
use crate::files;
use crate::logs::Told;
use crate::pieces::is_other;
use lexer::{FaultKind, Line, Statements, statements};
use log_text::Tail;
use std::alloc::{AllocError, Global};
use tables::MadeUp;

/// How a text is answered. What `First`, `Second` and `Third` are, `Counts::push_to` says for each kind.
#[derive(Clone, Copy)]
enum Outcome {
    First,
    Second,
    Third,
    /// Otherwise when it is asked again, or not as it should be.
    Odd,
}

/// How many texts were answered in which way.
#[derive(Clone, Copy)]
struct Counts {
    kind: Kind,
    first: u32,
    second: u32,
    third: u32,
    odd: u32,
}

impl Counts {
    fn none(kind: Kind) -> Counts {
        Counts {
            kind,
            first: 0,
            second: 0,
            third: 0,
            odd: 0,
        }
    }

    /// One text more.
    fn count(&mut self, alloc: Global, asked: &Asked, text: &[u8]) -> Result<(), AllocError> {
        let count = match answered(alloc, asked, self.kind, text)? {
            Outcome::First => &mut self.first,
            Outcome::Second => &mut self.second,
            Outcome::Third => &mut self.third,
            Outcome::Odd => &mut self.odd,
        };
        *count = count.saturating_add(1);
        Ok(())
    }

    fn push_to(&self, alloc: Global, told: &mut String) -> Result<(), AllocError> {
        let (first, second, third, odd) = (self.first, self.second, self.third, self.odd);
        let all = first.saturating_add(second).saturating_add(odd);
        let counts = match self.kind {
            Kind::Main | Kind::Sub => {
                format!(in alloc; "{first} read, {second} refused, {odd} wrong")?
            }
            Kind::Said => {
                format!(in alloc; "{first} read, {second} refused, {third} not UTF-8, {odd} wrong")?
            }
            Kind::Depfile => {
                format!(in alloc; "{first} read, {second} N40, {third} N41, {odd} unsteady")?
            }
            Kind::Dyndep => {
                format!(in alloc; "{first} read, {second} N50, {third} N51, {odd} unsteady")?
            }
            Kind::BuildLog | Kind::DepsLog => {
                format!(in alloc; "{first} of {all} read, {odd} lost")?
            }
        };
        told.push_str(counts.as_str())
    }
}

/// `beginnings [NAME]`: how each beginning of the text is answered, the whole left out; of a log with the whole, by its lines.
pub fn push_beginnings(
    alloc: Global,
    asked: &Asked,
    name: &str,
    told: &mut String,
) -> Result<(), AllocError> {
    let (kind, _) = asked.named(name);
    let text = asked.text(kind);
    if matches!(kind, Kind::BuildLog | Kind::DepsLog) {
        return push_log_beginnings(alloc, kind, text, told);
    }
    let mut counts = Counts::none(kind);
    for length in 0..text.len() {
        counts.count(alloc, asked, &text[..length])?;
    }
    counts.push_to(alloc, told)
}

/// How many beginnings of the text there are, and how many of them tell something else than the records of their whole lines,
/// where one that ends with a line feed ends as the text does, and each other one is torn; or behind how many of them the rest of the text
/// comes as a second piece and another log is told than that of the whole text.
fn push_log_beginnings(
    alloc: Global,
    kind: Kind,
    text: &[u8],
    told: &mut String,
) -> Result<(), AllocError> {
    let whole = Told::of(alloc, kind, text)?;
    let (mut lines, mut wrong) = (0_u64, 0_u32);
    for length in 1..=text.len() {
        let is_line = text[..length].ends_with(b"\n");
        if is_line {
            lines = lines.saturating_add(1);
        }
        let front = Told::of(alloc, kind, &text[..length])?;
        let tail = if is_line { whole.tail } else { Tail::Torn };
        if front.tail != tail || front.records != lines.saturating_sub(1) {
            wrong = wrong.saturating_add(1);
        }
        if is_other(alloc, kind, &whole, &text[..length], &text[length..])? {
            wrong = wrong.saturating_add(1);
        }
    }
    let counts = format!(in alloc; "{} beginnings, {wrong} wrong", text.len())?;
    told.push_str(counts.as_str())
}

/// `bytes [NAME]`: how the text is answered with each of these bytes at each place.
pub fn push_changed(
    alloc: Global,
    asked: &Asked,
    name: &str,
    told: &mut String,
) -> Result<(), AllocError> {
    let (kind, _) = asked.named(name);
    let mut counts = Counts::none(kind);
    for place in 0..asked.text(kind).len() {
        count_at(alloc, asked, place, &mut counts)?;
    }
    counts.push_to(alloc, told)
}

fn count_at(
    alloc: Global,
    asked: &Asked,
    place: usize,
    counts: &mut Counts,
) -> Result<(), AllocError> {
    let mut changed = Vec::from_slice(alloc, asked.text(counts.kind))?;
    for byte in bytes_for(counts.kind) {
        if let Some(at) = changed.get_mut(place) {
            *at = *byte;
        }
        counts.count(alloc, asked, changed.as_slice())?;
    }
    Ok(())
}

/// The bytes that mean something in texts of a kind, and two that mean nothing.
fn bytes_for(kind: Kind) -> &'static [u8] {
    match kind {
        Kind::Said | Kind::Main | Kind::Sub => b"\0\t\n\r $:\\|\xff",
        _ => b"\0\t\n $:\\|\xff",
    }
}

/// `made_up [NAME] COUNT SEED FRONT TOKEN..`: how texts are answered that are made up.
pub fn push_made_up(
    alloc: Global,
    asked: &Asked,
    row: &str,
    told: &mut String,
) -> Result<(), AllocError> {
    let (kind, rest) = asked.named(row);
    let mut counts = Counts::none(kind);
    let mut texts = MadeUp::by(rest);
    for _ in 0..texts.count {
        let text = texts.text(alloc)?;
        counts.count(alloc, asked, text.as_slice())?;
    }
    counts.push_to(alloc, told)
}

fn answered(alloc: Global, asked: &Asked, kind: Kind, text: &[u8]) -> Result<Outcome, AllocError> {
    let mut first = String::new(alloc);
    asked.push_told(alloc, kind, text, &mut first)?;
    let mut second = String::new(alloc);
    asked.push_told(alloc, kind, text, &mut second)?;
    if first.as_str() != second.as_str() {
        return Ok(Outcome::Odd);
    }
    match kind {
        Kind::Said => outcome_of_lines(alloc, text),
        Kind::Main | Kind::Sub => Ok(match asked.files(alloc, kind, text).outcome() {
            files::Outcome::Manifest => Outcome::First,
            files::Outcome::Refusal => Outcome::Second,
            files::Outcome::Other => Outcome::Odd,
        }),
        // what is read ends in a semicolon, or is empty
        Kind::Depfile | Kind::Dyndep => Ok(match first.as_str() {
            "N40: no colon" | "N50: bad version" => Outcome::Second,
            "N41: not UTF-8" | "N51: bad statement" => Outcome::Third,
            _ => Outcome::First,
        }),
        Kind::BuildLog | Kind::DepsLog => outcome_of_log(alloc, kind, text),
    }
}

/// Whether a log is read, or is damaged. It is odd where it is compacted to a text that tells something else.
fn outcome_of_log(alloc: Global, kind: Kind, text: &[u8]) -> Result<Outcome, AllocError> {
    let told = Told::of(alloc, kind, text)?;
    let again = Told::of(alloc, kind, told.compacted.as_slice())?;
    let is_kept = again.tail == Tail::Whole
        && again.records == told.in_force
        && again.in_force == told.in_force
        && again.compacted.as_slice() == told.compacted.as_slice();
    Ok(match told.tail {
        _ if !is_kept => Outcome::Odd,
        Tail::Damaged => Outcome::Second,
        _ => Outcome::First,
    })
}

/// Whether lines are read, or have a fault. They are odd where their numbers do not rise, or a fault stands elsewhere than behind
/// them in the text.
fn outcome_of_lines(alloc: Global, text: &[u8]) -> Result<Outcome, AllocError> {
    let Ok(text) = str::from_utf8(text) else {
        return Ok(Outcome::Third);
    };
    let said = statements(alloc, text)?;
    Ok(if !is_sound(&said, text) {
        Outcome::Odd
    } else if said.fault.is_some() {
        Outcome::Second
    } else {
        Outcome::First
    })
}

/// Whether the numbers rise, and a fault of one of the four kinds stands behind them in the text.
fn is_sound(said: &Statements<'_>, text: &str) -> bool {
    let feeds = text.as_bytes().iter().filter(|byte| **byte == b'\n');
    let lines = feeds.count().saturating_add(1);
    match (last_number(said.lines.as_slice()), said.fault) {
        (None, _) => false,
        (Some(last), None) => last <= lines,
        (Some(last), Some(fault)) => {
            fault.kind != FaultKind::TooLarge && last < fault.line && fault.line <= lines
        }
    }
}

/// The number of the last line, where each has a higher one than the line before it; the first has 1 or more.
fn last_number(lines: &[Line<'_>]) -> Option<usize> {
    let mut last = 0;
    for line in lines {
        if line.number <= last {
            return None;
        }
        last = line.number;
    }
    Some(last)
}
