//! What stands in front of each line: a text with fields (manual, "Environment variables": `NINJA_STATUS`).

ghost use Rattle.std.specs.Prelude.{◌≡◌, ◌<◌, ◌++◌, length, IfOk, IfSome};
ghost use Rattle.ninja_words.specs.Heading.{IsHeadingOf, letter, spelled};

use std::alloc::{AllocError, AllocFailed, Global};

/// What a field shows.
#[derive(Clone, Copy, Debug, PartialEq, Eq)]
pub enum Field {
    Started,
    Total,
    Running,
    Unstarted,
    Finished,
    /// How many of a hundred commands have finished.
    Percentage,
    /// Commands in a second, over all time.
    Rate,
    /// Commands in a second, over the last ones.
    RecentRate,
    /// The time so far, in seconds with three places.
    Elapsed,
    /// The time so far, as a clock shows it.
    ElapsedClock,
    /// The time that is left, in seconds with three places.
    Left,
    /// The time that is left, as a clock shows it.
    LeftClock,
    /// How many of a hundred parts of the time have passed.
    TimePercentage,
}

/// A part of a heading.
#[derive(Clone, Copy, Debug, PartialEq, Eq)]
pub enum Part {
    Plain(u8),
    Field(Field),
}

/// What stands in front of each line.
#[derive(Debug, Drop)]
pub struct Heading {
    pub parts: Vec<Part>,
}

/// Why a text is no heading.
#[derive(Debug, Drop)]
pub enum HeadingFault {
    Memory,
    /// No field has this letter.
    Unknown(u8),
}

impl From<AllocError> for HeadingFault {
    fn from(_: AllocError) -> HeadingFault {
        HeadingFault::Memory
    }
}

impl<T: Drop> From<AllocFailed<T>> for HeadingFault {
    fn from(_: AllocFailed<T>) -> HeadingFault {
        HeadingFault::Memory
    }
}

/// How far a build has come, as a heading shows it.
#[derive(Clone, Copy, Debug, PartialEq, Eq)]
pub struct Moment {
    pub started: u64,
    pub total: u64,
    pub running: u64,
    pub unstarted: u64,
    pub finished: u64,
    /// Since the build began, in thousandths of a second.
    pub elapsed: u64,
    /// How many commands finished last, and within which time.
    pub recent: Option<(u64, u64)>,
}

impl Field {
    /// The field of this letter.
    fn of_letter(byte: u8) -> Option<Field>
        ensures { IfSome result (λ field. letter field ≡ byte) }
    {
        match byte {
            b's' => Some(Field::Started),
            b't' => Some(Field::Total),
            b'r' => Some(Field::Running),
            b'u' => Some(Field::Unstarted),
            b'f' => Some(Field::Finished),
            b'p' => Some(Field::Percentage),
            b'o' => Some(Field::Rate),
            b'c' => Some(Field::RecentRate),
            b'e' => Some(Field::Elapsed),
            b'w' => Some(Field::ElapsedClock),
            b'E' => Some(Field::Left),
            b'W' => Some(Field::LeftClock),
            b'P' => Some(Field::TimePercentage),
            _ => None,
        }
    }

    /// The letter of a field that `nj` has, too.
    fn counted(self) -> Option<u8> {
        match self {
            Field::Started => Some(b's'),
            Field::Total => Some(b't'),
            Field::Running => Some(b'r'),
            Field::Unstarted => Some(b'u'),
            Field::Finished => Some(b'f'),
            Field::Percentage => Some(b'p'),
            _ => None,
        }
    }
}

impl Heading {
    /// The heading where nothing is set.
    pub const DEFAULT: &'static str = "[%f/%t] ";

    /// The heading of a text: a percent sign begins a field, or with another one behind it stands for itself.
    pub fn parse(alloc: Global, text: &str) -> Result<Heading, HeadingFault>
        ensures { IfOk result (λ heading. IsHeadingOf text.now heading.parts.items) }
    {
        let mut parts = Vec::new(alloc);
        let mut rest = text.as_bytes();
        'parts: while !rest.is_empty() {
            let (part, behind) = split_part(rest)?;
            parts.push(part)?;
            rest = behind;
        }
        Ok(Heading { parts })
    }

    /// The front of a heading that a screen reads along a line: up to the first field that `nj` has not.
    pub fn counted(&self, alloc: Global) -> Result<Vec<u8>, AllocError> {
        let mut text = Vec::new(alloc);
        for part in self.parts.as_slice() {
            match part {
                Part::Plain(byte) => push_plain(&mut text, *byte)?,
                Part::Field(field) => match field.counted() {
                    Some(letter) => text.extend_from_slice(&[b'%', letter])?,
                    None => return Ok(text),
                },
            }
        }
        Ok(text)
    }

    /// Puts what stands in front of a line behind a text.
    pub fn push(
        &self,
        alloc: Global,
        text: &mut Vec<u8>,
        moment: &Moment,
    ) -> Result<(), AllocError> {
        for part in self.parts.as_slice() {
            match part {
                Part::Plain(byte) => text.push(*byte)?,
                Part::Field(field) => {
                    let shown = shown(alloc, *field, moment)?;
                    text.extend_from_slice(shown.as_bytes())?;
                }
            }
        }
        Ok(())
    }
}

/// Puts a byte behind a text as it is spelled in a heading: a percent sign twice.
fn push_plain(text: &mut Vec<u8>, byte: u8) -> Result<(), AllocError> {
    if byte == b'%' {
        text.push(b'%')?;
    }
    text.push(byte)?;
    Ok(())
}

/// The first part of a text, and what stands behind it. A text without a part ends within a field.
fn split_part(text: &[u8]) -> Result<(Part, &[u8]), HeadingFault>
    ensures is { IfOk result (λ first. text.now ≡ spelled first.0 ++ first.1.now) }
    ensures shorter { IfOk result (λ first. length first.1.now < length text.now) }
{
    match text {
        [] => Err(HeadingFault::Unknown(b'%')),
        [b'%'] => Err(HeadingFault::Unknown(b'%')),
        [b'%', b'%', behind @ ..] => Ok((Part::Plain(b'%'), behind)),
        [b'%', letter, behind @ ..] => match Field::of_letter(*letter) {
            Some(field) => Ok((Part::Field(field), behind)),
            None => Err(HeadingFault::Unknown(*letter)),
        },
        [byte, behind @ ..] => Ok((Part::Plain(*byte), behind)),
    }
}

/// What a field shows at a moment.
fn shown(alloc: Global, field: Field, moment: &Moment) -> Result<String, AllocError> {
    match field {
        Field::Started => plain(alloc, moment.started),
        Field::Total => plain(alloc, moment.total),
        Field::Running => plain(alloc, moment.running),
        Field::Unstarted => plain(alloc, moment.unstarted),
        Field::Finished => plain(alloc, moment.finished),
        Field::Percentage | Field::TimePercentage => percentage(alloc, moment),
        Field::Rate => rate(alloc, moment.finished, moment.elapsed),
        Field::RecentRate => match moment.recent {
            Some((count, time)) => rate(alloc, count, time),
            None => String::from_str(alloc, "?"),
        },
        Field::Elapsed => seconds(alloc, Some(moment.elapsed)),
        Field::ElapsedClock => clock(alloc, Some(moment.elapsed), hours(moment)),
        Field::Left => seconds(alloc, left(moment)),
        Field::LeftClock => clock(alloc, left(moment), hours(moment)),
    }
}

fn plain(alloc: Global, number: u64) -> Result<String, AllocError> {
    format!(in alloc; "{number}")
}

/// How many of a hundred commands have finished, in three places and with a percent sign.
fn percentage(alloc: Global, moment: &Moment) -> Result<String, AllocError> {
    let part = moment
        .finished
        .saturating_mul(100)
        .checked_div(moment.total)
        .unwrap_or(0);
    format!(in alloc; "{part:>3}%")
}

/// So many in a time, as a number for a second with one place.
fn rate(alloc: Global, count: u64, time: u64) -> Result<String, AllocError> {
    let Some(tenths) = count.saturating_mul(10_000).checked_div(time) else {
        return String::from_str(alloc, "?");
    };
    let whole = tenths / 10;
    let place = tenths % 10;
    format!(in alloc; "{whole}.{place}")
}

/// A time in seconds with three places.
fn seconds(alloc: Global, time: Option<u64>) -> Result<String, AllocError> {
    let Some(time) = time else {
        return String::from_str(alloc, "?");
    };
    let whole = time / 1000;
    let places = time % 1000;
    format!(in alloc; "{whole}.{places:03}")
}

/// A time as a clock shows it.
fn clock(alloc: Global, time: Option<u64>, with_hours: bool) -> Result<String, AllocError> {
    let Some(time) = time else {
        return String::from_str(alloc, "?");
    };
    let all = time / 1000;
    let seconds = all % 60;
    if with_hours {
        let hours = all / 3600;
        let minutes = all / 60 % 60;
        return format!(in alloc; "{hours}:{minutes:02}:{seconds:02}");
    }
    let minutes = all / 60;
    format!(in alloc; "{minutes:02}:{seconds:02}")
}

/// Whether clocks show hours.
fn hours(moment: &Moment) -> bool {
    moment.elapsed >= 3_600_000 || left(moment).is_some_and(|time| time >= 3_600_000)
}

/// The time that is left, if each command that is still to finish takes as long as those that have.
fn left(moment: &Moment) -> Option<u64> {
    let unfinished = moment.total.saturating_sub(moment.finished);
    moment
        .elapsed
        .saturating_mul(unfinished)
        .checked_div(moment.finished)
}
