//! A script, cut at each place and with each byte replaced, and scripts that are made up.

use scripts::{ScriptFault, script};
use std::alloc::{AllocError, Global};
use tables::MadeUp;

/// What some scripts came to: how many ended, and how many in a line that is no command. One is wrong that ends otherwise, or that
/// prints something else when it is run again.
#[derive(Clone, Copy)]
struct Counts {
    ended: u32,
    bad_lines: u32,
    wrong: u32,
}

/// How a script ended.
#[derive(Clone, Copy)]
enum End {
    Whole,
    BadLine,
    Wrong,
}

/// What a script answers, and what it prints.
#[derive(Drop)]
struct Run {
    answer: Result<u8, ScriptFault>,
    printed: Vec<u8>,
}

impl Run {
    fn of(alloc: Global, text: &[u8]) -> Run {
        let mut printed = Vec::new(alloc);
        let mut reader = text;
        let answer = script(alloc, &mut reader, &mut printed);
        Run { answer, printed }
    }

    fn end(&self) -> End {
        match self.answer {
            Ok(0) => End::Whole,
            Ok(2) if self.printed.as_slice().ends_with(b"bad line\n") => End::BadLine,
            _ => End::Wrong,
        }
    }

    fn is_as(&self, other: &Run) -> bool {
        self.answer == other.answer && self.printed.as_slice() == other.printed.as_slice()
    }
}

/// How a script ends, both times that it is run.
fn end_of(alloc: Global, text: &[u8]) -> End {
    let run = Run::of(alloc, text);
    let again = Run::of(alloc, text);
    if run.is_as(&again) {
        run.end()
    } else {
        End::Wrong
    }
}

impl Counts {
    const NONE: Counts = Counts {
        ended: 0,
        bad_lines: 0,
        wrong: 0,
    };

    /// One script more.
    fn count(&mut self, alloc: Global, text: &[u8]) {
        let count = match end_of(alloc, text) {
            End::Whole => &mut self.ended,
            End::BadLine => &mut self.bad_lines,
            End::Wrong => &mut self.wrong,
        };
        *count = count.saturating_add(1);
    }

    fn push_to(&self, alloc: Global, told: &mut String) -> Result<(), AllocError> {
        let (ended, bad_lines, wrong) = (self.ended, self.bad_lines, self.wrong);
        let counts = format!(in alloc; "{ended} ended, {bad_lines} in a bad line, {wrong} wrong")?;
        told.push_str(counts.as_str())
    }
}

/// `beginnings`: what each beginning of the script comes to, the whole left out.
pub fn push_beginnings(alloc: Global, text: &[u8], told: &mut String) -> Result<(), AllocError> {
    let mut counts = Counts::NONE;
    for length in 0..text.len() {
        counts.count(alloc, &text[..length]);
    }
    counts.push_to(alloc, told)
}

/// `other_bytes`: what the script comes to with each of nine bytes at each place.
pub fn push_changed(alloc: Global, text: &[u8], told: &mut String) -> Result<(), AllocError> {
    let mut counts = Counts::NONE;
    for place in 0..text.len() {
        count_at(alloc, text, place, &mut counts)?;
    }
    counts.push_to(alloc, told)
}

fn count_at(
    alloc: Global,
    text: &[u8],
    place: usize,
    counts: &mut Counts,
) -> Result<(), AllocError> {
    let mut other = Vec::from_slice(alloc, text)?;
    for byte in [0, 9, 10, 32, 36, 58, 92, 124, 255] {
        if let Some(at) = other.get_mut(place) {
            *at = byte;
        }
        counts.count(alloc, other.as_slice());
    }
    Ok(())
}

/// `made_up COUNT SEED FRONT TOKEN..`: what scripts come to that are made up.
pub fn push_made_up(alloc: Global, row: &str, told: &mut String) -> Result<(), AllocError> {
    let mut counts = Counts::NONE;
    let mut texts = MadeUp::by(row);
    for _ in 0..texts.count {
        let text = texts.text(alloc)?;
        counts.count(alloc, text.as_slice());
    }
    counts.push_to(alloc, told)
}
