//! Which row asks what.

use crate::asked::{Asked, Kind};
use crate::fields::{push_field_of, push_fields, push_number_of};
use crate::files::Files;
use crate::judgements::push_judgement;
use crate::limits::{push_doubled, push_filled, push_nested};
use crate::logs::{push_added, push_at, push_look, push_times};
use crate::said::{push_canonical, push_quoted};
use crate::shown::{push_ending, push_line, push_said_of, push_screen};
use crate::sweeps::{push_beginnings, push_changed, push_made_up};
use std::alloc::{AllocError, Global};
use tables::{Table, unescaped, word};

impl Table for Asked {
    fn answer(&mut self, alloc: Global, row: &str, told: &mut String) -> Result<bool, AllocError> {
        let (first, rest) = word(row);
        if first == "sub" {
            self.sub = unescaped(alloc, rest)?;
            return Ok(false);
        }
        if let Some(kind) = Kind::of(first) {
            self.kind = kind;
            self.text = unescaped(alloc, rest)?;
            self.push_told(alloc, kind, self.text.as_slice(), told)?;
        } else if first == "passing" {
            self.push_passing(alloc, rest, told)?;
        } else {
            self.push_more(alloc, first, rest, told)?;
        }
        Ok(true)
    }
}

impl Asked {
    /// `passing READS TEXT`: what the text declares where each read after so many is refused, and how many were.
    fn push_passing(
        &mut self,
        alloc: Global,
        row: &str,
        told: &mut String,
    ) -> Result<(), AllocError> {
        let (reads, text) = word(row);
        self.kind = Kind::Main;
        self.text = unescaped(alloc, text)?;
        let mut files = self.files(alloc, Kind::Main, self.text.as_slice());
        files.passing = number(reads);
        files.push_told(told)?;
        let refused = format!(in alloc; ", reads refused: {}", files.failures)?;
        told.push_str(refused.as_str())
    }

    /// What is asked of the last text, or of the row alone.
    fn push_more(
        &self,
        alloc: Global,
        first: &str,
        rest: &str,
        told: &mut String,
    ) -> Result<(), AllocError> {
        let text = self.text.as_slice();
        match first {
            "look" => push_look(alloc, self.kind, text, rest, told),
            "at" => push_at(alloc, self.kind, text, number(rest), told),
            "begun" => push_added(alloc, text, rest, None, told),
            "done" => push_done(alloc, text, rest, told),
            "beginnings" => push_beginnings(alloc, self, rest, told),
            "bytes" => push_changed(alloc, self, rest, told),
            "made_up" => push_made_up(alloc, self, rest, told),
            _ => push_alone(alloc, first, rest, told),
        }
    }
}

/// `done PATH START COMMAND`: what a build log tells with this record more.
fn push_done(alloc: Global, text: &[u8], row: &str, told: &mut String) -> Result<(), AllocError> {
    let (output, made) = word(row);
    push_added(alloc, text, output, Some(word(made)), told)
}

/// The answer to a row that stands alone.
fn push_alone(alloc: Global, first: &str, rest: &str, told: &mut String) -> Result<(), AllocError> {
    match first {
        "none" => Files::none(alloc).push_told(told),
        "read" => push_read(alloc, rest, told),
        "doubled" => push_doubled(alloc, rest, told),
        "filled" => push_filled(alloc, Kind::Main, rest, told),
        "filled_said" => push_filled(alloc, Kind::Said, rest, told),
        "nested" => push_nested(alloc, rest, told),
        "times" => push_times(alloc, number(rest), told),
        "number" => push_number_of(alloc, rest, told),
        "field" => push_field_of(alloc, rest, told),
        "line" => push_fields(alloc, rest, told),
        "judge" => push_judgement(alloc, rest, told),
        "canonical" => push_canonical(alloc, rest, told),
        "quote" => push_quoted(alloc, rest, told),
        _ => push_shown(alloc, first, rest, told),
    }
}

/// The answer to a row about what a build shows.
fn push_shown(alloc: Global, first: &str, rest: &str, told: &mut String) -> Result<(), AllocError> {
    match first {
        "pattern" => push_line(alloc, rest, told),
        "says" => push_said_of(rest, told),
        "ending" => push_ending(alloc, rest, told),
        "screen" => push_screen(alloc, rest, told),
        _ => told.push_str("no such row"),
    }
}

/// `read TEXT`: what the text declares as the only file.
fn push_read(alloc: Global, text: &str, told: &mut String) -> Result<(), AllocError> {
    let text = unescaped(alloc, text)?;
    Files::one(alloc, text.as_slice()).push_told(told)
}

/// The number that a text is, or 0.
fn number(text: &str) -> u64 {
    text.parse::<u64>().unwrap_or(0)
}
