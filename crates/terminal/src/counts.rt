//! What a line tells of the number of commands.

use std::str;

/// A line that is read along the pattern by which it was made (manual, "Environment variables": `NINJA_STATUS`).
#[derive(Clone, Copy)]
struct Along<'a> {
    /// What is left of the line.
    line: &'a [u8],
    /// Whether a percent sign stands before the next byte of the pattern.
    is_behind_percent: bool,
    total: Option<u64>,
}

/// The number of commands that a line tells, where its pattern has one (`%t`). Nothing where the line cannot be read along the pattern, as
/// where two numbers stand side by side.
pub fn total_in(pattern: &[u8], line: &[u8]) -> Option<u64> {
    let mut along = Along {
        line,
        is_behind_percent: false,
        total: None,
    };
    for byte in pattern {
        along = along.behind(*byte)?;
    }
    along.total
}

impl<'a> Along<'a> {
    /// The same behind one more byte of the pattern.
    fn behind(self, byte: u8) -> Option<Along<'a>> {
        if self.is_behind_percent {
            return self.behind_placeholder(byte);
        }
        if byte == b'%' {
            return Some(Along {
                line: self.line,
                is_behind_percent: true,
                total: self.total,
            });
        }
        self.behind_text(byte)
    }

    /// The same behind a byte that stands in the line as it is.
    fn behind_text(self, byte: u8) -> Option<Along<'a>> {
        let (first, line) = self.line.split_first()?;
        if *first != byte {
            return None;
        }
        Some(Along {
            line,
            is_behind_percent: false,
            total: self.total,
        })
    }

    /// The same behind a placeholder of this letter; a percent sign before any other stands as it is.
    fn behind_placeholder(self, letter: u8) -> Option<Along<'a>> {
        match letter {
            b's' | b'r' | b'u' | b'f' => self.behind_number(false),
            b't' => self.behind_number(true),
            b'p' => self.behind_blanks().behind_number(false)?.behind_text(b'%'),
            b'%' => self.behind_text(b'%'),
            _ => self.behind_text(b'%')?.behind_text(letter),
        }
    }

    fn behind_blanks(self) -> Along<'a> {
        let blanks = self.line.iter().take_while(|byte| **byte == b' ').count();
        let line = match self.line.split_at_checked(blanks) {
            Some((_, line)) => line,
            None => self.line,
        };
        Along {
            line,
            is_behind_percent: self.is_behind_percent,
            total: self.total,
        }
    }

    /// The same behind a number, which is that of all commands or another one.
    fn behind_number(self, is_total: bool) -> Option<Along<'a>> {
        let digits = self
            .line
            .iter()
            .take_while(|byte| (**byte).is_ascii_digit())
            .count();
        let (number, line) = self.line.split_at_checked(digits)?;
        let number = str::from_utf8(number).ok()?.parse::<u64>().ok()?;
        Some(Along {
            line,
            is_behind_percent: false,
            total: if is_total { Some(number) } else { self.total },
        })
    }
}
