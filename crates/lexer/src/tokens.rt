//! The tokens of a line, and what is wrong where one is missing.

ghost use Rattle.std.specs.Prelude.{◌≡◌, ◌<◌, length, option_map, IfOk, IfErr, IfSome};
ghost use Rattle.lexer.specs.Grammar.{Is};
ghost use Rattle.lexer.specs.Places.{IsBehind, Breaks, Reaches};
ghost use Rattle.lexer.specs.Tokens.{fault_at, one, line_end, name, begins_path, word_end, mark, is_mark, ends};

use crate::characters::{Class, is_of};
use crate::cursor::Cursor;
use crate::escapes::is_bad_escape;
use crate::fault::FaultKind;
use crate::stop::Stop;

/// What stands before a part of a `build` line.
#[derive(Clone, Copy, Debug, PartialEq, Eq)]
pub enum Mark {
    /// `|`, before implicit outputs and inputs.
    Bar,
    /// `||`, before order-only inputs.
    DoubleBar,
    /// `|@`, before validations.
    BarAt,
}

impl Mark {
    /// Whether they are the same.
    pub fn is(self, other: Mark) -> bool
        ensures { result ≡ is_mark self other }
    {
        match self {
            Mark::Bar => matches!(other, Mark::Bar),
            Mark::DoubleBar => matches!(other, Mark::DoubleBar),
            Mark::BarAt => matches!(other, Mark::BarAt),
        }
    }
}

/// Whether a value or a path of this class ends here.
pub fn ends(rest: &str, class: Class) -> bool
    ensures { result ≡ ends class rest.now }
{
    match rest.as_bytes() {
        [] => true,
        [first, ..] => !(is_of(class, *first) || *first == b'$'),
    }
}

impl<'a> Cursor<'a> {
    /// What is wrong with what stands here, where nothing that may stand here does.
    pub fn unexpected(self) -> Stop
        ensures { result ≡ Stop.Found (record { line = self.entry.line; kind = fault_at self.entry.rest.now }) }
    {
        if self.strip_one(b'\t').is_some() {
            return self.fault(FaultKind::Tab);
        }
        if is_bad_escape(self) {
            return self.fault(FaultKind::Escape);
        }
        self.fault(FaultKind::Unexpected)
    }

    /// The place behind this ASCII character, which must be the next.
    pub fn skip_one(self, wanted: u8) -> Result<Cursor<'a>, Stop>
        requires { wanted < 128 }
        ensures reads { IfOk result (λ after. Reaches (Is (one wanted)) self.entry tt after) }
        ensures behind { IfOk result (IsBehind self.entry) }
        ensures fault { IfErr result (Breaks (Is (one wanted)) self.entry) }
    {
        match self.strip_one(wanted) {
            Some(after) => Ok(after),
            None => Err(self.unexpected()),
        }
    }

    /// The place behind the end of the line, which must stand here: LF, CR LF or the end of the text.
    pub fn end_line(self) -> Result<Cursor<'a>, Stop>
        ensures reads { IfOk result (λ after. Reaches (Is line_end) self.entry tt after) }
        ensures behind { IfOk result (IsBehind self.entry) }
        ensures shorter { IfOk result (λ after. 0 < length self.entry.rest.now → length after.rest.now < length self.entry.rest.now) }
        ensures fault { IfErr result (Breaks (Is line_end) self.entry) }
    {
        if self.rest.is_empty() {
            return Ok(self);
        }
        match self.strip_newline() {
            Some(after) => Ok(after),
            None => Err(self.unexpected()),
        }
    }

    /// The name that must stand here, and the place behind it.
    pub fn split_name(self) -> Result<(&'a str, Cursor<'a>), Stop>
        ensures reads { IfOk result (λ found. Reaches (Is name) self.entry found.0.now found.1) }
        ensures behind { IfOk result (λ found. IsBehind self.entry found.1) }
        ensures shorter { IfOk result (λ found. length found.1.rest.now < length self.entry.rest.now) }
        ensures fault { IfErr result (Breaks (Is name) self.entry) }
    {
        let (name, after) = self.split_run(Class::Name);
        if name.is_empty() {
            return Err(self.unexpected());
        }
        Ok((name, after))
    }

    /// Whether a path begins here, and no joined line's end, which would stand before it.
    pub fn begins_path(self) -> bool
        ensures { result ≡ begins_path self.entry.rest.now }
    {
        !ends(self.rest, Class::Path) && self.strip_join().is_none()
    }

    /// Goes on only where no path begins here.
    pub fn end_word(self) -> Result<(), Stop>
        ensures reads { IfOk result (λ _. Reaches (Is word_end) self.entry tt self.entry) }
        ensures fault { IfErr result (Breaks (Is word_end) self.entry) }
    {
        if self.begins_path() {
            return Err(self.unexpected());
        }
        Ok(())
    }

    /// The longest mark that stands here, and the place behind it.
    #[tactic(auto, using(crate::proofs::Places::placing))]
    pub fn split_mark(self) -> Option<(Mark, Cursor<'a>)>
        ensures mark { option_map (λ found. (found.0, found.1.rest.now)) result ≡ mark self.entry.rest.now }
        ensures behind { IfSome result (λ found. IsBehind self.entry found.1) }
    {
        let bar = self.strip_one(b'|')?;
        if let Some(after) = bar.strip_one(b'|') {
            return Some((Mark::DoubleBar, after));
        }
        if let Some(after) = bar.strip_one(b'@') {
            return Some((Mark::BarAt, after));
        }
        Some((Mark::Bar, bar))
    }
}
