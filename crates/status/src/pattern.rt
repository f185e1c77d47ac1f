//! Patterns of status lines.

ghost use Rattle.std.specs.Prelude.{◌≡◌, IfOk};
ghost use Rattle.status.specs.Pattern.{IsPatternOf};

use crate::part::Part;
use std::alloc::{AllocError, Global};
use std::marker::Model;

/// What stands in front of the text of each line (manual, "Environment variables": `NINJA_STATUS`). Contracts see it as
/// the list of its parts.
#[derive(Debug, Drop)]
pub struct Pattern {
    parts: Vec<Part>,
}

impl Model for Pattern {
    ghost use Rattle.std.specs.Prelude.{List};
    ghost use Rattle.status.specs.declared.part.Part.{Part};

    ghost Value = { List Part };

    ghost view = { λ pattern. pattern.parts.items };
}

impl Pattern {
    /// The pattern where `NINJA_STATUS` is not set.
    pub const DEFAULT: &'static str = "[%f/%t] ";

    /// The pattern of a text. Any text is one: a percent sign that begins no placeholder stands as it is, with what
    /// follows.
    pub fn parse(alloc: Global, text: &str) -> Result<Pattern, AllocError>
        ensures { IfOk result (IsPatternOf text.now) }
    {
        let mut parts = Vec::new(alloc);
        let mut rest = text.as_bytes();
        'parts: while let Some((part, after)) = Part::split_first(rest) {
            parts.push(part)?;
            rest = after;
        }
        Ok(Pattern { parts })
    }

    /// The parts, in their order.
    pub(crate) fn parts(&self) -> &[Part]
        ensures { result.now ≡ self.now }
    {
        self.parts.as_slice()
    }
}
