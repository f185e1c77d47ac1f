//! Bindings at the beginning of a line (manual: "Variables").

ghost use Rattle.std.specs.Prelude.{OnOk};
ghost use Rattle.manifest.specs.Held.{KeepsScopes};
ghost use Rattle.manifest.specs.Statements.{SaysNext, IsAnswerIn, KeepsFormed, BindingSays, ValueHere};

use crate::fault::{FaultKind, ReadError};
use crate::kept::Declared;
use crate::numbers::is_newer;
use crate::place::Place;
use lexer::Value;
use scopes::{Block, ExpandFault, expand};
use std::alloc::Global;
use text::Text;

impl Declared {
    /// Reads `name = value`.
    pub fn read_binding(
        &mut self,
        alloc: Global,
        place: &Place<'_>,
        name: &str,
        value: &Value<'_>,
    ) -> Result<(), ReadError>
        ensures said { SaysNext result self.old self.new (BindingSays place.now name.now value.now) }
        ensures scopes { OnOk result (KeepsScopes self.old self.new) }
        ensures formed { OnOk result (KeepsFormed self.old self.new) }
    {
        let text = self.expand(alloc, place, value)?;
        if name == "ninja_required_version" && is_newer(text.as_str()) {
            return Err(place.fault(alloc, FaultKind::NeedsVersion(text)));
        }
        self.scopes.bind(alloc, name, text)?;
        Ok(())
    }

    /// The value at this place, where no block is seen.
    pub fn expand(
        &self,
        alloc: Global,
        place: &Place<'_>,
        value: &Value<'_>,
    ) -> Result<Text, ReadError>
        ensures { IsAnswerIn self.now (ValueHere place.now value.now) result }
    {
        match expand(alloc, &self.scopes, &Block::new(alloc), value) {
            Ok(text) => Ok(text),
            Err(ExpandFault::Memory) => Err(ReadError::Memory),
            Err(ExpandFault::TooLarge) => Err(place.too_large(alloc)),
        }
    }
}
