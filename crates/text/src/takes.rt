//! Whoever is handed bytes piece by piece.

ghost use Rattle.std.specs.Prelude.{OnOk};
ghost use Rattle.text.specs.Handed.{TakesOn};

use std::alloc::AllocError;

/// Whoever is handed bytes piece by piece, the pieces one behind another.
pub trait Takes {
    ghost use Rattle.std.specs.Prelude.{List, ℕ};

    /// These bytes were taken so far.
    ghost Took: { List ℕ → Self → Type 0 };

    /// Takes the bytes that come next. Where memory is refused, nothing is said of what was taken.
    fn take(&mut self, piece: &[u8]) -> Result<(), AllocError>
        ensures { OnOk result (TakesOn Took piece.now self.old self.new) };
}
