//! What holds of drawings. This function does nothing: its contract is the law.

ghost use Rattle.std.specs.Prelude.{List, ℕ, ◌++◌};
ghost use Rattle.terminal.specs.Screen.{Draws, drawing, screen};

/// A drawing takes the old rows away, keeps what stands above with what stays behind it, and leaves the new rows and lines that are wrapped.
pub fn drawings_draw()
    ensures { (above old_rows stays new_rows : List ℕ) → Draws (drawing old_rows stays new_rows) (screen above old_rows) (screen (above ++ stays) new_rows) }
{}
