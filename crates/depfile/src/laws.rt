//! That a depfile says one thing, whatever it holds.

ghost use Rattle.std.specs.Prelude.{◌≡◌, ℕ, List, Result};
ghost use Rattle.depfile.specs.Depfile.{IsRead, HasReading};
ghost use Rattle.depfile.specs.declared.fault.DepFault.{DepFault};

use lexer::{has_canonical, one_form};

/// A law, which runs nothing: bytes say one list of inputs, or are refused for one reason, and never both.
pub fn one_answer()
    ensures { (bytes : List ℕ) (a b : Result (List (List ℕ)) DepFault) → IsRead bytes a → IsRead bytes b → a ≡ b }
{
    one_form();
}

/// A law, which runs nothing: there is a function that reads each depfile as its grammar says.
pub fn has_reading()
    ensures { HasReading }
{
    has_canonical();
}
