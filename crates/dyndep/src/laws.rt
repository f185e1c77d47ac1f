//! Laws of dyndep files. These functions do nothing: their contracts are the laws.

ghost use Rattle.std.specs.Prelude.{◌≡◌, ℕ, List, Result};
ghost use Rattle.dyndep.specs.Dyndep.{IsRead};
ghost use Rattle.dyndep.specs.Refused.{StatementsAdd};
ghost use Rattle.dyndep.specs.declared.addition.Addition.{Addition};
ghost use Rattle.dyndep.specs.declared.fault.DynFault.{DynFault};

use lexer::{one_form, one_reading};

/// Bytes say one list of additions, or are refused for one reason, and never both.
pub fn one_answer()
    ensures { (bytes : List ℕ) (a b : Result (List Addition) DynFault) → IsRead bytes a → IsRead bytes b → a ≡ b }
{
    one_form();
    one_reading();
}

/// What statements add, one after the other.
pub fn statements_add()
    ensures { StatementsAdd }
{}
