//! Laws of what build files declare.

ghost use Rattle.std.specs.Prelude.{◌≡◌, List, ℕ, Option, Result, ◌++◌};
ghost use Rattle.model.specs.declared.event.Moment.{Moment};
ghost use Rattle.model.specs.declared.graph.BuildGraph.{BuildGraph};
ghost use Rattle.manifest.specs.declared.fault.ReadError.{ReadError};
ghost use Rattle.manifest.specs.Naming.{HaveOneOutcome, IsReadLater};

use lexer::{one_form, one_reading};
use scopes::values_are_unique;

/// A law, which runs nothing: files that stand still declare one graph, or have one first fault. So no graph is declared
/// where a fault stands that is refused, and the fault that is answered is the first.
pub fn one_outcome()
    ensures { (files : List ℕ → Option (List ℕ)) (name : List ℕ) → HaveOneOutcome files name }
{
    one_form();
    one_reading();
    values_are_unique();
}

/// A law, which runs nothing: what build files declared during a call, they declared during a longer one.
pub fn reads_longer()
    ensures { (name : List ℕ) (old mid new later : List Moment) (result : Result BuildGraph ReadError) → new ≡ mid ++ later → IsReadLater name old mid new result }
{}
