//! What commands do, for sites that carry them out themselves.

ghost use Rattle.std.specs.Prelude.{◌≡◌, ℕ, List, IfOk};
ghost use Rattle.model.specs.World.{View, view_of};
ghost use Rattle.model.specs.Calls.{AgreeOn};

use crate::history::History;
use model::{Act, Outcome};
use std::alloc::{AllocError, Global};

/// Commands as functions of what they read.
pub trait Commands {
    ghost use Rattle.model.specs.declared.act.Act.{Act};
    ghost use Rattle.model.specs.declared.outcome.Outcome.{Outcome};

    /// What a command gives in a view.
    ghost outcome: { Act → View → Outcome };

    /// The paths that a command reads in a view.
    ghost reads: { Act → View → List (List ℕ) };

    /// What the act gives, the files being those of this history.
    fn run(&self, alloc: Global, act: &Act, history: &History) -> Result<Outcome, AllocError>
        ensures { IfOk result (λ given. given ≡ outcome act.now (view_of history.now)) };

    /// Where two views hold the same at the paths read in the first, the outcome is the same.
    ghost reads_alone: { (act : Act) (u v : View) → AgreeOn (reads act u) u v → outcome act u ≡ outcome act v };
}
