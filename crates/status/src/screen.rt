//! The screen, which a console command has to itself while it runs.

ghost use Rattle.std.specs.Prelude.{◌≡◌, ◌≢◌, ◌++◌, [], Some, None, IfOk, OnOk, OnErr, IsOk, IsNone, IsSome, IfSome, is_some, unwrap_or};
ghost use Rattle.std.specs.Option.{option_copied};
ghost use Rattle.status.specs.Screen.{held};

use std::alloc::{AllocError, Global};
use std::marker::Model;

/// Says what to show now of the texts that are handed in: each at once, or nothing while a console command runs. What is
/// shown is, in order, what was handed in.
#[derive(Debug, Drop)]
pub struct Screen {
    /// The texts held back, one behind the other; `None` while each is shown at once.
    held: Option<Vec<u8>>,
}

impl Model for Screen {
    ghost use Rattle.std.specs.Prelude.{ℕ, List, Option, vec_items};
    ghost use Rattle.std.specs.Option.{option_map};

    ghost Value = { Option (List ℕ) };

    ghost view = { λ screen. option_map vec_items screen.held };
}

impl Screen {
    /// A screen on which each text is shown at once. It takes no memory.
    pub fn new() -> Screen
        ensures { result ≡ None }
    {
        Screen { held: None }
    }

    /// Holds texts back from now on. It takes no memory.
    pub fn hold(&mut self, alloc: Global)
        ensures { self.new ≡ Some (held self.old) }
    {
        if self.held.is_none() {
            self.held = Some(Vec::new(alloc));
        }
    }

    /// Hands a text in, and answers what to show now: all of it, or nothing, where it is empty or held back. Where it is
    /// not held back, this takes no memory. Where memory is refused, nothing of it is held back or shown.
    pub fn show<'a>(&mut self, text: &'a [u8]) -> Result<Option<&'a [u8]>, AllocError>
        ensures order { IfOk result (λ now. unwrap_or (option_copied now) [] ++ held self.new ≡ held self.old ++ text.now) }
        ensures some { IfOk result (λ now. IfSome now (λ bytes. bytes.now ≢ [])) }
        ensures holding { IfOk result (λ now. IsSome self.old → IsNone now) }
        ensures same { is_some self.new ≡ is_some self.old }
        ensures no_memory { self.old ≡ None → IsOk result }
        ensures err { OnErr result (self.new ≡ self.old) }
    {
        match &mut self.held {
            None if text.is_empty() => Ok(None),
            None => Ok(Some(text)),
            Some(held) => {
                held.extend_from_slice(text)?;
                Ok(None)
            }
        }
    }

    /// Shows texts at once again, and puts what was held back behind `shown`, in the order in which it was handed in.
    /// Where memory is refused, both stay as they were.
    pub fn release(&mut self, shown: &mut Vec<u8>) -> Result<(), AllocError>
        ensures ok { OnOk result (shown.new.items ≡ shown.old.items ++ held self.old) }
        ensures at_once { OnOk result (self.new ≡ None) }
        ensures err { OnErr result (self.new ≡ self.old) }
        ensures err_shown { OnErr result (shown.new.items ≡ shown.old.items) }
    {
        if let Some(held) = &self.held {
            shown.extend_from_slice(held.as_slice())?;
        }
        self.held = None;
        Ok(())
    }
}
