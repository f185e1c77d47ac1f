//! Where build files come from.

ghost use Rattle.std.specs.Prelude.{◌≡◌, Bool, IsTrue, IfOk, OnOk};
ghost use Rattle.model.specs.World.{World};
ghost use Rattle.model.specs.Calls.{OnlyLooks, HasCause, KeepsWait};
ghost use Rattle.site.specs.Files.{SawContent, TookFile, text_in};
ghost use Rattle.text.specs.Handed.{TakesOn};

use model::SiteFault;
use std::alloc::AllocError;
use text::{Bytes, Takes};

/// A place with files that can be read.
pub trait Texts {
    /// Whether it tells its files. A clause about files says something only where it does.
    ghost tells: { Bool };

    ghost world: { Self → World };

    /// What the file at the path holds, or nothing where there is no file.
    fn read(&mut self, path: &str) -> Result<Option<Bytes>, SiteFault>
        ensures looks { OnlyLooks tells (world self.old) (world self.new) }
        ensures cause { HasCause (world self.old) (world self.new) result }
        ensures waits { KeepsWait (world self.old) (world self.new) }
        ensures content { IsTrue tells → IfOk result (λ content. SawContent path.now content (world self.old).history (world self.new).history) };

    /// Hands what the file at the path holds to the taker, piece by piece; where there is no file, nothing. Where it fails, some of it may
    /// have been taken.
    fn read_into<T: Takes>(&mut self, path: &str, taker: &mut T) -> Result<(), SiteFault>
        ensures looks { OnlyLooks tells (world self.old) (world self.new) }
        ensures cause { HasCause (world self.old) (world self.new) result }
        ensures waits { KeepsWait (world self.old) (world self.new) }
        ensures content { OnOk result (TookFile T.Took tells path.now (taker.old, world self.old) (taker.new, world self.new)) }
    {
        let content = self.read(path)?;
        hand_over(&content, taker)?;
        Ok(())
    }

    /// How many calls the device has refused so far.
    fn failures(&self) -> u64
        ensures { result ≡ (world self.now).failures };
}

/// Hands what a file holds to the taker in one piece, and nothing where there is no file.
pub fn hand_over<T: Takes>(content: &Option<Bytes>, taker: &mut T) -> Result<(), AllocError>
    ensures { OnOk result (TakesOn T.Took (text_in content.now) taker.old taker.new) }
{
    match content {
        Some(bytes) => {
            taker.take(bytes.as_slice())?;
            Ok(())
        }
        None => Ok(()),
    }
}
