//! What cuts a run off.

ghost use Rattle.std.specs.Prelude.{◌≡◌};
ghost use Rattle.work.specs.Cut.{fault_of, is_final};

use model::SiteFault;
use std::alloc::AllocError;

/// A fault that cuts a run off. Nothing is started after it.
#[derive(Clone, Copy, Debug)]
pub enum Cut {
    /// A wait was refused. Nothing is waited for after it, and commands are left running.
    Waiting(SiteFault),
    /// Something else failed, or memory was refused. What runs can be taken in.
    Other(SiteFault),
}

impl Cut {
    pub fn fault(self) -> SiteFault
        ensures { result ≡ fault_of self }
    {
        match self {
            Cut::Waiting(fault) | Cut::Other(fault) => fault,
        }
    }

    /// Whether nothing more is asked of the site: it has refused a wait, or has stopped and would refuse each.
    pub fn is_final(self) -> bool
        ensures { result ≡ is_final self }
    {
        matches!(self, Cut::Waiting(_) | Cut::Other(SiteFault::Stopped))
    }
}

impl From<AllocError> for Cut {
    ghost use Rattle.std.specs.Prelude.{◌≡◌};
    ghost use Rattle.model.specs.declared.fault.SiteFault.TheVariants.{Memory};
    ghost use Rattle.work.specs.declared.cut.Cut.TheVariants.{Other};

    ghost from_gives = { λ _ cut. cut ≡ Other Memory };

    fn from(_: AllocError) -> Cut {
        Cut::Other(SiteFault::Memory)
    }
}
