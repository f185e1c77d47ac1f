//! What stops a build before nothing is left to do.

use crate::cut::Cut;
use crate::report::{Refusal, Report};
use model::SiteFault;
use std::alloc::{AllocError, AllocFailed};

/// Why a build stops.
#[derive(Debug, Drop)]
pub enum Stop {
    /// It cannot be done as it was asked.
    Refused(Refusal),
    /// A call was refused, or memory was.
    Fault(SiteFault),
}

impl From<SiteFault> for Stop {
    ghost use Rattle.std.specs.Prelude.{◌≡◌};
    ghost use Rattle.work.specs.declared.stop.Stop.TheVariants.{Fault};

    ghost from_gives = { λ fault stop. stop ≡ Fault fault };

    fn from(fault: SiteFault) -> Stop {
        Stop::Fault(fault)
    }
}

impl From<Cut> for Stop {
    ghost use Rattle.std.specs.Prelude.{◌≡◌};
    ghost use Rattle.work.specs.Cut.{fault_of};
    ghost use Rattle.work.specs.declared.stop.Stop.TheVariants.{Fault};

    ghost from_gives = { λ cut stop. stop ≡ Fault (fault_of cut) };

    fn from(cut: Cut) -> Stop {
        Stop::Fault(cut.fault())
    }
}

impl From<AllocError> for Stop {
    ghost use Rattle.std.specs.Prelude.{◌≡◌};
    ghost use Rattle.model.specs.declared.fault.SiteFault.TheVariants.{Memory};
    ghost use Rattle.work.specs.declared.stop.Stop.TheVariants.{Fault};

    ghost from_gives = { λ _ stop. stop ≡ Fault Memory };

    fn from(_: AllocError) -> Stop {
        Stop::Fault(SiteFault::Memory)
    }
}

impl<T: Drop> From<AllocFailed<T>> for Stop {
    ghost use Rattle.std.specs.Prelude.{◌≡◌};
    ghost use Rattle.model.specs.declared.fault.SiteFault.TheVariants.{Memory};
    ghost use Rattle.work.specs.declared.stop.Stop.TheVariants.{Fault};

    ghost from_gives = { λ _ stop. stop ≡ Fault Memory };

    fn from(_: AllocFailed<T>) -> Stop {
        Stop::Fault(SiteFault::Memory)
    }
}

impl From<Stop> for Report {
    ghost use Rattle.std.specs.Prelude.{◌≡◌};
    ghost use Rattle.work.specs.Ends.{report_of};

    ghost from_gives = { λ stop report. report ≡ report_of stop };

    fn from(stop: Stop) -> Report {
        match stop {
            Stop::Refused(refusal) => Report::Refused(refusal),
            Stop::Fault(fault) => Report::Fault(fault),
        }
    }
}
