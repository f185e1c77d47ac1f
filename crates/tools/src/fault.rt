//! Why a tool gives no answer.

use model::SiteFault;
use std::alloc::{AllocError, AllocFailed};
use std::error::Error;
use std::fmt;
use text::Text;

/// What may have been meant in place of an unknown word.
#[derive(Debug, Drop)]
pub enum Near {
    Nothing,
    /// A path or word that is much like it.
    Path(Text),
    /// The tool that removes outputs.
    Clean,
    /// The text of help.
    Help,
}

/// Why a tool gives no answer. It prints as what stands behind `ninja: error: `.
#[derive(Debug, Drop)]
pub enum Fault {
    Memory,
    Site(SiteFault),
    /// A target is an empty word.
    EmptyPath,
    /// No line names the target.
    UnknownTarget(Text, Near),
    /// A path with `^` behind it that no edge reads.
    NoOutEdge(Text),
    /// Each output is read by an edge, so that nothing is a target where none is named.
    NoRoots,
    /// A path that is no output.
    NotMade(Text),
    /// There is no rule of this name.
    UnknownRule(Text),
    /// A mode that the tool `targets` does not have, and the one that is much like it.
    UnknownMode(Text, Near),
    /// `compdb-targets` has no word.
    NoTargets,
    /// `query` has no word.
    NoPath,
    /// `clean -r` has no word.
    NoRule,
}

impl fmt::Display for Fault {
    fn fmt<W: fmt::Write>(&self, f: &mut fmt::Formatter<W>) -> fmt::Result {
        match self {
            Fault::Memory => write!(f, "N61: out of memory"),
            Fault::Site(_) => write!(f, "N60: the site failed"),
            Fault::EmptyPath => write!(f, "empty path"),
            Fault::UnknownTarget(target, near) => {
                write!(f, "unknown target '{target}'")?;
                write_near(f, near)
            }
            Fault::NoOutEdge(path) => write!(f, "'{path}' has no out edge"),
            Fault::NoRoots => write!(f, "could not determine root nodes of build graph"),
            Fault::NotMade(path) => write!(
                f,
                "'{path}' is not a target (i.e. it is not an output of any `build` statement)"
            ),
            Fault::UnknownRule(rule) => write!(f, "unknown rule '{rule}'"),
            Fault::UnknownMode(mode, near) => {
                write!(f, "unknown target tool mode '{mode}'")?;
                write_near(f, near)
            }
            Fault::NoTargets => {
                write!(f, "compdb-targets expects the name of at least one target")
            }
            Fault::NoPath => write!(f, "expected a target to query"),
            Fault::NoRule => write!(f, "expected a rule to clean"),
        }
    }
}

/// Writes what may have been meant.
fn write_near<W: fmt::Write>(f: &mut fmt::Formatter<W>, near: &Near) -> fmt::Result {
    match near {
        Near::Nothing => Ok(()),
        Near::Path(path) => write!(f, ", did you mean '{path}'?"),
        Near::Clean => write!(f, ", did you mean 'ninja -t clean'?"),
        Near::Help => write!(f, ", did you mean 'ninja -h'?"),
    }
}

impl Error for Fault {}

impl From<AllocError> for Fault {
    ghost use Rattle.std.specs.Prelude.{◌≡◌};
    ghost use Rattle.tools.specs.declared.fault.Fault.TheVariants.{Memory};

    ghost from_gives = { λ _ fault. fault ≡ Memory };

    fn from(_: AllocError) -> Fault {
        Fault::Memory
    }
}

impl<T: Drop> From<AllocFailed<T>> for Fault {
    ghost use Rattle.std.specs.Prelude.{◌≡◌};
    ghost use Rattle.tools.specs.declared.fault.Fault.TheVariants.{Memory};

    ghost from_gives = { λ _ fault. fault ≡ Memory };

    fn from(_: AllocFailed<T>) -> Fault {
        Fault::Memory
    }
}

impl From<SiteFault> for Fault {
    ghost use Rattle.std.specs.Prelude.{◌≡◌};
    ghost use Rattle.tools.specs.Told.{told_fault};

    ghost from_gives = { λ fault told. told ≡ told_fault fault };

    fn from(fault: SiteFault) -> Fault {
        match fault {
            SiteFault::Memory => Fault::Memory,
            SiteFault::Device => Fault::Site(SiteFault::Device),
            SiteFault::Stopped => Fault::Site(SiteFault::Stopped),
        }
    }
}
