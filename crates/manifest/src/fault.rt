//! Why build files were not taken.

use model::SiteFault;
use std::alloc::{AllocError, AllocFailed};
use text::Text;
use thiserror::Error;

/// What is wrong in a build file. Each has its number, by which it is shown.
#[derive(Debug, PartialEq, Eq, Drop, Error)]
pub enum FaultKind {
    #[error("not UTF-8")]
    NotUtf8,
    /// What is wrong with a line, whatever it means.
    #[error("{0}")]
    Line(lexer::FaultKind),
    #[error("unknown rule '{0}'")]
    UnknownRule(Text),
    #[error("rule '{0}' declared twice")]
    RepeatedRule(Text),
    #[error("unexpected variable '{0}'")]
    UnexpectedVariable(Text),
    #[error("rule '{0}' has no command")]
    NoCommand(Text),
    #[error("rule '{0}' needs rspfile and rspfile_content together")]
    UnpairedResponse(Text),
    #[error("pool '{0}' declared twice")]
    RepeatedPool(Text),
    #[error("bad depth of pool '{0}'")]
    BadDepth(Text),
    #[error("unknown pool '{0}'")]
    UnknownPool(Text),
    #[error("cannot find '{0}'")]
    NotFound(Text),
    #[error("files nested deeper than 64")]
    TooDeep,
    #[error("rule variables of '{0}' in a circle")]
    Circle(Text),
    #[error("deps '{0}' is not taken")]
    UnknownDeps(Text),
    #[error("needs version {0}")]
    NeedsVersion(Text),
    #[error("default names unknown '{0}'")]
    UnknownDefault(Text),
}

impl FaultKind {
    /// The number of the refusal.
    pub fn number(&self) -> u8 {
        match self {
            FaultKind::NotUtf8 => 1,
            FaultKind::Line(lexer::FaultKind::Tab) => 2,
            FaultKind::Line(lexer::FaultKind::Escape) => 3,
            FaultKind::Line(lexer::FaultKind::Unexpected) => 4,
            FaultKind::UnknownRule(_) => 5,
            FaultKind::RepeatedRule(_) => 6,
            FaultKind::UnexpectedVariable(_) => 7,
            FaultKind::NoCommand(_) => 8,
            FaultKind::UnpairedResponse(_) => 9,
            FaultKind::RepeatedPool(_) => 10,
            FaultKind::BadDepth(_) => 11,
            FaultKind::UnknownPool(_) => 12,
            FaultKind::Line(lexer::FaultKind::EmptyPath) => 13,
            FaultKind::NotFound(_) => 14,
            FaultKind::TooDeep => 15,
            FaultKind::Circle(_) => 16,
            FaultKind::UnknownDeps(_) => 18,
            FaultKind::NeedsVersion(_) => 19,
            FaultKind::UnknownDefault(_) => 20,
            FaultKind::Line(lexer::FaultKind::TooLarge) => 21,
        }
    }
}

/// A fault in a build file, and where it stands. It prints as `FILE:LINE: TEXT`.
#[derive(Debug, PartialEq, Eq, Drop, Error)]
#[error("{file}:{line}: {kind}")]
pub struct FileFault {
    pub file: Text,
    /// The line, from 1; 0 where the main file is absent.
    pub line: usize,
    pub kind: FaultKind,
}

/// Why no manifest was read.
#[derive(Debug, PartialEq, Eq, Drop, Error)]
pub enum ReadError {
    /// A growth of memory was refused.
    #[error("out of memory")]
    Memory,
    /// The site did not give a file.
    #[error("{0}")]
    Site(SiteFault),
    /// A build file has a fault: the first in reading order.
    #[error("{0}")]
    Refused(FileFault),
}

impl From<AllocError> for ReadError {
    ghost use Rattle.std.specs.Prelude.{◌≡◌};
    ghost use Rattle.manifest.specs.declared.fault.ReadError.TheVariants.{Memory};

    ghost from_gives = { λ _ error. error ≡ Memory };

    fn from(_: AllocError) -> ReadError {
        ReadError::Memory
    }
}

impl<T: Drop> From<AllocFailed<T>> for ReadError {
    ghost use Rattle.std.specs.Prelude.{◌≡◌};
    ghost use Rattle.manifest.specs.declared.fault.ReadError.TheVariants.{Memory};

    ghost from_gives = { λ _ error. error ≡ Memory };

    fn from(_: AllocFailed<T>) -> ReadError {
        ReadError::Memory
    }
}

impl From<SiteFault> for ReadError {
    ghost use Rattle.std.specs.Prelude.{◌≡◌};
    ghost use Rattle.manifest.specs.declared.fault.ReadError.TheVariants.{Site};

    ghost from_gives = { λ fault error. error ≡ Site fault };

    fn from(fault: SiteFault) -> ReadError {
        ReadError::Site(fault)
    }
}
