//! Why build files declare no graph.

use std::alloc::{AllocError, AllocFailed};
use std::fmt;
use text::Path;
use thiserror::Error;

/// A file that belongs to the command of an edge, beside its outputs.
#[derive(Clone, Copy, Debug, PartialEq, Eq)]
pub enum SideFile {
    /// What the command tells of its inputs (manual: "depfile").
    Depfile,
    /// What the command is given (manual: "rspfile").
    Response,
}

/// A path that cannot be the depfile or the response file of an edge.
#[derive(Debug, Drop)]
pub struct Occupied {
    pub path: Path,
    pub file: SideFile,
    /// The first output of the edge.
    pub output: Path,
}

impl fmt::Display for Occupied {
    fn fmt<W: fmt::Write>(&self, f: &mut fmt::Formatter<W>) -> fmt::Result {
        let (path, output) = (&self.path, &self.output);
        match self.file {
            SideFile::Depfile => write!(f, "'{path}' cannot be the depfile of '{output}'"),
            SideFile::Response => write!(f, "'{path}' cannot be the response file of '{output}'"),
        }
    }
}

/// Why edges are no graph.
#[derive(Debug, Drop, Error)]
pub enum GraphFault {
    /// A growth of memory was refused.
    #[error("out of memory")]
    Memory,
    /// An output that an edge before it makes, or the same edge once more.
    #[error("'{0}' is made twice")]
    MadeTwice(Path),
    /// A dyndep file that is none of the inputs of an edge which names it (manual: "Dynamic Dependencies").
    #[error("dyndep '{0}' is not an input")]
    NoDyndepInput(Path),
    /// A depfile or a response file that a build line names, but as an output of its own edge, or that is one of the program's
    /// own files.
    #[error("{0}")]
    Occupied(Occupied),
}

impl From<AllocError> for GraphFault {
    ghost use Rattle.std.specs.Prelude.{◌≡◌};
    ghost use Rattle.graph.specs.declared.fault.GraphFault.TheVariants.{Memory};

    ghost from_gives = { λ _ fault. fault ≡ Memory };

    fn from(_: AllocError) -> GraphFault {
        GraphFault::Memory
    }
}

impl<T: Drop> From<AllocFailed<T>> for GraphFault {
    ghost use Rattle.std.specs.Prelude.{◌≡◌};
    ghost use Rattle.graph.specs.declared.fault.GraphFault.TheVariants.{Memory};

    ghost from_gives = { λ _ fault. fault ≡ Memory };

    fn from(_: AllocFailed<T>) -> GraphFault {
        GraphFault::Memory
    }
}

/// Why a graph does not take what a dyndep file says.
#[derive(Debug, Drop, Error)]
pub enum ExtendFault {
    /// A growth of memory was refused.
    #[error("out of memory")]
    Memory,
    /// The first output of an edge that names the file and has no statement in it; or the output of a statement that is of no
    /// such edge, or of one that has a statement before. It is shown with the file's name.
    #[error("does not fit '{0}'")]
    Unfit(Path),
    /// An output that another edge makes, or the same edge once more.
    #[error("'{0}' is made twice")]
    MadeTwice(Path),
}

impl From<AllocError> for ExtendFault {
    ghost use Rattle.std.specs.Prelude.{◌≡◌};
    ghost use Rattle.graph.specs.declared.fault.ExtendFault.TheVariants.{Memory};

    ghost from_gives = { λ _ fault. fault ≡ Memory };

    fn from(_: AllocError) -> ExtendFault {
        ExtendFault::Memory
    }
}

impl<T: Drop> From<AllocFailed<T>> for ExtendFault {
    ghost use Rattle.std.specs.Prelude.{◌≡◌};
    ghost use Rattle.graph.specs.declared.fault.ExtendFault.TheVariants.{Memory};

    ghost from_gives = { λ _ fault. fault ≡ Memory };

    fn from(_: AllocFailed<T>) -> ExtendFault {
        ExtendFault::Memory
    }
}
