//! What a build is asked, and what it answers.

use graph::{GraphFault, Occupied};
use manifest::{FileFault, ReadError};
use model::SiteFault;
use status::Pattern;
use std::alloc::AllocError;
use std::error::Error;
use std::fmt;
use text::{Items, Path, Text};

/// What a build is asked beside its targets.
#[derive(Debug, Drop)]
pub struct Options {
    /// The path of the build file.
    pub file: Text,
    /// How many commands may run at once; 0 is no limit.
    pub jobs: u32,
    /// After how many failed commands nothing more is started; 0 is no limit.
    pub keep: u32,
    /// Whether what is shown of a command is the command in place of its description.
    pub verbose: bool,
    /// What stands in front of each line that is shown.
    pub pattern: Pattern,
}

/// Why a build was refused. It prints as its number and its text, as `N17: 'b' is made twice`.
#[derive(Debug, Drop)]
pub enum Refusal {
    /// A build file has a fault.
    File(FileFault),
    /// A path is an output of two edges, or twice one of the same edge.
    MadeTwice(Path),
    /// A dyndep file is none of the inputs of an edge that names it.
    NoDyndepInput(Path),
    /// A depfile or a response file stands at a path that a build line names, but as an output of its own edge, or at that of one
    /// of the program's own files.
    Occupied(Occupied),
    /// A dyndep file that is to be loaded is absent.
    NoDyndep(Path),
    /// A dyndep file begins with no known version.
    BadVersion(Path),
    /// A dyndep file says something that is no statement of one.
    BadStatement(Path),
    /// What a dyndep file says is not of the edges that name it.
    Unfit(Unfit),
    /// No build statement names the target; it stands here as it was given.
    UnknownTarget(Text),
    /// Edges need one another in a circle. The paths lead round it.
    Cycle(Items<Path>),
    /// A path is absent, and no edge makes it.
    Missing(Missing),
}

impl fmt::Display for Refusal {
    fn fmt<W: fmt::Write>(&self, f: &mut fmt::Formatter<W>) -> fmt::Result {
        match self {
            Refusal::File(fault) => {
                let number = fault.kind.number();
                write!(f, "N{number}: {fault}")
            }
            Refusal::MadeTwice(path) => write!(f, "N17: '{path}' is made twice"),
            Refusal::NoDyndepInput(path) => write!(f, "N53: dyndep '{path}' is not an input"),
            Refusal::Occupied(occupied) => write!(f, "N54: {occupied}"),
            Refusal::NoDyndep(path) => write!(f, "N14: cannot find '{path}'"),
            Refusal::BadVersion(path) => write!(f, "N50: bad version of dyndep '{path}'"),
            Refusal::BadStatement(path) => write!(f, "N51: bad statement in dyndep '{path}'"),
            Refusal::Unfit(unfit) => write!(f, "N52: {unfit}"),
            Refusal::UnknownTarget(target) => write!(f, "N30: unknown target '{target}'"),
            Refusal::Cycle(paths) => write_cycle(f, paths.as_slice()),
            Refusal::Missing(missing) => write!(f, "N32: {missing}"),
        }
    }
}

/// Writes the paths round a cycle, as `a -> b -> a`.
fn write_cycle<W: fmt::Write>(f: &mut fmt::Formatter<W>, paths: &[Path]) -> fmt::Result {
    write!(f, "N31: dependency cycle")?;
    let mut mark = ": ";
    for path in paths {
        write!(f, "{mark}{path}")?;
        mark = " -> ";
    }
    Ok(())
}

impl Error for Refusal {}

/// A path that is absent and that no edge makes.
#[derive(Debug, Drop)]
pub struct Missing {
    pub path: Path,
    /// The first output of the edge that needs it; none for a path that was requested.
    pub needed_by: Option<Path>,
}

impl fmt::Display for Missing {
    fn fmt<W: fmt::Write>(&self, f: &mut fmt::Formatter<W>) -> fmt::Result {
        let path = &self.path;
        match &self.needed_by {
            Some(output) => write!(
                f,
                "'{path}', needed by '{output}', is missing and no rule makes it"
            ),
            None => write!(f, "'{path}' is missing and no rule makes it"),
        }
    }
}

/// A dyndep file whose statements do not fit the edges that name it.
#[derive(Debug, Drop)]
pub struct Unfit {
    pub file: Path,
    /// The first output of an edge that names the file and has no statement in it; or the output of a statement that is of no
    /// such edge, or of one that has a statement before.
    pub output: Path,
}

impl fmt::Display for Unfit {
    fn fmt<W: fmt::Write>(&self, f: &mut fmt::Formatter<W>) -> fmt::Result {
        write!(f, "dyndep '{}' does not fit '{}'", self.file, self.output)
    }
}

/// What a build answers.
#[derive(Debug, Drop)]
pub enum Report {
    /// All that was asked for is up to date; so many commands were started.
    Success { started: usize },
    /// Commands failed: the first output of each of their edges, in the order in which they ended.
    Failed { outputs: Items<Path> },
    /// The build cannot be done as it was asked.
    Refused(Refusal),
    /// The site failed or stopped, or memory was refused.
    Fault(SiteFault),
}

impl From<ReadError> for Report {
    ghost use Rattle.std.specs.Prelude.{◌≡◌};
    ghost use Rattle.work.specs.Ends.{unread};

    ghost from_gives = { λ error report. report ≡ unread error };

    fn from(error: ReadError) -> Report {
        match error {
            ReadError::Refused(fault) => Report::Refused(Refusal::File(fault)),
            ReadError::Site(fault) => Report::Fault(fault),
            ReadError::Memory => Report::Fault(SiteFault::Memory),
        }
    }
}

impl From<GraphFault> for Report {
    ghost use Rattle.std.specs.Prelude.{◌≡◌};
    ghost use Rattle.work.specs.Ends.{ungraphed};

    ghost from_gives = { λ fault report. report ≡ ungraphed fault };

    fn from(fault: GraphFault) -> Report {
        match fault {
            GraphFault::Memory => Report::Fault(SiteFault::Memory),
            GraphFault::MadeTwice(path) => Report::Refused(Refusal::MadeTwice(path)),
            GraphFault::NoDyndepInput(path) => Report::Refused(Refusal::NoDyndepInput(path)),
            GraphFault::Occupied(occupied) => Report::Refused(Refusal::Occupied(occupied)),
        }
    }
}

impl From<SiteFault> for Report {
    ghost use Rattle.std.specs.Prelude.{◌≡◌};
    ghost use Rattle.work.specs.declared.report.Report.TheVariants.{Fault};

    ghost from_gives = { λ fault report. report ≡ Fault fault };

    fn from(fault: SiteFault) -> Report {
        Report::Fault(fault)
    }
}

impl From<AllocError> for Report {
    ghost use Rattle.std.specs.Prelude.{◌≡◌};
    ghost use Rattle.model.specs.declared.fault.SiteFault.TheVariants.{Memory};
    ghost use Rattle.work.specs.declared.report.Report.TheVariants.{Fault};

    ghost from_gives = { λ _ report. report ≡ Fault Memory };

    fn from(_: AllocError) -> Report {
        Report::Fault(SiteFault::Memory)
    }
}
