//! Notes, and how they print.

use crate::own::{DEPS_LOG, InFolder, LOG, TICK};
use crate::stamps::stamp;
use host::StandingClock;
use std::fmt;
use std::fs::Files;
use text::{Path, Text};

/// What may help whoever watches a build. It prints as one line without its end, which begins with `nj: `.
#[derive(Debug, Drop)]
pub enum Note {
    /// The clock went back since the last start of a command.
    ClockWentBack(Later),
    /// The build file is older than what its generator reads.
    Older(Older),
    /// Another ninja has built here since the last record.
    AnotherNinja(AnotherNinja),
    /// A circle of edges is closed by an input that a command reported.
    Recorded(Recorded),
    /// A command reported that it read what was made later.
    MadeLater(MadeLater),
    /// So many more did.
    MoreMadeLater(usize),
    /// There is no build file at this path.
    NoBuildFile(Text),
    /// The path of a build line that is nearest to a target which none names.
    Nearest(Path),
    /// The clock of the file system does not go on.
    StandingClock(StandingClock),
}

/// The file of the last tick is stamped later than now.
#[derive(Debug, Drop)]
pub struct Later {
    /// The folder of the program's own files; empty is the working folder.
    pub folder: Path,
    /// By so many whole seconds.
    pub seconds: u64,
}

/// A build file that a generator writes is older than what the generator reads.
#[derive(Debug, Drop)]
pub struct Older {
    /// The build file.
    pub file: Text,
    /// What is later, as the build file names it.
    pub input: Text,
    /// The name of the generator, where its command tells one.
    pub generator: Option<Text>,
}

/// The log of another ninja tells of outputs that were made after the last record of this program.
#[derive(Debug, Drop)]
pub struct AnotherNinja {
    /// The folder of both logs; empty is the working folder.
    pub folder: Path,
}

/// An input that only a command reported, of those that lead round a circle.
#[derive(Debug, Drop)]
pub struct Recorded {
    /// What the command made.
    pub output: Path,
    /// What it reported to have read.
    pub input: Path,
    /// The folder of the program's own files; empty is the working folder.
    pub folder: Path,
}

/// A command reported that it read a path, and the command that makes the path had not ended when the first one was started.
#[derive(Debug, Drop)]
pub struct MadeLater {
    /// The first output of the command that read.
    pub output: Path,
    /// What it read.
    pub input: Path,
}

impl Older {
    /// Whether it is so still: the generator may have run since.
    pub fn is_still_older<F: Files>(&self, files: &F) -> bool {
        match (
            stamp(files, self.file.as_str()),
            stamp(files, self.input.as_str()),
        ) {
            (Some(file), Some(input)) => file < input,
            _ => false,
        }
    }
}

impl fmt::Display for Note {
    fn fmt<W: fmt::Write>(&self, f: &mut fmt::Formatter<W>) -> fmt::Result {
        f.write_str("nj: ")?;
        match self {
            Note::ClockWentBack(later) => write!(f, "{later}"),
            Note::Older(older) => write!(f, "{older}"),
            Note::AnotherNinja(other) => write!(f, "{other}"),
            Note::Recorded(recorded) => write!(f, "{recorded}"),
            Note::MadeLater(later) => write!(f, "{later}"),
            Note::MoreMadeLater(count) => write!(
                f,
                "{count} more were read so before they were made; nj --audit tells of each command what it reads"
            ),
            Note::NoBuildFile(file) => write!(
                f,
                "{file} is what a generator writes, as cmake, meson or gn: run it first, or name the folder of the file by -C DIR"
            ),
            Note::Nearest(path) => write!(f, "did you mean '{path}'?"),
            Note::StandingClock(clock) => write!(f, "{clock}"),
        }
    }
}

impl fmt::Display for Later {
    fn fmt<W: fmt::Write>(&self, f: &mut fmt::Formatter<W>) -> fmt::Result {
        let folder = self.folder.as_str();
        let tick = InFolder { folder, name: TICK };
        let log = InFolder { folder, name: LOG };
        let deps = InFolder {
            folder,
            name: DEPS_LOG,
        };
        let seconds = self.seconds;
        write!(
            f,
            "the clock went back: {tick} is stamped {seconds} s later than now, and an edit before then may be missed: delete {log} and {deps}"
        )
    }
}

impl fmt::Display for Older {
    fn fmt<W: fmt::Write>(&self, f: &mut fmt::Formatter<W>) -> fmt::Result {
        let file = &self.file;
        let input = &self.input;
        write!(f, "{file} is older than {input}: run ")?;
        match &self.generator {
            Some(generator) => write!(f, "{generator}"),
            None => f.write_str("its generator"),
        }
    }
}

impl fmt::Display for AnotherNinja {
    fn fmt<W: fmt::Write>(&self, f: &mut fmt::Formatter<W>) -> fmt::Result {
        let folder = self.folder.as_str();
        let log = InFolder { folder, name: LOG };
        let deps = InFolder {
            folder,
            name: DEPS_LOG,
        };
        write!(
            f,
            "another ninja has built here since: what it made is seen only where stamps tell; to be sure delete {log} and {deps}"
        )
    }
}

impl fmt::Display for Recorded {
    fn fmt<W: fmt::Write>(&self, f: &mut fmt::Formatter<W>) -> fmt::Result {
        let output = &self.output;
        let input = &self.input;
        let deps = InFolder {
            folder: self.folder.as_str(),
            name: DEPS_LOG,
        };
        write!(
            f,
            "that '{output}' reads '{input}' was recorded when it was made: deleting {deps} forgets that"
        )
    }
}

impl fmt::Display for MadeLater {
    fn fmt<W: fmt::Write>(&self, f: &mut fmt::Formatter<W>) -> fmt::Result {
        let output = &self.output;
        let input = &self.input;
        write!(
            f,
            "'{output}' reads '{input}', which was not made when its command was started: make '{input}' an input of '{output}'"
        )
    }
}
