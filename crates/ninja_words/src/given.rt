//! What the words of the stand-in ask for.

use std::alloc::{AllocError, AllocFailed, Global};
use std::fmt;
use tools::Tool;

/// What is shown of commands.
#[derive(Clone, Copy, Debug, PartialEq, Eq)]
pub enum Shown {
    /// What they print, and no line of their own.
    Printed,
    /// A line each, with the description.
    Lines,
    /// A line each, with the command.
    Commands,
}

/// What words give beside the tool. The texts are those of the words.
#[derive(Debug, Drop)]
pub struct Options<'a> {
    /// The folder from which all paths are taken, if it is not the present one.
    pub folder: Option<&'a str>,
    /// The path of the build file.
    pub file: &'a str,
    /// How many commands may run at once, 0 for no limit; where it is not given the processors count.
    pub jobs: Option<u32>,
    /// After how many failed commands nothing more is started; 0 is no limit.
    pub keep: u32,
    /// Above which load no command is started while another runs.
    pub load: Option<f64>,
    pub shown: Shown,
    /// Whether nothing is to be run.
    pub dry: bool,
    /// Whether it is to be said why commands run.
    pub explain: bool,
    /// Whether it is to be said how much was done.
    pub stats: bool,
    /// Whether depfiles or response files were to be kept.
    pub keeps: bool,
    /// The targets, or the words of a tool.
    pub words: Vec<&'a str>,
}

impl<'a> Options<'a> {
    /// What no words give.
    pub fn new(alloc: Global) -> Options<'a> {
        Options {
            folder: None,
            file: "build.ninja",
            jobs: None,
            keep: 1,
            load: None,
            shown: Shown::Lines,
            dry: false,
            explain: false,
            stats: false,
            keeps: false,
            words: Vec::new(alloc),
        }
    }
}

/// What is only told.
#[derive(Clone, Copy, Debug, PartialEq, Eq)]
pub enum Information {
    Version,
    Help,
    Tools,
    Modes,
    Warnings,
}

/// What words ask for.
#[derive(Debug, Drop)]
pub enum Asked<'a> {
    Told(Information),
    Build(Options<'a>),
    Tool(Tool, Options<'a>),
}

/// Why words ask for nothing. It prints as the line that says so.
#[derive(Debug, Drop)]
pub enum WordFault<'a> {
    Memory,
    /// An option with one letter that is none.
    Letter(char),
    /// An option with a name that is none.
    Name(&'a str),
    /// The option lacks its value.
    NoValue(char),
    Jobs,
    Keep,
    Load,
    Mode(&'a str, Option<&'static str>),
    Warning(&'a str, Option<&'static str>),
    Tool(&'a str, Option<&'static str>),
}

impl WordFault<'_> {
    /// Whether help is told behind the line.
    pub fn wants_help(&self) -> bool {
        matches!(
            self,
            WordFault::Letter(_) | WordFault::Name(_) | WordFault::NoValue(_)
        )
    }
}

impl fmt::Display for WordFault<'_> {
    fn fmt<W: fmt::Write>(&self, f: &mut fmt::Formatter<W>) -> fmt::Result {
        match self {
            WordFault::Memory => write!(f, "ninja: error: N61: out of memory"),
            WordFault::Letter(letter) => write!(f, "ninja: invalid option -- '{letter}'"),
            WordFault::Name(name) => write!(f, "ninja: unrecognized option '{name}'"),
            WordFault::NoValue(letter) => {
                write!(f, "ninja: option requires an argument -- '{letter}'")
            }
            WordFault::Jobs => write!(f, "ninja: fatal: invalid -j parameter"),
            WordFault::Keep => {
                write!(
                    f,
                    "ninja: fatal: -k parameter not numeric; did you mean -k 0?"
                )
            }
            WordFault::Load => {
                write!(
                    f,
                    "ninja: fatal: -l parameter not numeric: did you mean -l 0.0?"
                )
            }
            WordFault::Mode(word, near) => {
                write!(f, "ninja: error: unknown debug setting '{word}'")?;
                write_near(f, *near)
            }
            WordFault::Warning(word, near) => {
                write!(f, "ninja: error: unknown warning flag '{word}'")?;
                write_near(f, *near)
            }
            WordFault::Tool(word, near) => {
                write!(f, "ninja: fatal: unknown tool '{word}'")?;
                write_near(f, *near)
            }
        }
    }
}

fn write_near<W: fmt::Write>(f: &mut fmt::Formatter<W>, near: Option<&'static str>) -> fmt::Result {
    match near {
        Some(word) => write!(f, ", did you mean '{word}'?"),
        None => Ok(()),
    }
}

impl From<AllocError> for WordFault<'_> {
    fn from(_: AllocError) -> Self {
        WordFault::Memory
    }
}

impl<T: Drop> From<AllocFailed<T>> for WordFault<'_> {
    fn from(_: AllocFailed<T>) -> Self {
        WordFault::Memory
    }
}
