//! The tools by name.

use crate::near::near_word;
use std::alloc::{AllocError, Global};

/// A tool behind `-t`.
#[derive(Clone, Copy, Debug, PartialEq, Eq)]
pub enum Tool {
    Clean,
    Commands,
    Inputs,
    Deps,
    MissingDeps,
    Graph,
    Query,
    Targets,
    Compdb,
    CompdbTargets,
    Recompact,
    Restat,
    Rules,
    CleanDead,
}

/// The names of all tools, in the order in which they are listed.
const NAMES: [&str; 14] = [
    "clean",
    "commands",
    "inputs",
    "deps",
    "missingdeps",
    "graph",
    "query",
    "targets",
    "compdb",
    "compdb-targets",
    "recompact",
    "restat",
    "rules",
    "cleandead",
];

const CLEAN: &str = "usage: ninja -t clean [options] [targets]

options:
  -g     also clean files marked as ninja generator output
  -r     interpret targets as a list of rules to clean instead
";

const COMMANDS: &str = "usage: ninja -t commands [options] [targets]

options:
  -s     only print the final command to build [target], not the whole chain
";

const INPUTS: &str = "Usage '-t inputs [options] [targets]

List all inputs used for a set of targets. Note that this includes
explicit, implicit and order-only inputs, but not validation ones.

Note that by default, results are shell escaped, and sorted alphabetically,
and never include validation target paths.

Options:
  -h, --help                Print this message.
";

const COMPDB: &str = "usage: ninja -t compdb [options] [rules]

options:
  -x     expand @rspfile style response file invocations
";

const COMPDB_TARGETS: &str = "usage: ninja -t compdb-targets [-hx] target [targets]

options:
  -h     display this help message
  -x     expand @rspfile style response file invocations
";

const RESTAT: &str = "usage: ninja -t restat [outputs]
";

const RULES: &str = "usage: ninja -t rules [options]

options:
  -d     also print the description of the rule
  -h     print this message
";

const OTHERS: &str = "usage: ninja -t TOOL [words]
";

impl Tool {
    /// What lists the tools.
    pub const LIST: &'static str = "ninja subtools:
         clean  clean built files
      commands  list all commands required to rebuild given targets
        inputs  list all inputs required to rebuild given targets
          deps  show dependencies stored in the deps log
   missingdeps  check deps log dependencies on generated files
         graph  output graphviz dot file for targets
         query  show inputs/outputs for a path
       targets  list targets by their rule or depth in the DAG
        compdb  dump JSON compilation database to stdout
compdb-targets  dump JSON compilation database for a given list of targets to stdout
     recompact  checks its words and does nothing: a build compacts its logs
        restat  checks its words and does nothing: logs hold no stamps of outputs
         rules  list all rules
     cleandead  clean built files that are no longer produced by the manifest
";

    /// The tool of this name.
    pub fn of_name(name: &str) -> Option<Tool> {
        match name {
            "clean" => Some(Tool::Clean),
            "commands" => Some(Tool::Commands),
            "inputs" => Some(Tool::Inputs),
            "deps" => Some(Tool::Deps),
            "missingdeps" => Some(Tool::MissingDeps),
            "graph" => Some(Tool::Graph),
            "query" => Some(Tool::Query),
            "targets" => Some(Tool::Targets),
            "compdb" => Some(Tool::Compdb),
            "compdb-targets" => Some(Tool::CompdbTargets),
            "recompact" => Some(Tool::Recompact),
            "restat" => Some(Tool::Restat),
            "rules" => Some(Tool::Rules),
            "cleandead" => Some(Tool::CleanDead),
            _ => None,
        }
    }

    /// The name of a tool that is much like this one.
    pub fn near(alloc: Global, name: &str) -> Result<Option<&'static str>, AllocError> {
        near_word(alloc, NAMES.as_slice(), name)
    }

    /// Its letters, but for `h`.
    pub fn letters(self) -> &'static [u8] {
        match self {
            Tool::Clean => b"gr",
            Tool::Commands => b"s",
            Tool::Compdb | Tool::CompdbTargets => b"x",
            Tool::Rules => b"d",
            _ => b"",
        }
    }

    /// Whether its words may have letters. Of others each word is what it is.
    pub fn has_letters(self) -> bool {
        !matches!(
            self,
            Tool::Deps | Tool::MissingDeps | Tool::Graph | Tool::Query | Tool::Targets
        )
    }

    /// What it prints where it is asked for help.
    pub fn usage(self) -> &'static str {
        match self {
            Tool::Clean => CLEAN,
            Tool::Commands => COMMANDS,
            Tool::Inputs => INPUTS,
            Tool::Compdb => COMPDB,
            Tool::CompdbTargets => COMPDB_TARGETS,
            Tool::Restat => RESTAT,
            Tool::Rules => RULES,
            _ => OTHERS,
        }
    }
}
