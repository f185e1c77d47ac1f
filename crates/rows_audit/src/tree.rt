//! What is told of the commands of a whole tree, each by its trace.

use crate::declared::{build_log_of, commands_of, deps_log_of, fill, lead, load_file, names_of};
use crate::one_file::graph_of;
use crate::traced::trace_in;
use auditor::{Auditor, Counts, Tally};
use graph::Graph;
use log_text::BuildLog;
use paths::Paths;
use std::alloc::{AllocError, Global};
use tables::{unescaped, word};

/// A tree, and what was told of its commands.
#[derive(Drop)]
pub struct Tree {
    /// The working folder, from the root.
    folder: String,
    /// What the build file declares, up to the row `audit`.
    graph: Option<Graph>,
    log: Option<BuildLog>,
    deps: Option<log_text::DepsLog>,
    /// The first output of each edge.
    names: Paths,
    /// What traces are compared with, from the row `audit` on.
    auditor: Option<Auditor>,
    /// What was counted, with what is told once all commands were looked at; the lines of each were told with it.
    tally: Tally,
}

impl Tree {
    /// None. This takes no memory.
    pub fn none(alloc: Global) -> Tree {
        Tree {
            folder: String::new(alloc),
            graph: None,
            log: None,
            deps: None,
            names: Paths::new(alloc),
            auditor: None,
            tally: Tally::new(alloc, 0),
        }
    }

    /// The answer to a row, if it has one; `false` where it only says something of the tree.
    pub fn answer(
        &mut self,
        alloc: Global,
        first: &str,
        rest: &str,
        told: &mut String,
    ) -> Result<bool, AllocError> {
        match first {
            "tree" => self.begin(alloc, rest)?,
            "log" => self.take_log(alloc, rest)?,
            "deps" => self.take_deps(alloc, rest)?,
            "dyndep" => self.load(alloc, rest)?,
            "scratch" => self.take_scratch(rest)?,
            "file" => self.lead(alloc, rest)?,
            "filled" => self.fill(rest)?,
            "link" => self.learn(rest)?,
            "left" => self.leave(alloc, rest)?,
            _ => {
                self.push_asked(alloc, first, rest, told)?;
                return Ok(true);
            }
        }
        Ok(false)
    }

    /// `tree FOLDER LINES`: another tree.
    fn begin(&mut self, alloc: Global, row: &str) -> Result<(), AllocError> {
        let (folder, lines) = word(row);
        self.folder = String::from_str(alloc, folder)?;
        self.graph = graph_of(alloc, unescaped(alloc, lines)?);
        self.log = None;
        self.deps = None;
        self.auditor = None;
        self.tally = Tally::new(alloc, 0);
        Ok(())
    }

    fn take_log(&mut self, alloc: Global, text: &str) -> Result<(), AllocError> {
        self.log = Some(build_log_of(alloc, text)?);
        Ok(())
    }

    fn take_deps(&mut self, alloc: Global, text: &str) -> Result<(), AllocError> {
        self.deps = Some(deps_log_of(alloc, text)?);
        Ok(())
    }

    fn load(&mut self, alloc: Global, row: &str) -> Result<(), AllocError> {
        match &mut self.graph {
            Some(graph) => load_file(alloc, graph, row),
            None => Ok(()),
        }
    }

    /// `scratch FOLDER`: `TMPDIR` leads to this folder.
    fn take_scratch(&mut self, folder: &str) -> Result<(), AllocError> {
        match &mut self.auditor {
            Some(auditor) => auditor.take_scratch(folder),
            None => Ok(()),
        }
    }

    fn lead(&mut self, alloc: Global, row: &str) -> Result<(), AllocError> {
        match &mut self.auditor {
            Some(auditor) => lead(alloc, auditor, row),
            None => Ok(()),
        }
    }

    /// `filled PATH..`: these paths lead to plain files that are not empty.
    fn fill(&mut self, paths: &str) -> Result<(), AllocError> {
        match &mut self.auditor {
            Some(auditor) => fill(auditor, paths),
            None => Ok(()),
        }
    }

    /// `link PATH TARGET`: a link that leads there stands at the path.
    fn learn(&mut self, row: &str) -> Result<(), AllocError> {
        let (path, target) = word(row);
        match &mut self.auditor {
            Some(auditor) => auditor.learn(path, Some(target)),
            None => Ok(()),
        }
    }

    /// `left PATH..`: files stand there, from the root, before the build begins.
    fn leave(&mut self, alloc: Global, paths: &str) -> Result<(), AllocError> {
        for path in paths.split(' ') {
            self.tally.leave(alloc, path)?;
        }
        Ok(())
    }

    fn push_asked(
        &mut self,
        alloc: Global,
        first: &str,
        rest: &str,
        told: &mut String,
    ) -> Result<(), AllocError> {
        match first {
            "audit" => self.push_begun(alloc, rest, told),
            "command" => self.push_command(alloc, rest, told),
            "untraced" => self.push_taken(alloc, rest, None, told),
            "told" => push_told(alloc, &self.tally, rest == "all", told),
            _ => told.push_str("no such row"),
        }
    }

    /// `audit TARGET..`: how many commands are to be looked at.
    fn push_begun(
        &mut self,
        alloc: Global,
        targets: &str,
        told: &mut String,
    ) -> Result<(), AllocError> {
        let Some(graph) = self.graph.take() else {
            return told.push_str("no graph");
        };
        self.names = names_of(alloc, &graph)?;
        self.compare(alloc, graph)?;
        self.push_count(alloc, targets, told)
    }

    /// Takes in what is declared and recorded.
    fn compare(&mut self, alloc: Global, graph: Graph) -> Result<(), AllocError> {
        let log = self.log.take();
        let deps = self.deps.take();
        let auditor = Auditor::new(alloc, graph, self.folder.as_str(), log, deps)?;
        self.auditor = Some(auditor);
        Ok(())
    }

    fn push_count(
        &mut self,
        alloc: Global,
        targets: &str,
        told: &mut String,
    ) -> Result<(), AllocError> {
        let Some(auditor) = &self.auditor else {
            return told.push_str("no tree");
        };
        let Some(commands) = commands_of(alloc, auditor, targets)? else {
            return told.push_str("no cone");
        };
        self.tally = Tally::new(alloc, commands);
        let count = format!(in alloc; "commands: {commands}")?;
        told.push_str(count.as_str())
    }

    /// `command OUTPUT TEXT`: what is told of the command that makes this output first, which left this trace.
    fn push_command(
        &mut self,
        alloc: Global,
        row: &str,
        told: &mut String,
    ) -> Result<(), AllocError> {
        let (output, text) = word(row);
        let trace = trace_in(alloc, text)?;
        self.push_taken(alloc, output, Some(trace.as_slice()), told)
    }

    /// What is told of the command that makes this output first, which left this trace, if any.
    fn push_taken(
        &mut self,
        alloc: Global,
        output: &str,
        trace: Option<&[u8]>,
        told: &mut String,
    ) -> Result<(), AllocError> {
        let Some(number) = self.names.number_of(output) else {
            return told.push_str("no such command");
        };
        let Some(auditor) = &self.auditor else {
            return told.push_str("no tree");
        };
        let job = number.index().saturating_add(1);
        auditor.take(job, trace, &mut self.tally)?;
        push_lines(alloc, &mut self.tally, told)
    }
}

/// Takes the lines out that commands left.
fn push_lines(alloc: Global, tally: &mut Tally, told: &mut String) -> Result<(), AllocError> {
    told.push_str(tally.lines.as_str())?;
    tally.lines = String::new(alloc);
    Ok(())
}

/// `told`: what is told behind the lines of commands, and how many were looked at. `told all`: the same with each file outside of the folder.
fn push_told(
    alloc: Global,
    tally: &Tally,
    is_listed: bool,
    told: &mut String,
) -> Result<(), AllocError> {
    let lines = tally.told(alloc, is_listed)?;
    told.push_str(lines.as_str())?;
    push_counts(alloc, tally.counts, told)
}

fn push_counts(alloc: Global, counts: Counts, told: &mut String) -> Result<(), AllocError> {
    let Counts {
        commands,
        looked,
        kept,
    } = counts;
    let line = format!(in alloc;
        "{looked} of {commands} commands of the cone looked at, {kept} keep all premises"
    )?;
    told.push_str(line.as_str())?;
    told.push_str(if counts.is_clean() { "; clean" } else { "" })
}
