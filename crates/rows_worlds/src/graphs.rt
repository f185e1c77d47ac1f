//! The graph of a build file, with what is recorded and loaded.
//!
//! A row `graph LINES` begins the graph of a build file with the rule `r` and these lines, and `chain EDGES` or `fan FILES EDGES` a large
//! one, as `graph_texts` says. `recorded PATH` gives its first edge a recorded input. `extend FILE LINES` loads a dyndep file of this
//! name with these lines, and tells whether it fits. `before TARGET..` keeps what is built for these targets, or else by default,
//! and `again` tells the cone of that with what was loaded since. The rows that `asked_graph` names ask.

use crate::answers::plain;
use crate::asked_graph::{push_asked, push_cone_again, target_numbers};
use crate::graph_texts::{push_chain, push_fan};
use crate::one_file::graph_of;
use dyndep::parse;
use graph::{ExtendFault, Graph};
use paths::PathId;
use std::alloc::{AllocError, Global};
use tables::word;

const RULE: &str = "rule r\n command = r $in $out\n";

const VERSION: &str = "ninja_dyndep_version = 1\n";

/// A graph, if the build file has one, and what `before` kept.
#[derive(Drop)]
pub struct Graphs {
    graph: Option<Graph>,
    targets: Vec<PathId>,
}

impl Graphs {
    pub fn new(alloc: Global) -> Graphs {
        Graphs {
            graph: None,
            targets: Vec::new(alloc),
        }
    }

    pub fn answer(
        &mut self,
        alloc: Global,
        first: &str,
        rest: &str,
        told: &mut String,
    ) -> Result<bool, AllocError> {
        if matches!(first, "graph" | "chain" | "fan") {
            self.begin(alloc, first, rest)?;
            return Ok(false);
        }
        let Some(graph) = &mut self.graph else {
            told.push_str("no graph")?;
            return Ok(true);
        };
        if first == "before" {
            self.targets = target_numbers(alloc, graph, rest)?;
            return Ok(false);
        }
        change_or_ask(alloc, graph, &self.targets, (first, rest), told)
    }

    fn begin(&mut self, alloc: Global, first: &str, rest: &str) -> Result<(), AllocError> {
        let mut text = String::from_str(alloc, RULE)?;
        push_lines(alloc, first, rest, &mut text)?;
        self.graph = graph_of(alloc, text);
        Ok(())
    }
}

fn push_lines(alloc: Global, first: &str, rest: &str, text: &mut String) -> Result<(), AllocError> {
    match first {
        "chain" => push_chain(alloc, text, rest),
        "fan" => push_fan(alloc, text, rest),
        _ => text.push_str(plain(alloc, rest)?.as_str()),
    }
}

/// `false` where nothing is told.
fn change_or_ask(
    alloc: Global,
    graph: &mut Graph,
    targets: &[PathId],
    (first, rest): (&str, &str),
    told: &mut String,
) -> Result<bool, AllocError> {
    match first {
        "recorded" => {
            add_recorded(alloc, graph, rest)?;
            return Ok(false);
        }
        "extend" => push_extended(alloc, graph, rest, told)?,
        "again" => push_cone_again(alloc, graph, targets.to_vec(alloc)?, told)?,
        _ => push_asked(alloc, graph, first, rest, told)?,
    }
    Ok(true)
}

/// Gives the first edge a recorded input.
fn add_recorded(alloc: Global, graph: &mut Graph, path: &str) -> Result<(), AllocError> {
    let number = graph.add_path(alloc, path)?;
    if graph.edges() > 0 && number.index() < graph.paths() {
        let edge = graph.manifest.edge(0);
        graph.add_inputs(alloc, edge, &[number])?;
    }
    Ok(())
}

fn push_extended(
    alloc: Global,
    graph: &mut Graph,
    row: &str,
    told: &mut String,
) -> Result<(), AllocError> {
    let (file, lines) = word(row);
    let mut text = String::from_str(alloc, VERSION)?;
    text.push_str(plain(alloc, lines)?.as_str())?;
    extend(alloc, graph, file, text.as_str(), told)
}

/// Loads a dyndep file, and tells whether it fits.
fn extend(
    alloc: Global,
    graph: &mut Graph,
    file: &str,
    text: &str,
    told: &mut String,
) -> Result<(), AllocError> {
    let Ok(additions) = parse(alloc, text.as_bytes()) else {
        return told.push_str("bad file");
    };
    let number = graph.add_path(alloc, file)?;
    if number.index() >= graph.paths() {
        return told.push_str("no file");
    }
    match graph.extend(alloc, additions.as_slice(), number) {
        Ok(_) => told.push_str("fits"),
        Err(fault) => push_fault(&fault, told),
    }
}

fn push_fault(fault: &ExtendFault, told: &mut String) -> Result<(), AllocError> {
    let (kind, path) = match fault {
        ExtendFault::Memory => return told.push_str("out of memory"),
        ExtendFault::Unfit(path) => ("unfit ", path),
        ExtendFault::MadeTwice(path) => ("twice ", path),
    };
    told.push_str(kind)?;
    told.push_str(path.as_str())
}
