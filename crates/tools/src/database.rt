//! `-t compdb` and `-t compdb-targets`: commands with what they compile, as JSON.

use crate::above::edges_above;
use crate::access::{inputs_at, is_phony_at, outputs_at, text_at};
use crate::declared::Declared;
use crate::fault::Fault;
use crate::found::target;
use paths::{Command, EdgeId, PathId};
use serde_json::Value;
use std::alloc::{AllocError, Global};
use text::Text;

/// What is told of each edge: in which folder commands run, and whether response files are put in place of their names.
#[derive(Clone, Copy)]
pub struct Entries<'a> {
    pub folder: &'a str,
    pub expand: bool,
}

/// What `compdb` prints: an entry for each edge with an input whose rule is one of these, as often as it is; where no rule is named,
/// for each edge with an input.
pub fn compdb(
    alloc: Global,
    declared: &Declared,
    how: Entries<'_>,
    rules: &[&str],
) -> Result<String, AllocError> {
    let mut listing = Listing::new(alloc)?;
    for place in 0..declared.graph.edges() {
        let edge = declared.graph.manifest.edge(place);
        for _ in 0..count_of(rules, declared.rule(edge)) {
            listing.push(alloc, declared, how, edge)?;
        }
    }
    Ok(listing.end()?)
}

/// How often the rule is named; once where none is.
fn count_of(rules: &[&str], rule: &str) -> usize {
    if rules.is_empty() {
        return 1;
    }
    rules.iter().filter(|named| **named == rule).count()
}

/// What `compdb-targets` prints: an entry for each command with an input that these outputs need, makers first.
pub fn compdb_targets(
    alloc: Global,
    declared: &Declared,
    how: Entries<'_>,
    words: &[&str],
) -> Result<String, Fault> {
    if words.is_empty() {
        return Err(Fault::NoTargets);
    }
    let mut paths = Vec::new(alloc);
    for word in words {
        paths.push(output(alloc, declared, word)?)?;
    }
    let mut listing = Listing::new(alloc)?;
    for edge in edges_above(alloc, &declared.graph, &paths)? {
        if !is_phony_at(&declared.graph, edge) {
            listing.push(alloc, declared, how, edge)?;
        }
    }
    Ok(listing.end()?)
}

/// The output that a word names.
fn output(alloc: Global, declared: &Declared, word: &str) -> Result<PathId, Fault> {
    let path = target(alloc, &declared.graph, word)?;
    if declared.graph.maker(path).is_none() {
        let text = text_at(&declared.graph, path);
        return Err(Fault::NotMade(Text::from_str(alloc, text)?));
    }
    Ok(path)
}

/// The first input and the first output of an edge.
#[derive(Clone, Copy)]
struct Ends {
    input: PathId,
    output: PathId,
}

/// The entries so far.
#[derive(Drop)]
struct Listing {
    told: String,
    /// Whether there is none.
    is_empty: bool,
}

impl Listing {
    fn new(alloc: Global) -> Result<Listing, AllocError> {
        Ok(Listing {
            told: String::from_str(alloc, "[")?,
            is_empty: true,
        })
    }

    /// All entries.
    fn end(self) -> Result<String, AllocError> {
        let Listing { mut told, .. } = self;
        told.push_str("\n]\n")?;
        Ok(told)
    }

    /// Puts the entry of an edge behind the others, where the edge has an input.
    fn push(
        &mut self,
        alloc: Global,
        declared: &Declared,
        how: Entries<'_>,
        edge: EdgeId,
    ) -> Result<(), AllocError> {
        let input = inputs_at(&declared.graph, edge).first().copied();
        let output = outputs_at(&declared.graph, edge).first().copied();
        let (Some(input), Some(output)) = (input, output) else {
            return Ok(());
        };
        let command = match declared.command(edge) {
            Some(command) => shown_command(alloc, command, how.expand)?,
            None => String::new(alloc),
        };
        let ends = Ends { input, output };
        self.push_entry(alloc, declared, ends, how.folder, command.as_str())
    }

    fn push_entry(
        &mut self,
        alloc: Global,
        declared: &Declared,
        ends: Ends,
        folder: &str,
        command: &str,
    ) -> Result<(), AllocError> {
        self.told
            .push_str(if self.is_empty { "\n  {" } else { ",\n  {" })?;
        self.is_empty = false;
        let file = text_at(&declared.graph, ends.input);
        let output = text_at(&declared.graph, ends.output);
        self.push_member(alloc, "\n    \"directory\": ", folder)?;
        self.push_member(alloc, ",\n    \"command\": ", command)?;
        self.push_member(alloc, ",\n    \"file\": ", file)?;
        self.push_member(alloc, ",\n    \"output\": ", output)?;
        self.told.push_str("\n  }")
    }

    /// Puts a text behind this front, as JSON has it.
    fn push_member(&mut self, alloc: Global, front: &str, text: &str) -> Result<(), AllocError> {
        let value = Value::try_from_str(alloc, text)?;
        self.told.push_str(front)?;
        self.told.push_str(value.to_string(alloc)?.as_str())
    }
}

/// The command, with the content of its response file in place of `@` and the name of it, where that is asked for and stands there. The
/// name may have `./` in front of it, as GN's.
fn shown_command(alloc: Global, command: &Command, expand: bool) -> Result<String, AllocError> {
    let line = command.act.command.to_text(alloc)?;
    let text = line.as_str();
    let path = command.act.response_path.as_str();
    if !expand || path.is_empty() {
        return String::from_str(alloc, text);
    }
    let dotted = format!(in alloc; "./{path}")?;
    let Some((before, behind)) = around(text, path).or(around(text, dotted.as_str())) else {
        return String::from_str(alloc, text);
    };
    let mut shown = String::from_str(alloc, before)?;
    let (front, rest) = command.act.response_content.parts();
    push_in_one_line(&mut shown, front)?;
    push_in_one_line(&mut shown, rest)?;
    shown.push_str(behind)?;
    Ok(shown)
}

/// What stands around `@` and a name, where the name is found first behind that.
fn around<'a>(text: &'a str, name: &str) -> Option<(&'a str, &'a str)> {
    let (before, behind) = text.split_once(name)?;
    Some((before.strip_suffix('@')?, behind))
}

/// Puts a text behind another, with spaces for its newlines.
fn push_in_one_line(shown: &mut String, text: &str) -> Result<(), AllocError> {
    for part in text.chars() {
        shown.push(if part == '\n' { ' ' } else { part })?;
    }
    Ok(())
}
