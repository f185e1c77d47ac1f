//! `-t targets`: outputs by depth, by rule, or all.

ghost use Rattle.std.specs.Prelude.{◌≡◌, ◌<◌, ◌+◌, ◌++◌, ◌∷◌, [], IfOk, None, OnOk, filter, flat_map, is_none, length, map, string_bytes};
ghost use Rattle.std.specs.Map.Iter.{deref};
ghost use Rattle.std.specs.Option.{option_map};
ghost use Rattle.paths.specs.Told.{texts_at};
ghost use Rattle.tools.specs.Answers.{AddsTexts, PrintsEach, PrintsOfRule, PrintsTargets, Tells, all_sources, all_targets, levels, lines, outputs_of_rule, sources_of, targets_of, tree};
ghost use Rattle.tools.specs.Showing.{IsGoneOn, Opens, Shows, indentation, path_line, unless_same, unrepeated};
ghost use Rattle.tools.specs.declared.listing.Wanted.TheVariants as wanted;

use crate::access::{inputs_at, outputs_at, text_at};
use crate::declared::Declared;
use crate::fault::{Fault, Near};
use crate::lines::push_line;
use crate::near::near_word;
use crate::unread::roots;
use graph::{ConeFault, Graph};
use paths::{EdgeId, PathId};
use std::alloc::{AllocError, Global};
use text::{Path, Text};

/// The modes of the tool.
const MODES: [&str; 3] = ["rule", "depth", "all"];

/// What the tool is to tell.
#[derive(Clone, Copy, Debug)]
pub enum Wanted<'a> {
    /// The outputs that no edge reads with what is above them, so many levels; 0 is all levels.
    Depth(usize),
    /// The outputs of the edges of a rule, by name.
    Rule(&'a str),
    /// The inputs that no edge makes.
    Sources,
    /// Each output with its rule.
    All,
}

/// What words of the tool want: `rule R`, `rule` for the sources, `all`, or `depth N`. Without words it is `depth 1`.
pub fn read_mode<'a>(alloc: Global, words: &[&'a str]) -> Result<Wanted<'a>, Fault> {
    match words {
        [] | ["depth"] => Ok(Wanted::Depth(1)),
        ["rule"] | ["rule", ""] => Ok(Wanted::Sources),
        ["rule", rule, ..] => Ok(Wanted::Rule(*rule)),
        ["depth", depth, ..] => Ok(Wanted::Depth(number(depth))),
        ["all", ..] => Ok(Wanted::All),
        [mode, ..] => {
            let near = match near_word(alloc, MODES.as_slice(), mode)? {
                Some(near) => Near::Path(Text::from_str(alloc, near)?),
                None => Near::Nothing,
            };
            Err(Fault::UnknownMode(Text::from_str(alloc, mode)?, near))
        }
    }
}

/// What `targets` prints.
pub fn targets(alloc: Global, declared: &Declared, wanted: Wanted<'_>) -> Result<String, Fault>
    ensures { IfOk result (λ told. PrintsTargets declared.now wanted.entry (string_bytes told)) }
{
    match wanted {
        Wanted::Depth(depth) => by_depth(alloc, declared, depth),
        Wanted::Rule(rule) => Ok(of_rule(alloc, declared, rule)?),
        Wanted::Sources => Ok(sources(alloc, declared)?),
        Wanted::All => Ok(all(alloc, declared)?),
    }
}

/// The number with which a text begins; 0 where it begins with none.
fn number(text: &str) -> usize {
    let mut number = 0usize;
    for byte in text.bytes() {
        if !byte.is_ascii_digit() {
            return number;
        }
        number = number
            .saturating_mul(10)
            .saturating_add((byte - b'0') as usize);
    }
    number
}

/// A line for each input that no edge makes, in reading order, as often as it is named.
fn sources(alloc: Global, declared: &Declared) -> Result<String, AllocError>
    ensures { IfOk result (λ told. string_bytes told ≡ lines (all_sources declared.now)) }
{
    let graph = &declared.graph;
    let mut told = String::new(alloc);
    for place in 0..graph.edges() {
        push_sources(graph, graph.inputs(graph.manifest.edge(place)), &mut told)?;
    }
    Ok(told)
}

fn push_sources(graph: &Graph, paths: &[PathId], told: &mut String) -> Result<(), AllocError>
    ensures { OnOk result (Tells told.old told.new (sources_of graph.now paths.now)) }
{
    for path in paths {
        push_source(graph, *path, told)?;
    }
    Ok(())
}

/// The line of a path, unless an edge makes it.
fn push_source(graph: &Graph, path: PathId, told: &mut String) -> Result<(), AllocError>
    ensures { OnOk result (Tells told.old told.new (sources_of graph.now (path ∷ []))) }
{
    match graph.maker(path) {
        Some(_) => Ok(()),
        None => push_line(told, &[text_at(graph, path)]),
    }
}

/// The outputs of the edges of a rule, by name, each once.
fn of_rule(alloc: Global, declared: &Declared, rule: &str) -> Result<String, AllocError>
    ensures { IfOk result (λ told. PrintsOfRule declared.now rule.now (string_bytes told)) }
{
    let mut paths = Vec::new(alloc);
    for place in 0..declared.graph.edges() {
        push_if_of_rule(
            declared,
            declared.graph.manifest.edge(place),
            rule,
            &mut paths,
        )?;
    }
    sorted_lines(alloc, paths)
}

/// Puts the outputs of an edge behind others, where that is its rule.
fn push_if_of_rule<'a>(
    declared: &'a Declared,
    edge: EdgeId,
    rule: &str,
    paths: &mut Vec<&'a str>,
) -> Result<(), AllocError>
    ensures { OnOk result (AddsTexts paths.old.items paths.new.items (outputs_of_rule declared.now rule.now edge)) }
{
    if declared.rule(edge) == rule {
        return push_texts(&declared.graph, outputs_at(&declared.graph, edge), paths);
    }
    Ok(())
}

fn push_texts<'a>(
    graph: &'a Graph,
    numbers: &[PathId],
    paths: &mut Vec<&'a str>,
) -> Result<(), AllocError>
    ensures { OnOk result (AddsTexts paths.old.items paths.new.items (texts_at graph.now.manifest.paths numbers.now)) }
{
    for number in numbers {
        paths.push(text_at(graph, *number))?;
    }
    Ok(())
}

/// A line for each of the texts, in the order of their bytes, each once.
pub fn sorted_lines(alloc: Global, texts: Vec<&str>) -> Result<String, AllocError>
    ensures { IfOk result (λ told. PrintsEach (map deref texts.entry.items) (string_bytes told)) }
{
    let mut texts = texts;
    texts.sort()?;
    unrepeated_lines(alloc, texts.as_slice())
}

/// A line for each of the texts, of equal ones that stand side by side one.
fn unrepeated_lines(alloc: Global, texts: &[&str]) -> Result<String, AllocError>
    ensures { IfOk result (λ told. string_bytes told ≡ lines (unrepeated None (map deref texts.now))) }
{
    let mut told = String::new(alloc);
    let mut last = None;
    for text in texts {
        push_unless_same(last, text, &mut told)?;
        last = Some(*text);
    }
    Ok(told)
}

/// The line of a text, unless it is the last one again.
fn push_unless_same(last: Option<&str>, text: &str, told: &mut String) -> Result<(), AllocError>
    ensures { OnOk result (Tells told.old told.new (unless_same (option_map deref last.entry) text.now)) }
{
    let Some(last) = last else {
        return push_line(told, &[text]);
    };
    if last == text {
        return Ok(());
    }
    push_line(told, &[text])
}

/// Each output with the name of its rule, in reading order.
fn all(alloc: Global, declared: &Declared) -> Result<String, AllocError>
    ensures { IfOk result (λ told. string_bytes told ≡ lines (all_targets declared.now)) }
{
    let mut told = String::new(alloc);
    for place in 0..declared.graph.edges() {
        push_outputs(declared, declared.graph.manifest.edge(place), &mut told)?;
    }
    Ok(told)
}

fn push_outputs(declared: &Declared, edge: EdgeId, told: &mut String) -> Result<(), AllocError>
    ensures { OnOk result (Tells told.old told.new (targets_of declared.now edge)) }
{
    for output in outputs_at(&declared.graph, edge) {
        let text = text_at(&declared.graph, *output);
        push_line(told, &[text, ": ", declared.rule(edge)])?;
    }
    Ok(())
}

/// The paths of a level that are still to be shown, from this place on: inputs of an edge, or the outputs that no edge reads.
#[derive(Clone, Copy)]
struct Level<'a> {
    paths: &'a [PathId],
    place: usize,
}

impl<'a> Level<'a> {
    /// The next path.
    fn next(self) -> Option<PathId>
        ensures { IsGoneOn self.entry result }
    {
        if self.place >= self.paths.len() {
            return None;
        }
        Some(self.paths[self.place])
    }

    /// What is left behind the next path. Where nothing is, that is nothing.
    fn behind(self) -> Level<'a>
        ensures paths { result.paths.now ≡ self.entry.paths.now }
        ensures place { self.entry.place < length self.entry.paths.now → result.place ≡ self.entry.place + 1 }
    {
        if self.place >= self.paths.len() {
            return self;
        }
        level_of(self.paths, self.place + 1)
    }
}

/// The paths of a level from this place on.
fn level_of<'a>(paths: &'a [PathId], place: usize) -> Level<'a>
    ensures paths { result.paths.now ≡ paths.now }
    ensures place { result.place ≡ place }
{
    Level { paths, place }
}

/// The outputs that no edge reads, each with what is above it to this depth.
fn by_depth(alloc: Global, declared: &Declared, depth: usize) -> Result<String, Fault>
    ensures { IfOk result (λ told. PrintsTargets declared.now (wanted.Depth depth) (string_bytes told)) }
{
    let roots = roots(alloc, &declared.graph)?;
    if roots.is_empty() && declared.graph.edges() > 0 {
        return Err(Fault::NoRoots);
    }
    let depth = deepest(alloc, declared, depth)?;
    Ok(show_all(alloc, declared, depth, roots.as_slice())?)
}

/// How deep lines are shown: to the depth that was asked for, or all where edges do not need each other in a circle.
fn deepest(alloc: Global, declared: &Declared, depth: usize) -> Result<usize, Fault>
    ensures { IfOk result (λ deepest. deepest ≡ levels declared.now depth) }
{
    if depth > 0 {
        return Ok(depth);
    }
    let all: &[Path] = &[];
    match declared.graph.cone(alloc, all) {
        Ok(_) => Ok(declared.graph.edges() + 1),
        Err(ConeFault::Memory) => Err(Fault::Memory),
        Err(_) => Err(Fault::NoRoots),
    }
}

/// These paths, each with what is above it, so many levels.
fn show_all(
    alloc: Global,
    declared: &Declared,
    depth: usize,
    paths: &[PathId],
) -> Result<String, AllocError>
    requires { 0 < depth }
    ensures { IfOk result (λ told. string_bytes told ≡ lines (flat_map (tree declared.now depth 0) paths.now)) }
{
    let mut told = String::new(alloc);
    let mut levels = Vec::new(alloc);
    levels.push(level_of(paths, 0))?;
    'levels: while let Some(level) = levels.pop() {
        show_next(declared, depth, level, &mut levels, &mut told)?;
    }
    Ok(told)
}

/// Shows the next path of a level, and opens the level above it.
fn show_next<'a>(
    declared: &'a Declared,
    depth: usize,
    level: Level<'a>,
    levels: &mut Vec<Level<'a>>,
    told: &mut String,
) -> Result<(), AllocError>
    requires { length levels.old.items < depth }
    ensures { OnOk result (Shows declared.now depth level.entry levels.old.items levels.new.items (string_bytes told.old) (string_bytes told.new)) }
{
    let Some(path) = level.next() else {
        return Ok(());
    };
    push_path(declared, path, levels.len(), told)?;
    levels.push(level.behind())?;
    open_above(declared, depth, path, levels)
}

/// Puts the line of a path.
fn push_path(
    declared: &Declared,
    path: PathId,
    level: usize,
    told: &mut String,
) -> Result<(), AllocError>
    ensures { OnOk result (Tells told.old told.new (path_line declared.now level path ∷ [])) }
{
    push_indent(told, level)?;
    let text = text_at(&declared.graph, path);
    match declared.graph.maker(path) {
        Some(edge) => push_line(told, &[text, ": ", declared.rule(edge)]),
        None => push_line(told, &[text]),
    }
}

fn push_indent(told: &mut String, level: usize) -> Result<(), AllocError>
    ensures { OnOk result (string_bytes told.new ≡ string_bytes told.old ++ indentation level) }
{
    for _ in 0..level {
        told.push_str("  ")?;
    }
    Ok(())
}

/// Opens the level above a path, where an edge makes it and lines are shown so deep.
fn open_above<'a>(
    declared: &'a Declared,
    depth: usize,
    path: PathId,
    levels: &mut Vec<Level<'a>>,
) -> Result<(), AllocError>
    ensures { OnOk result (Opens declared.now depth path levels.old.items levels.new.items) }
{
    if levels.len() >= depth {
        return Ok(());
    }
    let Some(edge) = declared.graph.maker(path) else {
        return Ok(());
    };
    levels.push(Level {
        paths: inputs_at(&declared.graph, edge),
        place: 0,
    })?;
    Ok(())
}
