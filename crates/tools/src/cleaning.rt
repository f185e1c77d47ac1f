//! `-t clean`: what is removed.

ghost use Rattle.std.specs.Prelude.{◌≡◌, ◌≢◌, ◌↔◌, ◌<◌, ◌^◌, [], IfOk, IsTrue, OnOk, map};
ghost use Rattle.std.specs.Map.Iter.{deref};
ghost use Rattle.model.specs.Graph.{has};
ghost use Rattle.tools.specs.Clean.{AddsJust, AreCleaned, IsAnyRule, IsCleanedOutput, IsCleanedRule, IsCleanedTarget, IsFree, IsOtherAt, IsOwnFileOf, LacksJust};
ghost use Rattle.tools.specs.Clean.{IsPathOf, MayClean, MayCleanOfRule, MayCleanPath};
ghost use Rattle.tools.specs.Moves.{RemovesAmong, RemovesOf, RemovesOne};

use crate::access::{is_phony_at, outputs_at, path_at, text_at};
use crate::declared::Declared;
use crate::fault::Fault;
use crate::lines::push_line;
use crate::missing::outputs_above;
use paths::{EdgeId, PathId, Paths};
use site::Site;
use std::alloc::{AllocError, Global};
use text::Text;

/// What is to be removed.
#[derive(Clone, Copy, Debug)]
pub enum Cleaning<'a> {
    /// What all commands make.
    All,
    /// What is above these paths, and the paths themselves.
    Targets(&'a [PathId]),
    /// What the edges of these rules make.
    Rules(&'a [&'a str]),
}

/// What was removed.
#[derive(Drop)]
pub struct Cleaned {
    pub removed: usize,
    /// The paths that could not be removed.
    pub refused: Vec<Text>,
    /// A line for each path that was removed, where they are asked for.
    pub lines: Option<String>,
}

impl Cleaned {
    /// Nothing so far, with lines where they are asked for.
    pub fn new(alloc: Global, has_lines: bool) -> Cleaned {
        Cleaned {
            removed: 0,
            refused: Vec::new(alloc),
            lines: has_lines.then_some(String::new(alloc)),
        }
    }

    /// Puts a line of these parts behind the others, where they are asked for.
    pub fn tell(&mut self, parts: &[&str]) -> Result<(), AllocError> {
        match &mut self.lines {
            Some(lines) => push_line(lines, parts),
            None => Ok(()),
        }
    }
}

/// The paths that a cleaning removes, each once: of each command that is asked for the outputs, the depfile and the response file. What
/// edges of a generator make stays, unless it is asked for, and so does the file that was read. Aliases make nothing.
pub fn to_clean(
    alloc: Global,
    declared: &Declared,
    cleaning: Cleaning<'_>,
    generated: bool,
    file: &str,
) -> Result<Paths, Fault>
    ensures { IfOk result (λ paths. AreCleaned declared.now cleaning.entry generated file.now paths) }
{
    let mut paths = Paths::new(alloc);
    add_asked(alloc, declared, cleaning, generated, &mut paths)?;
    Ok(without(alloc, paths, file)?)
}

/// Adds what a cleaning asks for. An unknown rule is refused before anything is added.
fn add_asked(
    alloc: Global,
    declared: &Declared,
    cleaning: Cleaning<'_>,
    generated: bool,
    paths: &mut Paths,
) -> Result<(), Fault>
    ensures { OnOk result (AddsJust paths.old paths.new (IsCleanedOutput declared.now cleaning.entry generated)) }
{
    match cleaning {
        Cleaning::All => Ok(add_all(alloc, declared, generated, paths)?),
        Cleaning::Targets(targets) => {
            Ok(add_targets(alloc, declared, targets, generated, paths)?)
        }
        Cleaning::Rules(rules) => {
            check_rules(alloc, declared, rules)?;
            Ok(add_rules(alloc, declared, rules, generated, paths)?)
        }
    }
}

/// The same paths without this one.
fn without(alloc: Global, paths: Paths, file: &str) -> Result<Paths, AllocError>
    ensures { IfOk result (λ others. LacksJust paths others file.now) }
{
    match paths.number_of(file) {
        None => Ok(paths),
        Some(_) => all_others(alloc, &paths, file),
    }
}

/// The paths of another table without this one.
fn all_others(alloc: Global, paths: &Paths, file: &str) -> Result<Paths, AllocError>
    ensures { IfOk result (λ others. LacksJust paths.now others file.now) }
{
    let mut others = Paths::new(alloc);
    for place in 0..paths.len() {
        add_other(alloc, paths, place, file, &mut others)?;
    }
    Ok(others)
}

/// Adds the path at a place, unless it is this one.
fn add_other(
    alloc: Global,
    paths: &Paths,
    place: usize,
    file: &str,
    others: &mut Paths,
) -> Result<(), AllocError>
    requires { place < 2 ^ 32 }
    ensures { OnOk result (AddsJust others.old others.new (IsOtherAt paths.now file.now place)) }
{
    let Some(path) = path_at(paths, place) else {
        return Ok(());
    };
    if path == file {
        return Ok(());
    }
    others.add(alloc, path)?;
    Ok(())
}

/// Refuses the first of the rules that is none of the outermost scope.
fn check_rules(alloc: Global, declared: &Declared, rules: &[&str]) -> Result<(), Fault> {
    for rule in rules {
        if !is_rule(declared, rule) {
            return Err(Fault::UnknownRule(Text::from_str(alloc, rule)?));
        }
    }
    Ok(())
}

fn is_rule(declared: &Declared, name: &str) -> bool {
    for rule in declared.described.outermost.as_slice() {
        if rule.name.as_str() == name {
            return true;
        }
    }
    false
}

/// Adds what all edges make.
fn add_all(
    alloc: Global,
    declared: &Declared,
    generated: bool,
    paths: &mut Paths,
) -> Result<(), AllocError>
    ensures { OnOk result (AddsJust paths.old paths.new (IsAnyRule declared.now generated)) }
{
    for place in 0..declared.graph.edges() {
        add_edge(
            alloc,
            declared,
            declared.graph.manifest.edge(place),
            generated,
            paths,
        )?;
    }
    Ok(())
}

/// Adds what the edges of these rules make.
fn add_rules(
    alloc: Global,
    declared: &Declared,
    rules: &[&str],
    generated: bool,
    paths: &mut Paths,
) -> Result<(), AllocError>
    ensures { OnOk result (AddsJust paths.old paths.new (IsCleanedRule declared.now (map deref rules.now) generated)) }
{
    for place in 0..declared.graph.edges() {
        let edge = declared.graph.manifest.edge(place);
        add_if_asked(alloc, declared, rules, edge, generated, paths)?;
    }
    Ok(())
}

/// Adds what the edge makes, where its rule is one of these.
fn add_if_asked(
    alloc: Global,
    declared: &Declared,
    rules: &[&str],
    edge: EdgeId,
    generated: bool,
    paths: &mut Paths,
) -> Result<(), AllocError>
    ensures { OnOk result (AddsJust paths.old paths.new (MayCleanOfRule declared.now (map deref rules.now) generated edge)) }
{
    if !is_among(rules, declared.rule(edge)) {
        return Ok(());
    }
    add_edge(alloc, declared, edge, generated, paths)
}

/// Whether the text is one of these.
fn is_among(texts: &[&str], text: &str) -> bool
    ensures { result ≡ has (map deref texts.now) text.now }
{
    for one in texts {
        if *one == text {
            return true;
        }
    }
    false
}

/// Adds what the edge makes, and its depfile and response file, where that may be removed. No line is without outputs.
fn add_edge(
    alloc: Global,
    declared: &Declared,
    edge: EdgeId,
    generated: bool,
    paths: &mut Paths,
) -> Result<(), AllocError>
    ensures { OnOk result (AddsJust paths.old paths.new (MayClean declared.now generated edge)) }
{
    let outputs = outputs_at(&declared.graph, edge);
    if outputs.is_empty() {
        return Ok(());
    }
    if !may_clean(declared, edge, generated) {
        return Ok(());
    }
    add_outputs(alloc, declared, outputs, paths)?;
    add_own_files(alloc, declared, edge, paths)
}

/// Whether what the edge makes may be removed.
fn may_clean(declared: &Declared, edge: EdgeId, generated: bool) -> bool
    ensures { IsTrue result ↔ IsFree declared.now generated edge }
{
    !is_phony_at(&declared.graph, edge) && (generated || !declared.described.is_generator(edge))
}

/// Adds these paths and those above them, as far as commands make them.
fn add_targets(
    alloc: Global,
    declared: &Declared,
    targets: &[PathId],
    generated: bool,
    paths: &mut Paths,
) -> Result<(), AllocError>
    ensures { OnOk result (AddsJust paths.old paths.new (IsCleanedTarget declared.now targets.now generated)) }
{
    let outputs = outputs_above(alloc, &declared.graph, targets)?;
    for output in outputs.as_slice() {
        add_target(alloc, declared, *output, generated, paths)?;
    }
    Ok(())
}

/// Adds a path, and the depfile and response file of the edge that makes it, where a command does and that may be removed.
fn add_target(
    alloc: Global,
    declared: &Declared,
    output: PathId,
    generated: bool,
    paths: &mut Paths,
) -> Result<(), AllocError>
    ensures { OnOk result (AddsJust paths.old paths.new (MayCleanPath declared.now generated output)) }
{
    let Some(edge) = declared.graph.maker(output) else {
        return Ok(());
    };
    if !may_clean(declared, edge, generated) {
        return Ok(());
    }
    add_text(alloc, text_at(&declared.graph, output), paths)?;
    add_own_files(alloc, declared, edge, paths)
}

fn add_outputs(
    alloc: Global,
    declared: &Declared,
    outputs: &[PathId],
    paths: &mut Paths,
) -> Result<(), AllocError>
    ensures { OnOk result (AddsJust paths.old paths.new (λ text. IsPathOf declared.now outputs.now text)) }
{
    for output in outputs {
        add_text(alloc, text_at(&declared.graph, *output), paths)?;
    }
    Ok(())
}

/// Adds the depfile and the response file of an edge, where it has them.
fn add_own_files(
    alloc: Global,
    declared: &Declared,
    edge: EdgeId,
    paths: &mut Paths,
) -> Result<(), AllocError>
    ensures { OnOk result (AddsJust paths.old paths.new (IsOwnFileOf declared.now edge)) }
{
    let Some(command) = declared.command(edge) else {
        return Ok(());
    };
    add_text(alloc, command.act.depfile.as_str(), paths)?;
    add_text(alloc, command.act.response_path.as_str(), paths)
}

/// Adds a path, unless it is empty.
fn add_text(alloc: Global, path: &str, paths: &mut Paths) -> Result<(), AllocError>
    ensures { OnOk result (AddsJust paths.old paths.new (λ text. (text ≢ []) × (text ≡ path.now))) }
{
    if path.is_empty() {
        return Ok(());
    }
    paths.add(alloc, path)?;
    Ok(())
}

/// Removes the files at these paths that are there, or only counts them, and notes what was removed.
pub fn clean<S: Site>(
    alloc: Global,
    site: &mut S,
    paths: &Paths,
    only_count: bool,
    cleaned: &mut Cleaned,
) -> Result<(), Fault>
    ensures { RemovesOf S.tells only_count paths.now (S.world site.old) (S.world site.new) }
{
    for place in 0..paths.len() {
        remove_some(alloc, site, path_at(paths, place), only_count, cleaned)?;
    }
    Ok(())
}

/// The same of a path, if there is one.
fn remove_some<S: Site>(
    alloc: Global,
    site: &mut S,
    path: Option<&str>,
    only_count: bool,
    cleaned: &mut Cleaned,
) -> Result<(), Fault>
    ensures { RemovesAmong S.tells only_count path.entry (S.world site.old) (S.world site.new) }
{
    match path {
        Some(path) => remove_there(alloc, site, path, only_count, cleaned),
        None => Ok(()),
    }
}

/// Removes the file at the path, if it is there, or only counts it.
fn remove_there<S: Site>(
    alloc: Global,
    site: &mut S,
    path: &str,
    only_count: bool,
    cleaned: &mut Cleaned,
) -> Result<(), Fault>
    ensures { RemovesOne S.tells only_count path.now (S.world site.old) (S.world site.new) }
{
    if site.stat(path)?.is_none() {
        return Ok(());
    }
    if only_count {
        return Ok(count(path, cleaned)?);
    }
    match site.remove(path) {
        Ok(()) => Ok(count(path, cleaned)?),
        Err(_) => Ok(cleaned.refused.push(Text::from_str(alloc, path)?)?),
    }
}

/// Counts a file that is there.
fn count(path: &str, cleaned: &mut Cleaned) -> Result<(), AllocError> {
    cleaned.removed = cleaned.removed.saturating_add(1);
    cleaned.tell(&["Remove ", path])
}
