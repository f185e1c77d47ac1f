//! The build graph, when all is read.

ghost use Rattle.std.specs.Prelude.{◌≡◌, ◌<◌, ◌≤◌, ◌^◌, ℕ, nat_lt, length, map, IfOk, OnOk};
ghost use Rattle.std.specs.List.{AllByRecursion};
ghost use Rattle.paths.specs.Commands.{dyndep_stop};
ghost use Rattle.model.specs.Graph.{has_number};
ghost use Rattle.paths.specs.Lists.{all_paths};
ghost use Rattle.paths.specs.Told.{text_at, texts_at, edges_of, graph_of};
ghost use Rattle.scopes.specs.Scopes.{Always};
ghost use Rattle.manifest.specs.Answer.{IsGraph, in_texts};
ghost use Rattle.manifest.specs.Declarations.{most_edges};
ghost use Rattle.manifest.specs.Expanding.{OfAll, AreMadeFor};
ghost use Rattle.manifest.specs.Graphs.{AtEnd, builddir_in};
ghost use Rattle.manifest.specs.Held.{IsFormed, IsInScope, pool_of};
ghost use Rattle.manifest.specs.InNumbers.{IsLonger, IsWithin};
ghost use Rattle.manifest.specs.Naming.{OfNamed, IsDefaultFound, AreDefaultsFound, default_paths};
ghost use Rattle.manifest.specs.Seen.{IsStated};
ghost use Rattle.manifest.specs.Statements.{IsAnswerIn};

use crate::fault::{FaultKind, ReadError};
use crate::fronts::Fronts;
use crate::kept::{Declared, Named, ReadDefault, ReadEdge};
use crate::place::Place;
use indexmap::IndexMap;
use model::Pool;
use paths::{Action, EdgeId, Lines, Manifest, PathId, Paths};
use scopes::{Scopes, marks_at, scope_marks};
use std::alloc::{AllocError, Global};
use text::{Items, Text};

impl Declared {
    /// The manifest. What is wrong with edges comes before what is wrong with defaults.
    pub fn finish(self, alloc: Global) -> Result<Manifest, ReadError>
        requires formed { IsFormed self }
        requires stated { IsStated self }
        ensures said { IsAnswerIn self AtEnd (in_texts result) }
        ensures graph { IfOk (in_texts result) IsGraph }
        ensures lines { IfOk result (λ manifest. manifest.lines ≡ self.paths.lines) }
    {
        let Declared {
            scopes,
            edges,
            pools,
            defaults,
            paths,
            room,
        } = self;
        drop(room);
        let Named {
            table: mut paths,
            lines,
        } = paths;
        let named = paths.len();
        let actions = expand_all(alloc, &scopes, &pools, &mut paths, &lines, edges)?;
        let defaults = default_numbers(alloc, &paths, named, defaults.as_slice())?;
        let pools = all_pools(alloc, &pools)?;
        let builddir = builddir(alloc, &scopes)?;
        Ok(manifest_of(paths, named, lines, actions, pools, defaults, builddir))
    }
}

/// The manifest of its parts.
fn manifest_of(
    paths: Paths,
    named: usize,
    lines: Lines,
    actions: Items<Action>,
    pools: Items<Pool>,
    defaults: Items<PathId>,
    builddir: Text,
) -> Manifest
    requires few { length lines ≤ 2 ^ 32 }
    requires fits { length actions ≡ length lines }
    requires names { named ≤ length paths }
    requires numbered { (p : ℕ) → has_number (all_paths lines) p ≡ nat_lt p named }
    requires known { AllByRecursion (λ number. number < named) defaults }
    requires dyndeps { AllByRecursion (λ action. dyndep_stop action ≤ length paths) actions }
    ensures lines { result.lines ≡ lines }
    ensures graph { graph_of result ≡ record { edges = edges_of paths lines actions; pools = pools; defaults = texts_at paths defaults; builddir = builddir } }
{
    Manifest {
        paths,
        named,
        lines,
        actions,
        pools,
        defaults,
        builddir,
    }
}

/// What the edges do, with their rules expanded in order.
fn expand_all(
    alloc: Global,
    scopes: &Scopes,
    pools: &IndexMap<String, u32>,
    table: &mut Paths,
    lines: &Lines,
    read: Vec<ReadEdge>,
) -> Result<Items<Action>, ReadError>
    requires scopes { AllByRecursion (IsInScope scopes.now) read.items }
    requires within { AllByRecursion (IsWithin table.old) lines.now }
    requires count { length read.items ≡ length lines.now }
    requires few { length lines.now ≤ most_edges }
    ensures edges { OfAll scopes.now pools.now.entries read.items (AreMadeFor table.old table.new lines.now result) }
    ensures grows { OnOk result (IsLonger table.old table.new) }
    ensures count { IfOk result (λ actions. length actions ≡ length lines.now) }
    ensures dyndeps { IfOk result (AllByRecursion (λ action. dyndep_stop action ≤ length table.new)) }
{
    let marks = scope_marks(alloc, scopes)?;
    let mut actions = Items::from_vec(Vec::with_capacity(alloc, read.len())?);
    let mut fronts = Fronts::new(alloc);
    let mut room = String::new(alloc);
    for edge in read {
        let place = EdgeId::at_below(actions.len());
        let of_scope = marks_at(scopes, marks.as_slice(), edge.scope);
        actions.push(edge.action(
            alloc,
            scopes,
            of_scope,
            pools,
            table,
            lines,
            place,
            &mut fronts,
            &mut room,
        )?)?;
    }
    Ok(actions)
}

/// The numbers of defaults, of which the first that no build line names is refused. The paths of build lines are the first
/// of the table, as many as `named`.
fn default_numbers(
    alloc: Global,
    table: &Paths,
    named: usize,
    defaults: &[ReadDefault],
) -> Result<Items<PathId>, ReadError>
    ensures said { OfNamed table.now named (AreDefaultsFound defaults.now result) }
    ensures texts { IfOk result (λ numbers. texts_at table.now numbers ≡ default_paths defaults.now) }
    ensures known { IfOk result (AllByRecursion (λ number. number < named)) }
{
    let mut numbers = Items::from_vec(Vec::with_capacity(alloc, defaults.len())?);
    for default in defaults {
        numbers.push(default_number(alloc, table, named, default)?)?;
    }
    Ok(numbers)
}

fn default_number(
    alloc: Global,
    table: &Paths,
    named: usize,
    default: &ReadDefault,
) -> Result<PathId, ReadError>
    ensures said { OfNamed table.now named (IsDefaultFound default.now result) }
    ensures text { IfOk result (λ number. text_at table.now number ≡ default.now.path) }
    ensures known { IfOk result (λ number. number < named) }
{
    if let Some(number) = table.number_of(default.path.as_str()) {
        if number.index() < named {
            return Ok(number);
        }
    }
    let kind = FaultKind::UnknownDefault(Text::from_str(alloc, default.path.as_str())?);
    let place = Place {
        file: &default.file,
        line: default.line,
    };
    Err(place.fault(alloc, kind))
}

/// The pools in the order of their statements.
fn all_pools(alloc: Global, kept: &IndexMap<String, u32>) -> Result<Items<Pool>, AllocError>
    ensures { IfOk result (λ pools. pools ≡ map pool_of kept.now.entries) }
{
    let mut pools = Items::new(alloc);
    for (name, depth) in kept.iter() {
        pools.push(Pool {
            name: Text::from_str(alloc, name.as_str())?,
            depth: *depth,
        })?;
    }
    Ok(pools)
}

/// The value of `builddir` in the outermost scope.
fn builddir(alloc: Global, scopes: &Scopes) -> Result<Text, AllocError>
    ensures { IfOk result (λ text. Always scopes.now (λ past. text ≡ builddir_in past)) }
{
    match scopes.lookup_in(0, "builddir") {
        Some(folder) => Text::from_str(alloc, folder),
        None => Ok(Text::new(alloc)),
    }
}
