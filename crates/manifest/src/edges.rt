//! Build statements, when all is read.

ghost use Rattle.std.specs.Prelude.{◌≡◌, ◌<◌, ◌≤◌, length, vec_len, map, IfOk, OnOk, IsTrue};
ghost use Rattle.std.specs.List.{AllByRecursion};
ghost use Rattle.std.specs.Map.Iter.{deref};
ghost use Rattle.lexer.specs.Quote.{quoted};
ghost use Rattle.paths.specs.Commands.{dyndep_stop};
ghost use Rattle.paths.specs.Lists.{line_at};
ghost use Rattle.paths.specs.Told.{texts_at};
ghost use Rattle.scopes.specs.Marks.{IsOfScope};
ghost use Rattle.manifest.specs.Expanding.{OfEach, OfEachUse, IsMadeFor, HasValues, Expands, AreQuoted};
ghost use Rattle.manifest.specs.Expanding.{IsPoolChecked, AreDepsChecked, IsShownOf};
ghost use Rattle.manifest.specs.Held.{IsBuildOf, IsUseRefused};
ghost use Rattle.manifest.specs.Places.{place_of};
ghost use Rattle.manifest.specs.InNumbers.{IsLonger, IsWithin};
ghost use Rattle.manifest.specs.States.{Build};

use crate::fault::{FaultKind, ReadError};
use crate::fronts::Fronts;
use crate::kept::ReadEdge;
use crate::made::command_of;
use crate::place::Place;
use crate::values::Values;
use indexmap::IndexMap;
use lexer::{is_bare_path, quote};
use paths::{Action, EdgeId, Lines, PathId, Paths as Table};
use scopes::{Marks, Paths, Rule, Scopes, Use, UseFault, values_are_unique};
use smallvec::SmallVec;
use std::alloc::{AllocError, Global};
use text::{Items, Path, Text};

/// The explicit inputs and outputs of a line, as texts of the table.
#[derive(Drop)]
pub struct Shown<'a> {
    pub inputs: SmallVec<&'a str, 8>,
    pub outputs: SmallVec<&'a str, 8>,
}

impl ReadEdge {
    /// What the edge of the statement does, with its rule expanded, by the marks of its scope. A dyndep file is put into the table.
    pub fn action(
        &self,
        alloc: Global,
        scopes: &Scopes,
        marks: Marks,
        pools: &IndexMap<String, u32>,
        table: &mut Table,
        lines: &Lines,
        edge: EdgeId,
        fronts: &mut Fronts,
        room: &mut String,
    ) -> Result<Action, ReadError>
        requires scope { self.now.scope < vec_len scopes.now.scopes }
        requires marks { IsOfScope scopes.now self.now.scope marks }
        requires edge { edge < length lines.now }
        requires within { IsWithin table.old (line_at lines.now edge) }
        ensures edge { OfEach scopes.now pools.now.entries self.now (IsMadeFor table.old table.new (line_at lines.now edge) result) }
        ensures grows { OnOk result (IsLonger table.old table.new) }
        ensures dyndep { IfOk result (λ action. dyndep_stop action ≤ length table.new) }
    {
        let Some(rule) = &self.rule else {
            return Ok(Action::Alias);
        };
        let values = {
            let shown = shown_of(alloc, table, lines, edge)?;
            let plain = Paths {
                inputs: shown.inputs.as_slice(),
                outputs: shown.outputs.as_slice(),
            };
            self.values(alloc, scopes, marks, pools, rule, plain, room)?
        };
        Ok(Action::Command(command_of(alloc, table, fronts, values)?))
    }

    /// The values of the rule's variables.
    fn values(
        &self,
        alloc: Global,
        scopes: &Scopes,
        marks: Marks,
        pools: &IndexMap<String, u32>,
        rule: &Rule,
        plain: Paths<'_>,
        room: &mut String,
    ) -> Result<Values, ReadError>
        requires scope { self.now.scope < vec_len scopes.now.scopes }
        requires marks { IsOfScope scopes.now self.now.scope marks }
        ensures { OfEach scopes.now pools.now.entries self.now (HasValues plain.entry rule.now result) }
    {
        let values = self.expand(alloc, scopes, marks, rule, plain, room)?;
        self.check_pool(alloc, pools, &values)?;
        self.check_deps(alloc, &values)?;
        Ok(values)
    }

    fn expand(
        &self,
        alloc: Global,
        scopes: &Scopes,
        marks: Marks,
        rule: &Rule,
        plain: Paths<'_>,
        room: &mut String,
    ) -> Result<Values, ReadError>
        requires scope { self.now.scope < vec_len scopes.now.scopes }
        requires marks { IsOfScope scopes.now self.now.scope marks }
        ensures { OfEachUse scopes.now self.now plain.entry (Expands rule.now result) }
    {
        // as nearly all
        if are_bare(plain.inputs) && are_bare(plain.outputs) {
            return self.expand_quoted(alloc, scopes, marks, rule, plain, plain, room);
        }
        let inputs = quote_all(alloc, plain.inputs)?;
        let outputs = quote_all(alloc, plain.outputs)?;
        let input_words = borrow_all(alloc, &inputs)?;
        let output_words = borrow_all(alloc, &outputs)?;
        let quoted = Paths {
            inputs: input_words.as_slice(),
            outputs: output_words.as_slice(),
        };
        self.expand_quoted(alloc, scopes, marks, rule, plain, quoted, room)
    }

    /// The same, with the paths as words of a command.
    fn expand_quoted(
        &self,
        alloc: Global,
        scopes: &Scopes,
        marks: Marks,
        rule: &Rule,
        plain: Paths<'_>,
        quoted: Paths<'_>,
        room: &mut String,
    ) -> Result<Values, ReadError>
        requires scope { self.now.scope < vec_len scopes.now.scopes }
        requires marks { IsOfScope scopes.now self.now.scope marks }
        ensures { OfEachUse scopes.now self.now plain.entry (AreQuoted quoted.entry rule.now result) }
    {
        let at = Use {
            scope: self.scope,
            block: &self.block,
            rule,
            plain,
            quoted,
        };
        values_are_unique();
        match Values::of(alloc, scopes, &at, marks, room) {
            Ok(values) => Ok(values),
            Err(fault) => self.refuse_use(alloc, fault),
        }
    }

    /// The refusal where the rule cannot be expanded.
    fn refuse_use(&self, alloc: Global, fault: UseFault) -> Result<Values, ReadError>
        ensures { (build : Build) → IsBuildOf self.now build → IsUseRefused build fault result }
    {
        match fault {
            UseFault::Memory => Err(ReadError::Memory),
            UseFault::TooLarge => Err(self.place().too_large(alloc)),
            UseFault::Circle => {
                let kind = FaultKind::Circle(self.rule_name.to_text(alloc)?);
                Err(self.place().fault(alloc, kind))
            }
        }
    }

    fn check_pool(
        &self,
        alloc: Global,
        pools: &IndexMap<String, u32>,
        values: &Values,
    ) -> Result<(), ReadError>
        ensures { IsPoolChecked pools.now.entries self.now values.now result }
    {
        let pool = values.pool.as_str();
        if pool.is_empty() || pool == "console" || pools.contains_key(pool) {
            return Ok(());
        }
        let kind = FaultKind::UnknownPool(Text::from_str(alloc, pool)?);
        Err(self.place().fault(alloc, kind))
    }

    /// Refuses what is neither nothing nor `gcc`, and `gcc` without a depfile.
    fn check_deps(&self, alloc: Global, values: &Values) -> Result<(), ReadError>
        ensures { AreDepsChecked self.now values.now result }
    {
        let deps = values.deps.as_str();
        if deps.is_empty() || deps == "gcc" && !values.depfile.is_empty() {
            return Ok(());
        }
        let kind = FaultKind::UnknownDeps(Text::from_str(alloc, deps)?);
        Err(self.place().fault(alloc, kind))
    }

    fn place(&self) -> Place<'_>
        ensures { (build : Build) → IsBuildOf self.now build → place_of result ≡ build.place }
    {
        Place {
            file: &self.file,
            line: self.line,
        }
    }
}

/// The paths of the line that a command shows.
pub(crate) fn shown_of<'a>(
    alloc: Global,
    table: &'a Table,
    lines: &Lines,
    edge: EdgeId,
) -> Result<Shown<'a>, AllocError>
    requires edge { edge < length lines.now }
    requires within { IsWithin table.now (line_at lines.now edge) }
    ensures { IfOk result (λ shown. IsShownOf table.now (line_at lines.now edge) shown) }
{
    let inputs = texts(alloc, table, lines.explicit_inputs(edge))?;
    let outputs = texts(alloc, table, lines.explicit_outputs(edge))?;
    Ok(Shown { inputs, outputs })
}

/// The texts of paths of the table.
fn texts<'a>(
    alloc: Global,
    table: &'a Table,
    numbers: &[PathId],
) -> Result<SmallVec<&'a str, 8>, AllocError>
    requires { AllByRecursion (λ n. n < length table.now) numbers.now }
    ensures { IfOk result (λ texts. map deref texts.items ≡ texts_at table.now numbers.now) }
{
    let mut texts = SmallVec::new(alloc);
    for number in numbers {
        texts.push(table.text(*number))?;
    }
    Ok(texts)
}

/// The paths, each quoted for a command.
fn quote_all(alloc: Global, paths: &[&str]) -> Result<Items<Path>, AllocError>
    ensures { IfOk result (λ words. words ≡ map quoted (map deref paths.now)) }
{
    let mut words = Items::from_vec(Vec::with_capacity(alloc, paths.len())?);
    for path in paths {
        words.push(Path::from_string(quote(alloc, path)?))?;
    }
    Ok(words)
}

/// The characters of each.
fn borrow_all<'a>(alloc: Global, words: &'a Items<Path>) -> Result<Vec<&'a str>, AllocError>
    ensures { IfOk result (λ texts. map deref texts.items ≡ words.now) }
{
    let mut texts = Vec::with_capacity(alloc, words.len())?;
    for word in words.as_slice() {
        texts.push(word.as_str())?;
    }
    Ok(texts)
}

/// Whether each path stands in a command as it is.
fn are_bare(paths: &[&str]) -> bool
    ensures { IsTrue result → map quoted (map deref paths.now) ≡ map deref paths.now }
{
    for path in paths {
        if !is_bare_path(path) {
            return false;
        }
    }
    true
}
