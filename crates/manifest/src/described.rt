//! What tools tell of build files beside the manifest: the names of rules, and which edges run a generator.

ghost use Rattle.std.specs.Prelude.{◌≡◌, ◌<◌, ◌≤◌, IfOk, length, map, slice_get, vec_len};
ghost use Rattle.std.specs.List.{AllByRecursion};
ghost use Rattle.std.specs.Map.Iter.{deref};
ghost use Rattle.paths.specs.Lists.{line_at};
ghost use Rattle.manifest.specs.Declarations.{most_edges};
ghost use Rattle.manifest.specs.Described.{manifest_in, mark_in, rule_in, AreNamesOf, DescribesLines, IsPlainUse, MarksEdge, MarksEdges, MarksRule};
ghost use Rattle.manifest.specs.Described.{LeavesNoMark};
ghost use Rattle.manifest.specs.Held.{IsFormed, IsInScope};
ghost use Rattle.manifest.specs.InNumbers.{IsWithin};
ghost use Rattle.manifest.specs.Seen.{IsStated};

use crate::edges::{Shown, shown_of};
use crate::fault::ReadError;
use crate::kept::{Declared, ReadEdge};
use indexmap::IndexMap;
use paths::{EdgeId, Manifest, PathId, Paths as Table};
use scopes::{Part, Paths, Rule, Scopes, Use, UseFault, expand_use};
use std::alloc::{AllocError, Global};
use std::rc::Rc;
use text::Text;

/// A rule of the outermost scope.
#[derive(Drop)]
pub struct RuleTold {
    pub name: Text,
    /// Its description as it stands in the rule, with names as `${name}`, where it has one.
    pub description: Option<Text>,
}

/// What is told of edges and rules beside the manifest.
#[derive(Drop)]
pub struct Described {
    /// The names of the rules of edges, each once, in a table of their own.
    pub names: Table,
    /// The number of the name of the rule of each edge.
    pub rules: Vec<PathId>,
    /// For each edge whether `generator` is set where it stands.
    pub generators: Vec<bool>,
    /// The rules of the outermost scope, by name; `phony` is among them.
    pub outermost: Vec<RuleTold>,
}

impl Described {
    /// What is told of these statements, beside the manifest.
    pub(crate) fn of(alloc: Global, declared: &Declared) -> Result<Described, AllocError>
        requires formed { IsFormed declared.now }
        requires stated { IsStated declared.now }
        ensures rules { IfOk result (λ described. AreNamesOf declared.now.edges.items described.names described.rules.items) }
        ensures generators { IfOk result (λ described. MarksEdges declared.now described.generators.items) }
        ensures fits { IfOk result (DescribesLines declared.now.paths.lines) }
    {
        let (names, rules) = rule_names(alloc, declared.edges.as_slice())?;
        let generators = generators(alloc, declared)?;
        let outermost = outermost(alloc, &declared.scopes)?;
        Ok(Described {
            names,
            rules,
            generators,
            outermost,
        })
    }

    /// The same beside what was read, where that is a manifest.
    pub(crate) fn beside(
        self,
        read: Result<Manifest, ReadError>,
    ) -> Result<(Manifest, Described), ReadError>
        ensures read { manifest_in result ≡ read }
        ensures beside { IfOk result (λ both. both.1 ≡ self) }
    {
        match read {
            Ok(manifest) => Ok((manifest, self)),
            Err(error) => Err(error),
        }
    }

    /// The name of the rule of the edge; it is empty for an edge that was not read.
    pub fn rule(&self, edge: EdgeId) -> &str
        ensures { result.now ≡ rule_in self.now edge }
    {
        match self.rule_number(edge) {
            Some(number) => self.names.get(number).unwrap_or(""),
            None => "",
        }
    }

    /// The number of the name of its rule; none for an edge that was not read.
    fn rule_number(&self, edge: EdgeId) -> Option<PathId>
        ensures { result ≡ slice_get self.now.rules.items edge }
    {
        self.rules.get(edge.index()).copied()
    }

    /// Whether the edge runs a generator.
    pub fn is_generator(&self, edge: EdgeId) -> bool
        ensures { result ≡ mark_in self.now edge }
    {
        self.generators.get(edge.index()).copied().unwrap_or(false)
    }
}

/// The names of the rules of edges, each once, and for each edge the number of its one.
fn rule_names(alloc: Global, edges: &[ReadEdge]) -> Result<(Table, Vec<PathId>), AllocError>
    ensures { IfOk result (λ found. AreNamesOf edges.now found.0 found.1.items) }
{
    let mut names = Table::new(alloc);
    let mut numbers = Vec::with_capacity(alloc, edges.len())?;
    for edge in edges {
        let name = edge.rule_name.to_text(alloc)?;
        let number = names.add(alloc, name.as_str())?;
        numbers.push(number)?;
    }
    Ok((names, numbers))
}

/// For each edge whether it runs a generator.
fn generators(alloc: Global, declared: &Declared) -> Result<Vec<bool>, AllocError>
    requires scopes { AllByRecursion (IsInScope declared.now.scopes) declared.now.edges.items }
    requires within { AllByRecursion (IsWithin declared.now.paths.table) declared.now.paths.lines }
    requires count { length declared.now.edges.items ≡ length declared.now.paths.lines }
    requires few { length declared.now.paths.lines ≤ most_edges }
    ensures { IfOk result (λ marks. MarksEdges declared.now marks.items) }
{
    let mut marks = Vec::with_capacity(alloc, declared.edges.len())?;
    let mut room = String::new(alloc);
    for edge in declared.edges.as_slice() {
        let place = EdgeId::at_below(marks.len());
        let mark = edge.is_generator(alloc, declared, place, &mut room)?;
        marks.push(mark)?;
    }
    Ok(marks)
}

impl ReadEdge {
    /// Whether `generator` is set where the edge stands (manual: "Rule variables"): in its block, else in its rule, else round it. An
    /// expansion that fails counts as not set. An alias has none. It is expanded for each edge, as the variables of commands are.
    fn is_generator(
        &self,
        alloc: Global,
        declared: &Declared,
        edge: EdgeId,
        room: &mut String,
    ) -> Result<bool, AllocError>
        requires scope { self.now.scope < vec_len declared.now.scopes.scopes }
        requires edge { edge < length declared.now.paths.lines }
        requires within { IsWithin declared.now.paths.table (line_at declared.now.paths.lines edge) }
        ensures { IfOk result (MarksEdge declared.now edge self.now) }
    {
        let Some(rule) = &self.rule else {
            return Ok(false);
        };
        let named = &declared.paths;
        let shown = shown_of(alloc, &named.table, &named.lines, edge)?;
        self.expands_generator(alloc, &declared.scopes, rule, &shown, room)
    }

    /// Whether `generator` expands to something where the rule is used with these paths.
    fn expands_generator(
        &self,
        alloc: Global,
        scopes: &Scopes,
        rule: &Rule,
        shown: &Shown<'_>,
        room: &mut String,
    ) -> Result<bool, AllocError>
        requires { self.now.scope < vec_len scopes.now.scopes }
        ensures { IfOk result (MarksRule scopes.now (map deref shown.now.inputs.items) (map deref shown.now.outputs.items) self.now rule.now) }
    {
        let plain = Paths {
            inputs: shown.inputs.as_slice(),
            outputs: shown.outputs.as_slice(),
        };
        let at = self.plain_use(rule, plain);
        match expand_use(alloc, scopes, &at, "generator", room) {
            Ok(value) => Ok(!value.is_empty()),
            Err(fault) => no_mark(fault),
        }
    }

    /// The use of the rule with these paths as they are: whether a value is empty does not depend on quotes.
    fn plain_use<'a>(&'a self, rule: &'a Rule, plain: Paths<'a>) -> Use<'a>
        ensures { IsPlainUse (map deref plain.entry.inputs.now) (map deref plain.entry.outputs.now) self.now rule.now result }
    {
        Use {
            scope: self.scope,
            block: &self.block,
            rule,
            plain,
            quoted: plain,
        }
    }
}

/// What cannot be expanded has no mark.
fn no_mark(fault: UseFault) -> Result<bool, AllocError>
    ensures { IfOk result (LeavesNoMark fault) }
{
    match fault {
        UseFault::Memory => Err(AllocError),
        UseFault::Circle => Ok(false),
        UseFault::TooLarge => Ok(false),
    }
}

/// The rules of the outermost scope, by name.
fn outermost(alloc: Global, scopes: &Scopes) -> Result<Vec<RuleTold>, AllocError> {
    let mut rules = Vec::new(alloc);
    rules.push(RuleTold {
        name: Text::from_str(alloc, "phony")?,
        description: None,
    })?;
    if let Some(scope) = scopes.scopes.first() {
        push_rules(alloc, &scope.rules, &mut rules)?;
    }
    in_order(alloc, rules)
}

fn push_rules(
    alloc: Global,
    declared: &IndexMap<String, Rc<Rule>>,
    rules: &mut Vec<RuleTold>,
) -> Result<(), AllocError> {
    for (name, rule) in declared.iter() {
        rules.push(RuleTold {
            name: Text::from_str(alloc, name.as_str())?,
            description: description(alloc, rule)?,
        })?;
    }
    Ok(())
}

/// The same rules, by name.
fn in_order(alloc: Global, rules: Vec<RuleTold>) -> Result<Vec<RuleTold>, AllocError> {
    let mut keyed = Vec::with_capacity(alloc, rules.len())?;
    for rule in rules {
        let RuleTold { name, description } = rule;
        keyed.push((name.into_string(), description))?;
    }
    keyed.sort_by(|one: &(String, Option<Text>), other: &(String, Option<Text>)| one
        .0
        .as_str()
        .cmp(other.0.as_str()))?;
    let mut sorted = Vec::with_capacity(alloc, keyed.len())?;
    for (name, description) in keyed {
        sorted.push(RuleTold {
            name: Text::from_string(name),
            description,
        })?;
    }
    Ok(sorted)
}

/// The description of a rule as it stands there, with names as `${name}`.
fn description(alloc: Global, rule: &Rule) -> Result<Option<Text>, AllocError> {
    let Some(template) = rule.get("description") else {
        return Ok(None);
    };
    let mut text = String::new(alloc);
    for part in template.parts.as_slice() {
        push_part(&mut text, part)?;
    }
    Ok(Some(Text::from_string(text)))
}

fn push_part(text: &mut String, part: &Part) -> Result<(), AllocError> {
    match part {
        Part::Text(plain) => text.push_str(plain.as_str()),
        Part::Name(name) => {
            text.push_str("${")?;
            text.push_str(name.as_str())?;
            text.push_str("}")
        }
    }
}
