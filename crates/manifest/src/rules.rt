//! Rules (manual: "Rules").

ghost use Rattle.std.specs.Prelude.{◌≡◌, [], OnOk, IfErr, codes, is_some};
ghost use Rattle.scopes.specs.Rule.{template_of};
ghost use Rattle.manifest.specs.Answer.{IsAnswerOf};
ghost use Rattle.manifest.specs.Blocks.{RuleBlock, is_rule_variable};
ghost use Rattle.manifest.specs.Held.{SaysRule, KeepsScopes};
ghost use Rattle.manifest.specs.Places.{place_of, IsFaultAt};
ghost use Rattle.manifest.specs.Statements.{SaysNext, KeepsFormed, RuleSays, RuleIn, KeepsRuleLine, IsRuleLineFault, lines_of};

use crate::blocks::block_line;
use crate::fault::{FaultKind, ReadError};
use crate::kept::Declared;
use crate::place::Place;
use lexer::{Fault, Line};
use scopes::{DeclareFault, Rule, Template};
use std::alloc::Global;
use text::Text;

impl Declared {
    /// Reads `rule NAME` with its block, behind which the text may stop.
    pub fn read_rule(
        &mut self,
        alloc: Global,
        place: &Place<'_>,
        name: &str,
        block: &[Line<'_>],
        behind: Option<Fault>,
    ) -> Result<(), ReadError>
        ensures said { SaysNext result self.old self.new (RuleSays place.now name.now block.now behind) }
        ensures scopes { OnOk result (KeepsScopes self.old self.new) }
        ensures formed { OnOk result (KeepsFormed self.old self.new) }
    {
        if self.scopes.is_taken(name) {
            return Err(repeated(alloc, place, name));
        }
        let rule = rule_of(alloc, place, name, block, behind)?;
        match self.scopes.declare_rule(alloc, name, rule) {
            Ok(()) => Ok(()),
            Err(DeclareFault::Memory) => Err(ReadError::Memory),
            Err(DeclareFault::Twice) => Err(repeated(alloc, place, name)),
        }
    }
}

/// The refusal of a name that the scope may not declare.
fn repeated(alloc: Global, place: &Place<'_>, name: &str) -> ReadError
    ensures { IsFaultAt (place_of place.now) (FaultKind.RepeatedRule name.now) result }
{
    match Text::from_str(alloc, name) {
        Ok(name) => place.fault(alloc, FaultKind::RepeatedRule(name)),
        Err(_) => ReadError::Memory,
    }
}

/// The rule of this block.
fn rule_of(
    alloc: Global,
    place: &Place<'_>,
    name: &str,
    block: &[Line<'_>],
    behind: Option<Fault>,
) -> Result<Rule, ReadError>
    ensures { IsAnswerOf (RuleIn place.now name.now block.now behind) result }
{
    let rule = read_block(alloc, place, block)?;
    place.stop_at(alloc, behind)?;
    if !binds(&rule, "command") {
        let kind = FaultKind::NoCommand(Text::from_str(alloc, name)?);
        return Err(place.fault(alloc, kind));
    }
    if binds(&rule, "rspfile") != binds(&rule, "rspfile_content") {
        let kind = FaultKind::UnpairedResponse(Text::from_str(alloc, name)?);
        return Err(place.fault(alloc, kind));
    }
    Ok(rule)
}

/// Whether the rule binds the variable.
fn binds(rule: &Rule, name: &str) -> bool
    ensures { result ≡ is_some (template_of rule.now name.now) }
{
    rule.get(name).is_some()
}

/// The texts that the block binds.
fn read_block(alloc: Global, place: &Place<'_>, block: &[Line<'_>]) -> Result<Rule, ReadError>
    ensures { SaysRule result (RuleBlock place.now.file.now.value (lines_of block.now) []) }
{
    let mut rule = Rule::new(alloc);
    for line in block {
        read_line(alloc, place, &mut rule, line)?;
    }
    Ok(rule)
}

/// Reads one line of the block. Of two for one name the last counts.
fn read_line(
    alloc: Global,
    place: &Place<'_>,
    rule: &mut Rule,
    line: &Line<'_>,
) -> Result<(), ReadError>
    ensures ok { OnOk result (KeepsRuleLine place.now line.now rule.old rule.new) }
    ensures err { IfErr result (λ error. IsRuleLineFault place.now line.now error) }
{
    let Some(line) = block_line(line) else {
        return Ok(());
    };
    if !is_rule_variable(line.name) {
        let kind = FaultKind::UnexpectedVariable(Text::from_str(alloc, line.name)?);
        return Err(place.at_line(line.line).fault(alloc, kind));
    }
    let template = Template::new(alloc, line.value)?;
    rule.bind(alloc, line.name, template)?;
    Ok(())
}

/// Whether the block of a rule may bind the name (manual: "Rule variables").
fn is_rule_variable(name: &str) -> bool
    ensures { result ≡ is_rule_variable name.now }
{
    matches!(
        name,
        "command"
            | "depfile"
            | "deps"
            | "dyndep"
            | "description"
            | "generator"
            | "pool"
            | "restat"
            | "rspfile"
            | "rspfile_content"
            | "msvc_deps_prefix"
    )
}
