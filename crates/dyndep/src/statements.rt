//! Statements with their blocks.

ghost use Rattle.std.specs.Prelude.{◌≡◌, true, false, not, IfOk, IfErr, bytes_eq, codes};
ghost use Rattle.lexer.specs.Said.{form_of, build_of, fragments_of, paths_of};
ghost use Rattle.dyndep.specs.Dyndep.{AreAdditions, BindsRestat, IsAddition, is_dyndep, is_nothing, binds_restat, restat_of, text_of};
ghost use Rattle.dyndep.specs.Refused.{BindsAs, RefusedWhere, AddsOne, AddsNone, AddsNoneByLine, forms_in, is_of_block, block_length, IsSplit, AreNoAdditions};

use crate::addition::Addition;
use crate::fault::{DynFault, ReadError};
use crate::paths::{path_of, paths_of};
use crate::values::text_of;
use lexer::{BuildLine, Line, Statement, Value};
use std::alloc::Global;
use text::Items;

/// What the statements add.
pub fn additions_of<'lines, 'text>(
    alloc: Global,
    lines: &'lines [Line<'text>],
) -> Result<Items<Addition>, ReadError>
    ensures said { IfOk result (AreAdditions (forms_in lines.now)) }
    ensures fault { IfErr result (RefusedWhere (AreNoAdditions (forms_in lines.now))) }
{
    // each addition has a line at least
    let mut additions = Items::from_vec(Vec::with_capacity(alloc, lines.len())?);
    // all lines, borrowed anew, so that the loop can shorten what it has
    let (_, mut left) = lines.split_at(0);
    'statements: while let Some((first, rest)) = left.split_first() {
        let (block, behind) = split_block(rest);
        let addition = addition_of(alloc, &first.statement, block)?;
        additions.push(addition)?;
        left = behind;
    }
    Ok(additions)
}

/// The lines of a block that stand first, and those behind them.
fn split_block<'lines, 'text>(
    lines: &'lines [Line<'text>],
) -> (&'lines [Line<'text>], &'lines [Line<'text>])
    ensures { IsSplit (forms_in lines.now) (forms_in result.0.now) (forms_in result.1.now) }
{
    let count = block_length(lines);
    lines.split_at(count)
}

/// How many lines in front belong to a block.
fn block_length(lines: &[Line<'_>]) -> usize
    ensures { result ≡ block_length (forms_in lines.now) }
{
    for (count, line) in lines.iter().enumerate() {
        if !is_of_block(&line.statement) {
            return count;
        }
    }
    lines.len()
}

/// Whether it is a line of a block.
fn is_of_block(statement: &Statement<'_>) -> bool
    ensures { result ≡ is_of_block (form_of statement.now) }
{
    matches!(statement, Statement::BlockBinding { .. })
}

/// What a statement with its block adds.
fn addition_of(
    alloc: Global,
    statement: &Statement<'_>,
    block: &[Line<'_>],
) -> Result<Addition, ReadError>
    ensures adds { IfOk result (AddsOne (form_of statement.now) (forms_in block.now)) }
    ensures fault { IfErr result (RefusedWhere (AddsNone (form_of statement.now) (forms_in block.now))) }
{
    match statement {
        Statement::Build(line) => addition_of_line(alloc, line, block),
        _ => Err(ReadError::Fault(DynFault::BadStatement)),
    }
}

/// What a build line with its block adds.
fn addition_of_line(
    alloc: Global,
    line: &BuildLine<'_>,
    block: &[Line<'_>],
) -> Result<Addition, ReadError>
    ensures adds { IfOk result (IsAddition (build_of line.now) (forms_in block.now)) }
    ensures fault { IfErr result (RefusedWhere (AddsNoneByLine (build_of line.now) (forms_in block.now))) }
{
    if !is_dyndep(line) {
        return Err(ReadError::Fault(DynFault::BadStatement));
    }
    let [explicit] = line.explicit_outputs.as_slice() else {
        return Err(ReadError::Fault(DynFault::BadStatement));
    };
    let output = path_of(alloc, explicit)?;
    let outputs = paths_of(alloc, line.implicit_outputs.as_slice())?;
    let inputs = paths_of(alloc, line.implicit_inputs.as_slice())?;
    let restat = restat_of(alloc, block)?;
    Ok(Addition {
        output,
        outputs,
        inputs,
        restat,
    })
}

/// Whether the line is one of a dyndep file, apart from its outputs and implicit inputs.
fn is_dyndep(line: &BuildLine<'_>) -> bool
    ensures { result ≡ is_dyndep (build_of line.now) }
{
    line.rule == "dyndep"
        && is_none(&line.explicit_inputs)
        && is_none(&line.order_only_inputs)
        && is_none(&line.validations)
}

/// Whether there are no paths.
fn is_none(paths: &Items<Value<'_>>) -> bool
    ensures { result ≡ is_nothing (paths_of paths.now) }
{
    paths.is_empty()
}

/// The value of `restat` in a block. Another name does not fit.
fn restat_of(alloc: Global, block: &[Line<'_>]) -> Result<bool, ReadError>
    ensures restat { IfOk result (λ restat. BindsRestat (forms_in block.now) × (restat ≡ restat_of false (forms_in block.now))) }
    ensures fault { IfErr result (RefusedWhere (¬ (BindsRestat (forms_in block.now)))) }
{
    let mut restat = false;
    for line in block {
        restat = restat_at(alloc, &line.statement)?;
    }
    Ok(restat)
}

/// The value of `restat` that a line of a block binds.
fn restat_at(alloc: Global, statement: &Statement<'_>) -> Result<bool, ReadError>
    ensures restat { IfOk result (λ restat. BindsAs (form_of statement.now) restat) }
    ensures fault { IfErr result (RefusedWhere (binds_restat (form_of statement.now) ≡ false)) }
{
    match statement {
        Statement::BlockBinding { name, value } => restat_bound(alloc, name, value),
        _ => Err(ReadError::Fault(DynFault::BadStatement)),
    }
}

/// The value of `restat` that is bound by this name and value.
fn restat_bound(alloc: Global, name: &str, value: &Value<'_>) -> Result<bool, ReadError>
    ensures restat { IfOk result (λ restat. (bytes_eq name.now (codes "restat") ≡ true) × (restat ≡ not (is_nothing (text_of (fragments_of value.now))))) }
    ensures fault { IfErr result (RefusedWhere (bytes_eq name.now (codes "restat") ≡ false)) }
{
    if name != "restat" {
        return Err(ReadError::Fault(DynFault::BadStatement));
    }
    let text = text_of(alloc, value)?;
    Ok(is_something(text.as_str()))
}

fn is_something(text: &str) -> bool
    ensures { result ≡ not (is_nothing text.now) }
{
    !text.is_empty()
}
