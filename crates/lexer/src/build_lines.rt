//! `build` and `default` lines (manual: "Build statements", "Default target statements").

ghost use Rattle.std.specs.Prelude.{◌≡◌, ◌++◌, ◌↔◌, [], IsTrue, IfOk, IfErr};
ghost use Rattle.lexer.specs.Places.{IsBehind, Breaks, Reaches};
ghost use Rattle.lexer.specs.Said.{build_of, paths_of};
ghost use Rattle.lexer.specs.Statements.{DefaultPaths, BuildPaths, Marked, Outputs, OfRule, Inputs, inputs_of};

use crate::cursor::Cursor;
use crate::paths::paths_at;
use crate::statement::{BuildLine, Value};
use crate::stop::Stop;
use crate::tokens::Mark;
use std::alloc::Global;
use text::Items;

/// Explicit outputs and implicit ones.
#[derive(Drop)]
struct OutputPaths<'a> {
    explicit: Items<Value<'a>>,
    implicit: Items<Value<'a>>,
}

/// Explicit, implicit and order-only inputs, and validations.
#[derive(Drop)]
struct InputPaths<'a> {
    explicit: Items<Value<'a>>,
    implicit: Items<Value<'a>>,
    order_only: Items<Value<'a>>,
    validations: Items<Value<'a>>,
}

/// What stands behind the word `default`, and the place of the next line.
#[tactic(auto, using(crate::proofs::Places::placing))]
pub fn default_at<'a>(
    alloc: Global,
    cursor: Cursor<'a>,
) -> Result<(Items<Value<'a>>, Cursor<'a>), Stop>
    ensures reads { IfOk result (λ found. Reaches DefaultPaths cursor.entry (paths_of found.0) found.1) }
    ensures behind { IfOk result (λ found. IsBehind cursor.entry found.1) }
    ensures fault { IfErr result (Breaks DefaultPaths cursor.entry) }
{
    cursor.end_word()?;
    let (paths, end) = paths_at(alloc, cursor)?;
    if paths.is_empty() {
        return Err(end.unexpected());
    }
    let next = end.end_line()?;
    Ok((paths, next))
}

/// What stands behind the word `build`, and the place of the next line.
#[tactic(auto, using(crate::proofs::Places::placing))]
pub fn build_at<'a>(alloc: Global, cursor: Cursor<'a>) -> Result<(BuildLine<'a>, Cursor<'a>), Stop>
    ensures reads { IfOk result (λ found. Reaches BuildPaths cursor.entry (build_of found.0) found.1) }
    ensures behind { IfOk result (λ found. IsBehind cursor.entry found.1) }
    ensures fault { IfErr result (Breaks BuildPaths cursor.entry) }
{
    cursor.end_word()?;
    let (outputs, colon) = outputs_at(alloc, cursor)?;
    let (rule, after) = rule_name_at(colon)?;
    let (inputs, end) = inputs_at(alloc, after)?;
    let next = end.end_line()?;
    let build = BuildLine {
        explicit_outputs: outputs.explicit,
        implicit_outputs: outputs.implicit,
        rule,
        explicit_inputs: inputs.explicit,
        implicit_inputs: inputs.implicit,
        order_only_inputs: inputs.order_only,
        validations: inputs.validations,
    };
    Ok((build, next))
}

/// The outputs, of which there must be one of either kind.
#[tactic(auto, using(crate::proofs::Places::placing))]
fn outputs_at<'a>(alloc: Global, cursor: Cursor<'a>) -> Result<(OutputPaths<'a>, Cursor<'a>), Stop>
    ensures reads { IfOk result (λ found. Reaches Outputs cursor.entry (paths_of found.0.explicit, paths_of found.0.implicit) found.1) }
    ensures behind { IfOk result (λ found. IsBehind cursor.entry found.1) }
    ensures fault { IfErr result (Breaks Outputs cursor.entry) }
{
    let (explicit, bar) = paths_at(alloc, cursor)?;
    let (implicit, colon) = marked_paths_at(alloc, bar, Mark::Bar)?;
    if are_none(&explicit, &implicit) {
        return Err(colon.unexpected());
    }
    Ok((OutputPaths { explicit, implicit }, colon))
}

/// Whether there are none of either kind.
fn are_none(explicit: &Items<Value<'_>>, implicit: &Items<Value<'_>>) -> bool
    ensures { IsTrue result ↔ (explicit.now ++ implicit.now ≡ []) }
{
    explicit.is_empty() && implicit.is_empty()
}

/// The colon and the rule's name.
#[tactic(auto, using(crate::proofs::Places::placing))]
fn rule_name_at<'a>(colon: Cursor<'a>) -> Result<(&'a str, Cursor<'a>), Stop>
    ensures reads { IfOk result (λ found. Reaches OfRule colon.entry found.0.now found.1) }
    ensures behind { IfOk result (λ found. IsBehind colon.entry found.1) }
    ensures fault { IfErr result (Breaks OfRule colon.entry) }
{
    let after = colon.skip_one(b':')?;
    let start = after.skip_blanks();
    let (rule, end) = start.split_name()?;
    end.end_word()?;
    Ok((rule, end))
}

/// The inputs and validations.
#[tactic(auto, using(crate::proofs::Places::placing))]
fn inputs_at<'a>(alloc: Global, cursor: Cursor<'a>) -> Result<(InputPaths<'a>, Cursor<'a>), Stop>
    ensures reads { IfOk result (λ found. Reaches Inputs cursor.entry (inputs_of found.0) found.1) }
    ensures behind { IfOk result (λ found. IsBehind cursor.entry found.1) }
    ensures fault { IfErr result (Breaks Inputs cursor.entry) }
{
    let (explicit, bar) = paths_at(alloc, cursor)?;
    let (implicit, double_bar) = marked_paths_at(alloc, bar, Mark::Bar)?;
    let (order_only, bar_at) = marked_paths_at(alloc, double_bar, Mark::DoubleBar)?;
    let (validations, end) = marked_paths_at(alloc, bar_at, Mark::BarAt)?;
    let inputs = InputPaths {
        explicit,
        implicit,
        order_only,
        validations,
    };
    Ok((inputs, end))
}

/// The paths behind this mark, or none where another or none stands here.
#[tactic(auto, using(crate::proofs::Places::placing))]
fn marked_paths_at<'a>(
    alloc: Global,
    cursor: Cursor<'a>,
    wanted: Mark,
) -> Result<(Items<Value<'a>>, Cursor<'a>), Stop>
    ensures reads { IfOk result (λ found. Reaches (Marked wanted) cursor.entry (paths_of found.0) found.1) }
    ensures behind { IfOk result (λ found. IsBehind cursor.entry found.1) }
    ensures fault { IfErr result (Breaks (Marked wanted) cursor.entry) }
{
    if let Some((mark, after)) = cursor.split_mark() {
        if wanted.is(mark) {
            let (paths, end) = paths_at(alloc, after)?;
            return Ok((paths, end));
        }
    }
    Ok((Items::new(alloc), cursor))
}
