//! The table of the reasons.

ghost use Rattle.std.specs.Prelude.{◌≡◌, find};
ghost use Rattle.model.specs.Judgement.{all_reasons, is_later};
ghost use Rattle.judge.specs.ReasonTable.{IsReasonOf, IsStaleOf, holds_by};

use crate::input_facts::Inputs;
use crate::later::is_later;
use crate::output_facts::Outputs;
use model::{Act, Deps, Reason};

/// What the judgement of an edge reads.
#[derive(Drop)]
pub struct Facts<'a> {
    /// What the edge does now.
    pub act: &'a Act,
    /// Whether outputs that the command left alone count as unchanged.
    pub restat: bool,
    pub deps: Deps,
    /// Whether the depfile that the act names is there.
    pub depfile: bool,
    /// Of all outputs.
    pub outputs: Outputs,
    /// Of all paths of the reading set and all recorded inputs in use.
    pub inputs: Inputs,
}

/// The reasons in the order in which they are tried.
const REASONS: [Reason; 8] = [
    Reason::OutputAbsent,
    Reason::NoRecord,
    Reason::OtherAct,
    Reason::InputAbsent,
    Reason::InputChanged,
    Reason::InputLater,
    Reason::OutputOlder,
    Reason::DepsUnknown,
];

/// Why the command of an edge has to run: the first reason that holds, or `None` where none does and the edge is clean.
/// It takes no memory.
pub fn judge(facts: &Facts<'_>) -> Option<Reason>
    ensures reason { IsReasonOf facts.now result }
    ensures stale { IsStaleOf facts.now result }
{
    facts.first_reason()
}

impl<'a> Facts<'a> {
    fn first_reason(&self) -> Option<Reason>
        ensures { result ≡ find (λ reason. holds_by self.now reason) all_reasons }
    {
        REASONS
            .iter()
            .copied()
            .find(|reason| self.has_reason(*reason))
    }

    /// Whether a reason holds.
    fn has_reason(&self, reason: Reason) -> bool
        ensures { result ≡ holds_by self.now reason }
    {
        match reason {
            Reason::OutputAbsent => self.outputs.has_absent,
            Reason::NoRecord => self.outputs.has_unknown,
            Reason::OtherAct => self.outputs.has_other_act,
            Reason::InputAbsent => self.inputs.has_absent,
            Reason::InputChanged => self.inputs.has_changed,
            Reason::InputLater => self.has_later_input(self.outputs.earliest_start),
            Reason::OutputOlder => {
                !self.restat && self.has_later_input(self.outputs.earliest_stamp)
            }
            Reason::DepsUnknown => self.has_unknown_deps(),
        }
    }

    /// Whether an input is later than this.
    fn has_later_input(&self, than: Option<u64>) -> bool
        ensures { result ≡ is_later self.now.inputs.latest_stamp than }
    {
        is_later(self.inputs.latest_stamp, than)
    }

    /// Whether the command leaves a depfile, and not all is known of what it told.
    fn has_unknown_deps(&self) -> bool
        ensures { result ≡ holds_by self.now Reason.DepsUnknown }
    {
        let is_gone = self.deps == Deps::Unset && !self.depfile;
        !self.act.depfile.as_str().is_empty() && (is_gone || self.outputs.has_other_deps)
    }
}
