//! What is known of the outputs of an edge, by its records and by what was seen of them.

ghost use Rattle.std.specs.Prelude.{◌≡◌};
ghost use Rattle.judge.specs.Seen.{look_at};
ghost use Rattle.judge.specs.Facts.{IsDepsStart, seen_stamp};
ghost use Rattle.reasons.specs.Why.{IsFirstOutput, SumsOutputs, TakesSeen, output_tells};

use judge::{Look, Looks, OutputFacts, Outputs, Reason};
use model::Act;
use paths::PathId;
use records::Records;

/// What is kept of the facts of these outputs.
pub(crate) fn summary_of(looks: &Looks, records: &Records, act: &Act, outputs: &[PathId]) -> Outputs
    ensures { SumsOutputs records.now looks.now act.now outputs.now result }
{
    let mut summary = Outputs::new();
    for output in outputs {
        add_output(looks, records, act, *output, &mut summary);
    }
    summary
}

/// Takes in the output.
fn add_output(looks: &Looks, records: &Records, act: &Act, output: PathId, summary: &mut Outputs)
    ensures { TakesSeen records.now looks.now.seen.items act.now output summary.old summary.new }
{
    let facts = OutputFacts {
        stamp: seen_stamp(looks, output),
        made: records.made(output),
        deps_start: deps_start(records, output),
    };
    summary.add(act, &facts);
}

/// The first of these outputs of which the reason holds; none for a reason that is about what is read.
pub(crate) fn first_output(
    looks: &Looks,
    records: &Records,
    act: &Act,
    reason: Reason,
    outputs: &[PathId],
) -> Option<PathId>
    ensures { IsFirstOutput records.now looks.now act.now reason outputs.now result }
{
    for output in outputs {
        let mut alone = Outputs::new();
        add_output(looks, records, act, *output, &mut alone);
        if tells(alone, reason) {
            return Some(*output);
        }
    }
    None
}

/// Whether the reason holds of one of the outputs that were taken in.
fn tells(summary: Outputs, reason: Reason) -> bool
    ensures { result ≡ output_tells summary reason }
{
    match reason {
        Reason::OutputAbsent => summary.has_absent,
        Reason::NoRecord => summary.has_unknown,
        Reason::OtherAct => summary.has_other_act,
        Reason::DepsUnknown => summary.has_other_deps,
        Reason::InputAbsent => false,
        Reason::InputChanged => false,
        Reason::InputLater => false,
        Reason::OutputOlder => false,
    }
}

/// The stamp that was seen.
pub(crate) fn seen_stamp(looks: &Looks, path: PathId) -> Option<u64>
    ensures { result ≡ seen_stamp (look_at looks.now.seen.items path) }
{
    match looks.look(path) {
        Look::Unasked => None,
        Look::Absent => None,
        Look::Stamp(stamp) => Some(stamp),
    }
}

/// The start that the deps record of the path names.
fn deps_start(records: &Records, path: PathId) -> Option<u64>
    ensures { IsDepsStart records.now path result }
{
    Some(records.deps(path)?.start)
}
