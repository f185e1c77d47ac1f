//! What breaks a premise.

ghost use Rattle.std.specs.Prelude.{◌≡◌, ◌++◌, OnOk, IfOk, []};
ghost use Rattle.audit.specs.Findings.{counts, findings, found_read, found_removed, found_written, is_kept, is_listed, is_not_above, is_order_only, is_read_itself, is_scratch, is_stamped, is_strange, is_unreported, is_unwritten, looks, may_be_old, only_stamps_folder, spoils_known, spoils_made, spoils_stray, when};

use crate::place::Place;
use crate::used::Use;
use std::alloc::{AllocError, Global};
use text::Items;

/// What a command did at a path that breaks a premise.
#[derive(Clone, Copy)]
pub enum Finding {
    /// It reads a file that is neither an input nor in its depfile.
    Unreported,
    /// It reads an order-only input that is not in its depfile.
    OrderOnly,
    /// It reads an output that an earlier run of it left.
    Itself,
    /// It writes into an output that an earlier run of it left.
    Kept,
    /// It sets the stamp of an output that an earlier run of it left, and that is not empty.
    Stamped,
    /// It reads what another command makes that is not above it.
    NotAbove,
    /// It lists a folder.
    Listed,
    /// It writes what another command makes.
    WritesMade,
    /// It writes a source, or a path that is recorded.
    WritesKnown,
    /// It leaves a file of which nothing knows.
    WritesStray,
    /// It removes what another command makes.
    RemovesMade,
    /// It removes a source, or a path that is recorded.
    RemovesKnown,
    /// It removes a file of which nothing knows.
    RemovesStray,
    /// It did not write an output.
    Unwritten,
}

impl Finding {
    /// What was done: it stands in front of the path.
    pub fn verb(self) -> &'static str {
        match self {
            Finding::Unreported | Finding::OrderOnly | Finding::Itself | Finding::NotAbove =>
                "reads",
            Finding::Kept => "writes into",
            Finding::Stamped => "sets the stamp of",
            Finding::Listed => "lists",
            Finding::WritesMade | Finding::WritesKnown | Finding::WritesStray => "writes",
            Finding::RemovesMade | Finding::RemovesKnown | Finding::RemovesStray => "removes",
            Finding::Unwritten => "did not write",
        }
    }

    /// Why that breaks a premise: it stands behind the path.
    pub fn why(self) -> &'static str {
        match self {
            Finding::Unreported => ", which is neither an input nor in its depfile",
            Finding::OrderOnly => ", an order-only input that is not in its depfile",
            Finding::Itself => ", its own output, as an earlier run left it",
            Finding::Kept => ", its own output, without emptying it first",
            Finding::Stamped => ", its own output, and leaves what stands there",
            Finding::NotAbove => ", which a command makes that is not above it",
            Finding::Listed => "/, and a file made there later would not be seen",
            Finding::WritesMade | Finding::RemovesMade => ", which another command makes",
            Finding::WritesKnown | Finding::RemovesKnown => ", a source, or recorded as an output",
            Finding::WritesStray | Finding::RemovesStray =>
                ", which is neither its output nor scratch",
            Finding::Unwritten => ", which it declares as an output",
        }
    }

    /// Which premise is broken.
    pub fn premise(self) -> &'static str {
        match self {
            Finding::Unreported
            | Finding::OrderOnly
            | Finding::Itself
            | Finding::Kept
            | Finding::Stamped
            | Finding::Listed => "depends only on its inputs and on what it reports",
            Finding::NotAbove => "reports only what is made above it",
            Finding::WritesMade
            | Finding::WritesKnown
            | Finding::WritesStray
            | Finding::RemovesMade
            | Finding::RemovesKnown
            | Finding::RemovesStray => "writes only its outputs, its depfile and scratch files",
            Finding::Unwritten => "writes its outputs",
        }
    }
}

/// What a command did at a path that breaks a premise, by what the path is to it.
#[tactic(auto, unfolding(crate::specs::Findings::findings))]
pub fn findings(alloc: Global, place: Place, used: Use) -> Result<Items<Finding>, AllocError>
    ensures { IfOk result (λ found. found ≡ findings place used) }
{
    let mut found = Items::new(alloc);
    push_read(&mut found, place, used)?;
    push_written(&mut found, place, used)?;
    push_removed(&mut found, place, used)?;
    push_if(&mut found, is_unwritten(place, used), Finding::Unwritten)?;
    Ok(found)
}

/// Puts a finding behind the others, where this is so.
fn push_if(found: &mut Items<Finding>, is: bool, finding: Finding) -> Result<(), AllocError>
    ensures { OnOk result (found.new ≡ found.old ++ when is finding) }
{
    if is {
        found.push(finding)?;
    }
    Ok(())
}

/// What breaks a premise by being read.
#[tactic(auto, unfolding(crate::specs::Findings::found_read))]
fn push_read(found: &mut Items<Finding>, place: Place, used: Use) -> Result<(), AllocError>
    ensures { OnOk result (found.new ≡ found.old ++ found_read place used) }
{
    push_if(found, is_unreported(place, used), Finding::Unreported)?;
    push_if(found, is_order_only(place, used), Finding::OrderOnly)?;
    push_if(found, is_read_itself(place, used), Finding::Itself)?;
    push_if(found, is_kept(place, used), Finding::Kept)?;
    push_if(found, is_stamped(place, used), Finding::Stamped)?;
    push_if(found, is_not_above(place, used), Finding::NotAbove)?;
    push_if(found, is_listed(place, used), Finding::Listed)?;
    Ok(())
}

/// What breaks a premise by being written.
#[tactic(auto, unfolding(crate::specs::Findings::found_written))]
fn push_written(found: &mut Items<Finding>, place: Place, used: Use) -> Result<(), AllocError>
    ensures { OnOk result (found.new ≡ found.old ++ found_written place used) }
{
    push_if(
        found,
        used.writes && spoils_made(place),
        Finding::WritesMade,
    )?;
    push_if(
        found,
        used.writes && spoils_known(place),
        Finding::WritesKnown,
    )?;
    push_if(
        found,
        used.writes && spoils_stray(place) && !is_scratch(used) && !only_stamps_folder(used),
        Finding::WritesStray,
    )?;
    Ok(())
}

/// What breaks a premise by being removed.
#[tactic(auto, unfolding(crate::specs::Findings::found_removed))]
fn push_removed(found: &mut Items<Finding>, place: Place, used: Use) -> Result<(), AllocError>
    ensures { OnOk result (found.new ≡ found.old ++ found_removed place used) }
{
    push_if(
        found,
        used.removes && spoils_made(place),
        Finding::RemovesMade,
    )?;
    push_if(
        found,
        used.removes && spoils_known(place),
        Finding::RemovesKnown,
    )?;
    push_if(
        found,
        used.removes && spoils_stray(place),
        Finding::RemovesStray,
    )?;
    Ok(())
}

/// Whether the path counts: it is below the folder, or a build line names it, and it is no file of the program's own.
#[tactic(auto, unfolding(crate::specs::Findings::counts))]
fn counts(place: Place) -> bool
    ensures { result ≡ counts place }
{
    (place.around.inside || place.around.named) && !place.around.own
}

/// Whether a file was read or asked for; also one that it wrote into before, where an earlier run may have left it. Below a folder for scratch
/// files compilers write into files of names that they have made up, where none stood there.
#[tactic(auto, unfolding(crate::specs::Findings::looks))]
fn looks(place: Place, used: Use) -> bool
    ensures { result ≡ looks place used }
{
    (used.reads || (used.takes && may_be_old(place)) || used.asks) && !used.is_folder
}

/// Whether something of before the command may stand there, where it writes into it.
fn may_be_old(place: Place) -> bool
    ensures { result ≡ may_be_old place }
{
    !place.around.scratch || place.around.left
}

#[tactic(auto, unfolding(crate::specs::Findings::is_unreported))]
fn is_unreported(place: Place, used: Use) -> bool
    ensures { result ≡ is_unreported place used }
{
    counts(place)
        && looks(place, used)
        && !(place.input || place.reported)
        && !(place.output || place.side)
        && !place.order_only
}

#[tactic(auto, unfolding(crate::specs::Findings::is_order_only))]
fn is_order_only(place: Place, used: Use) -> bool
    ensures { result ≡ is_order_only place used }
{
    counts(place)
        && looks(place, used)
        && !(place.input || place.reported)
        && !(place.output || place.side)
        && place.order_only
}

fn is_read_itself(place: Place, used: Use) -> bool
    ensures { result ≡ is_read_itself place used }
{
    place.output && used.takes
}

/// Whether a part of what stood at an output may be left there.
fn is_kept(place: Place, used: Use) -> bool
    ensures { result ≡ is_kept place used }
{
    place.output && used.keeps && !used.takes
}

/// Whether what stood at an output is left there, under a stamp of now. Nothing more is told where that is known to be read or written.
fn is_stamped(place: Place, used: Use) -> bool
    ensures { result ≡ is_stamped place used }
{
    place.output && used.stamps && place.around.filled && !(used.takes || used.keeps)
}

/// Whether what it wrote it has removed, and nothing stood there before.
fn is_scratch(used: Use) -> bool
    ensures { result ≡ is_scratch used }
{
    used.gone && !used.removes
}

/// Whether it only set the stamp of a folder.
fn only_stamps_folder(used: Use) -> bool
    ensures { result ≡ only_stamps_folder used }
{
    used.is_folder && !(used.own || used.keeps)
}

/// Whether it is made by a command that is not above, and was read, or was not there yet.
#[tactic(auto, unfolding(crate::specs::Findings::is_not_above))]
fn is_not_above(place: Place, used: Use) -> bool
    ensures { result ≡ is_not_above place used }
{
    (looks(place, used) || used.misses) && place.around.made && !place.around.above
}

#[tactic(auto, unfolding(crate::specs::Findings::is_listed))]
fn is_listed(place: Place, used: Use) -> bool
    ensures { result ≡ is_listed place used }
{
    used.lists && counts(place) && !(place.input || place.reported)
}

/// Whether the path counts, and the command has no right to write there.
#[tactic(auto, unfolding(crate::specs::Findings::is_strange))]
fn is_strange(place: Place) -> bool
    ensures { result ≡ is_strange place }
{
    counts(place) && !(place.output || place.side)
}

#[tactic(auto, unfolding(crate::specs::Findings::spoils_made))]
fn spoils_made(place: Place) -> bool
    ensures { result ≡ spoils_made place }
{
    is_strange(place) && place.around.made
}

#[tactic(auto, unfolding(crate::specs::Findings::spoils_known))]
fn spoils_known(place: Place) -> bool
    ensures { result ≡ spoils_known place }
{
    is_strange(place) && !place.around.made && (place.around.named || place.around.recorded)
}

#[tactic(auto, unfolding(crate::specs::Findings::spoils_stray))]
fn spoils_stray(place: Place) -> bool
    ensures { result ≡ spoils_stray place }
{
    is_strange(place)
        && !place.around.made
        && !(place.around.named || place.around.recorded)
        && !place.around.scratch
}

#[tactic(auto, unfolding(crate::specs::Findings::is_unwritten))]
fn is_unwritten(place: Place, used: Use) -> bool
    ensures { result ≡ is_unwritten place used }
{
    place.output && (used.gone || !(place.restat || used.writes || used.made_folder))
}
