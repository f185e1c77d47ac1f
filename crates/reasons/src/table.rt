//! The first reason that holds, where due commands make anew what they make.

ghost use Rattle.std.specs.Prelude.{◌≡◌, ◌&&◌, ◌||◌, if◌then◌else◌, is_some};
ghost use Rattle.std.specs.Option.{option_or};
ghost use Rattle.reasons.specs.Why.{told_reason, is_behind};

use judge::Reason;
use paths::PathId;

/// The first reason of the table that holds: `found` is what holds by the files as they are, of which none was made anew, and `anew`
/// is what a due command makes of what is read. Where neither is so, that stands for it all the same: somebody wrote meanwhile.
pub(crate) fn told_reason(found: Option<Reason>, anew: Option<PathId>) -> Reason
    ensures { result ≡ told_reason found (is_some anew) }
{
    match found {
        None => Reason::InputChanged,
        Some(reason) => earlier(reason, anew.is_some()),
    }
}

/// Whether a command is sure, of which the judgement found this, and which reads this path that is made anew for sure.
pub(crate) fn is_sure(found: Option<Reason>, sure: Option<PathId>) -> bool
    ensures { result ≡ (is_some found || is_some sure) }
{
    found.is_some() || sure.is_some()
}

/// The first of two paths, if there is one, else the second.
pub(crate) fn first_found(made: Option<PathId>, read: Option<PathId>) -> Option<PathId>
    ensures { result ≡ option_or made read }
{
    match made {
        Some(path) => Some(path),
        None => read,
    }
}

/// This reason, or that what is read is made anew, where that is so and stands before it in the table.
fn earlier(reason: Reason, anew: bool) -> Reason
    ensures { result ≡ (if anew && is_behind reason then Reason.InputChanged else reason) }
{
    if anew && is_behind(reason) {
        Reason::InputChanged
    } else {
        reason
    }
}

/// Whether the reason stands behind that one in the table.
fn is_behind(reason: Reason) -> bool
    ensures { result ≡ is_behind reason }
{
    match reason {
        Reason::InputLater => true,
        Reason::OutputOlder => true,
        Reason::DepsUnknown => true,
        Reason::OutputAbsent => false,
        Reason::NoRecord => false,
        Reason::OtherAct => false,
        Reason::InputAbsent => false,
        Reason::InputChanged => false,
    }
}
