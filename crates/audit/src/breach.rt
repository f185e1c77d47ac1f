//! What a command did that breaks a premise, path by path.

ghost use Rattle.std.specs.Prelude.{◌≡◌, ◌++◌, IfOk, OnOk, slice_get};
ghost use Rattle.audit.specs.Breaches.{all_at, breaches};
ghost use Rattle.audit.specs.Seen.{sums_in};

use crate::finding::{Finding, findings};
use crate::place::{Around, Lists, place_of};
use crate::seen::Uses;
use paths::PathId;
use std::alloc::{AllocError, Global};
use text::Items;

/// What breaks a premise, and in which place among the paths the one stands at which it does.
#[derive(Clone, Copy)]
pub struct Breach {
    pub place: usize,
    pub finding: Finding,
}

/// What the command of the edge with these lists did that breaks a premise, by what each of the paths is to the build: path by path, in
/// their order, and at each path in the order of the table. It takes a time of the order of the paths.
pub fn breaches(
    alloc: Global,
    lists: &Lists,
    arounds: &[Around],
    uses: &Uses,
) -> Result<Items<Breach>, AllocError>
    ensures { IfOk result (λ found. found ≡ breaches lists.now arounds.now (sums_in uses.now)) }
{
    let mut found = Items::new(alloc);
    for place in 0..arounds.len() {
        let Some(path) = uses.path(place) else {
            return Ok(found);
        };
        let Some(used) = uses.used(place) else {
            return Ok(found);
        };
        let Some(around) = around_at(arounds, place) else {
            return Ok(found);
        };
        let place_there = place_of(lists, around, path);
        let at = findings(alloc, place_there, used)?;
        push_all(&mut found, place, at.as_slice())?;
    }
    Ok(found)
}

/// What the path in this place is to the build.
fn around_at(arounds: &[Around], place: usize) -> Option<Around>
    ensures { result ≡ slice_get arounds.now place }
{
    arounds.get(place).copied()
}

/// Puts what is found at the path in this place behind the others.
fn push_all(found: &mut Items<Breach>, place: usize, findings: &[Finding]) -> Result<(), AllocError>
    ensures { OnOk result (found.new ≡ found.old ++ all_at place findings.now) }
{
    for finding in findings {
        found.push(Breach {
            place,
            finding: *finding,
        })?;
    }
    Ok(())
}
