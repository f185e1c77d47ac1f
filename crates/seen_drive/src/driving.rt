//! A list of moves, one after another.

ghost use Rattle.std.specs.Prelude.{◌≡◌, ◌≤◌, IfOk, OnErr, length, vec_capacity, []};
ghost use Rattle.model.specs.World.{IsIdle};
ghost use Rattle.drive.specs.Moves.{builds_among};
ghost use Rattle.seen_drive.specs.Visits.{StopsShort, WasDriven};

use crate::one_move::carry_out;
use builder::{Options, Report};
use drive::{count_builds, start_again};
use measure::Measured;
use model::Move;
use std::alloc::{AllocError, Global};

/// Carries out the moves, one after another, and answers the reports of the builds among them, as `drive::drive` does, but by builds that go by
/// what was seen. The site comes back.
///
/// After a build that reported a fault, or an edit in which the site stopped, the site is started again before the next
/// move, if there is one. An edit that the device refuses is passed over. The room for the reports is taken first; want of
/// memory is answered where there is none, with nothing done, or where an edit finds none, and then nothing more is done.
pub fn drive_seen<S: Measured + Drop>(
    alloc: Global,
    site: S,
    options: &Options,
    moves: &[Move],
) -> (Result<Vec<Report>, AllocError>, S)
    requires { IsIdle (S.world site).events }
    ensures driven { IfOk result.0 (λ reports. WasDriven S.tells options.now moves.now reports.items (S.world site) (S.world result.1)) }
    ensures cut { OnErr result.0 (StopsShort S.tells options.now moves.now (S.world site) (S.world result.1)) }
{
    match Vec::with_capacity(alloc, count_builds(moves)) {
        Ok(reports) => drive_all(alloc, site, options, moves, reports),
        Err(fault) => (Err(fault), site),
    }
}

/// The same, where there is room for all reports.
fn drive_all<S: Measured + Drop>(
    alloc: Global,
    site: S,
    options: &Options,
    moves: &[Move],
    reports: Vec<Report>,
) -> (Result<Vec<Report>, AllocError>, S)
    requires idle { IsIdle (S.world site).events }
    requires none { reports.items ≡ [] }
    requires room { builds_among moves.now ≤ vec_capacity reports }
    ensures driven { IfOk result.0 (λ reports. WasDriven S.tells options.now moves.now reports.items (S.world site) (S.world result.1)) }
    ensures cut { OnErr result.0 (StopsShort S.tells options.now moves.now (S.world site) (S.world result.1)) }
{
    let mut site = site;
    let mut reports = reports;
    let mut again = false;
    for step in moves {
        start_again(&mut site, again);
        let (carried, left) = carry_out(alloc, site, options, step, &mut reports);
        site = left;
        match carried {
            Ok(asks) => again = asks,
            Err(fault) => return (Err(fault), site),
        }
    }
    (Ok(reports), site)
}
