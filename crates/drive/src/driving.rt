//! A list of moves, one after another.

ghost use Rattle.std.specs.Prelude.{◌≡◌, true, false, IfOk, OnErr, IsTrue};
ghost use Rattle.model.specs.Driven.{StartsAgain};
ghost use Rattle.model.specs.World.{IsIdle};
ghost use Rattle.drive.specs.Driven.{DrivesAt, StopsShortAt};
ghost use Rattle.drive.specs.Moves.{builds_among, is_build_move};

use crate::one_move::carry_out;
use builder::{Options, Report};
use model::Move;
use site::Site;
use std::alloc::{AllocError, Global};

/// Carries out the moves, one after another, and answers the reports of the builds among them.
///
/// After a build that reported a fault, or an edit in which the site stopped, the site is started again before the next
/// move, if there is one. An edit that the device refuses is passed over. The room for the reports is taken first; want of
/// memory is answered where there is none, with nothing done, or where an edit finds none, and then nothing more is done.
pub fn drive<S: Site>(
    alloc: Global,
    site: &mut S,
    options: &Options,
    moves: &[Move],
) -> Result<Vec<Report>, AllocError>
    requires { IsIdle (S.world site.old).events }
    ensures driven { IfOk result (λ reports. DrivesAt S.tells S.outcome S.world site.old site.new options.now moves.now reports.items) }
    ensures cut { OnErr result (StopsShortAt S.tells S.outcome S.world site.old site.new options.now moves.now) }
{
    let mut reports = Vec::with_capacity(alloc, count_builds(moves))?;
    let mut again = false;
    for step in moves {
        start_again(site, again);
        again = carry_out(alloc, site, options, step, &mut reports)?;
    }
    Ok(reports)
}

/// How many builds are among the moves.
pub fn count_builds(moves: &[Move]) -> usize
    ensures { result ≡ builds_among moves.now }
{
    let mut count = 0;
    for next in moves {
        if is_build(next) {
            count += 1;
        }
    }
    count
}

fn is_build(step: &Move) -> bool
    ensures { result ≡ is_build_move step.now }
{
    matches!(step, Move::Build { .. })
}

/// Starts the site again where that is asked for.
pub fn start_again<S: Site>(site: &mut S, asked: bool)
    ensures { StartsAgain S.tells asked (S.world site.old) (S.world site.new) }
{
    if asked {
        site.restart();
    }
}
