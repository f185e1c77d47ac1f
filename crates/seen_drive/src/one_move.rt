//! One move.

ghost use Rattle.std.specs.Prelude.{◌≡◌, ◌∷◌, [], ◌++◌, ◌+◌, ◌≤◌, ◌<◌, Some, None, IfOk, OnErr, length, vec_capacity};
ghost use Rattle.model.specs.Driven.{IsCutEdit, IsCutNext};
ghost use Rattle.model.specs.World.{IsIdle};
ghost use Rattle.drive.specs.Driven.{IsUnrefused};
ghost use Rattle.drive.specs.Moves.{builds_among, IsEdited};
ghost use Rattle.seen_drive.specs.Moves.{IsCarried, IsReported};

use crate::one_build::build_next;
use builder::{Options, Report};
use drive::{delete, is_fault, push_reserved, write};
use measure::Measured;
use model::Move;
use std::alloc::{AllocError, Global};
use text::{Bytes, Items, Path, Text};

/// Carries out one move, puts what a build reports behind the reports, and answers whether the site is to be started again
/// before the next move. The site comes back.
pub fn carry_out<S: Measured + Drop>(
    alloc: Global,
    site: S,
    options: &Options,
    step: &Move,
    reports: &mut Vec<Report>,
) -> (Result<bool, AllocError>, S)
    requires idle { IsIdle (S.world site).events }
    requires room { length reports.old.items + builds_among (step.now ∷ []) ≤ vec_capacity reports.old }
    ensures carried { IfOk result.0 (λ again. IsCarried S.tells options.now step.now again reports.old.items reports.new.items (S.world site) (S.world result.1)) }
    ensures cut { OnErr result.0 (IsCutNext S.tells (step.now ∷ []) (S.world site) (S.world result.1)) }
    ensures unrefused { OnErr result.0 (IsUnrefused (S.world site) (S.world result.1)) }
    ensures grows { vec_capacity reports.old ≤ vec_capacity reports.new }
{
    match step {
        Move::Write { path, content } => write_next(site, path, content),
        Move::Delete { path } => delete_next(site, path),
        Move::Build { targets } => {
            let (again, site) = report_next(alloc, site, options, targets, reports);
            (Ok(again), site)
        }
    }
}

/// Writes the file, and answers whether the site stopped in that.
fn write_next<S: Measured + Drop>(
    mut site: S,
    path: &Path,
    content: &Bytes,
) -> (Result<bool, AllocError>, S)
    ensures edited { IfOk result.0 (λ again. IsEdited S.tells path.now (Some content.now) again (S.world site) (S.world result.1)) }
    ensures cut { OnErr result.0 (IsCutEdit S.tells path.now (Some content.now) (S.world site) (S.world result.1)) }
    ensures unrefused { OnErr result.0 (IsUnrefused (S.world site) (S.world result.1)) }
{
    let stopped = write(&mut site, path, content);
    (stopped, site)
}

/// Deletes the file, and answers whether the site stopped in that.
fn delete_next<S: Measured + Drop>(mut site: S, path: &Path) -> (Result<bool, AllocError>, S)
    ensures edited { IfOk result.0 (λ again. IsEdited S.tells path.now None again (S.world site) (S.world result.1)) }
    ensures cut { OnErr result.0 (IsCutEdit S.tells path.now None (S.world site) (S.world result.1)) }
    ensures unrefused { OnErr result.0 (IsUnrefused (S.world site) (S.world result.1)) }
{
    let stopped = delete(&mut site, path);
    (stopped, site)
}

/// Builds the targets, puts the report behind the reports, and answers whether it is a fault.
fn report_next<S: Measured + Drop>(
    alloc: Global,
    site: S,
    options: &Options,
    targets: &Items<Text>,
    reports: &mut Vec<Report>,
) -> (bool, S)
    requires idle { IsIdle (S.world site).events }
    requires room { length reports.old.items < vec_capacity reports.old }
    ensures reported { IsReported S.tells options.now targets.now result.0 reports.old.items reports.new.items (S.world site) (S.world result.1) }
    ensures grows { vec_capacity reports.old ≤ vec_capacity reports.new }
{
    let (report, site) = build_next(alloc, site, options, targets.as_slice());
    let again = is_fault(&report);
    push_reserved(reports, report);
    (again, site)
}
