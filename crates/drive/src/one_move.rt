//! One move.

ghost use Rattle.std.specs.Prelude.{◌≡◌, ◌∷◌, [], ◌++◌, ◌+◌, ◌≤◌, ◌<◌, length, vec_capacity, OnErr};
ghost use Rattle.model.specs.Driven.{IsCutNext};
ghost use Rattle.model.specs.World.{IsIdle};
ghost use Rattle.drive.specs.Driven.{IsUnrefused};
ghost use Rattle.drive.specs.Moves.{reports_fault, builds_among, CarriesAt, ReportsAt};

use crate::edits::{delete, write};
use builder::{Options, Report, build};
use depfile::has_reading;
use dyndep_law::has_reading as has_dyndeps;
use log_text::has_format;
use model::Move;
use site::Site;
use std::alloc::{AllocError, Global};
use text::{Items, Text};

/// Carries out one move, puts what a build reports behind the reports, and answers whether the site is to be started again
/// before the next move.
pub fn carry_out<S: Site>(
    alloc: Global,
    site: &mut S,
    options: &Options,
    step: &Move,
    reports: &mut Vec<Report>,
) -> Result<bool, AllocError>
    requires idle { IsIdle (S.world site.old).events }
    requires room { length reports.old.items + builds_among (step.now ∷ []) ≤ vec_capacity reports.old }
    ensures carried { CarriesAt S.tells S.outcome S.world site.old site.new options.now step.now result reports.old.items reports.new.items }
    ensures cut { OnErr result (IsCutNext S.tells (step.now ∷ []) (S.world site.old) (S.world site.new)) }
    ensures unrefused { OnErr result (IsUnrefused (S.world site.old) (S.world site.new)) }
    ensures grows { vec_capacity reports.old ≤ vec_capacity reports.new }
{
    match step {
        Move::Write { path, content } => write(site, path, content),
        Move::Delete { path } => delete(site, path),
        Move::Build { targets } => {
            has_format();
            has_reading();
            has_dyndeps();
            Ok(build_next(alloc, site, options, targets, reports))
        }
    }
}

/// Builds the targets, puts the report behind the reports, and answers whether it is a fault.
fn build_next<S: Site>(
    alloc: Global,
    site: &mut S,
    options: &Options,
    targets: &Items<Text>,
    reports: &mut Vec<Report>,
) -> bool
    requires idle { IsIdle (S.world site.old).events }
    requires room { length reports.old.items < vec_capacity reports.old }
    ensures reported { ReportsAt S.tells S.outcome S.world site.old site.new options.now targets.now result reports.old.items reports.new.items }
    ensures grows { vec_capacity reports.old ≤ vec_capacity reports.new }
{
    let report = build(alloc, site, options, targets.as_slice());
    let again = is_fault(&report);
    push_reserved(reports, report);
    again
}

/// Whether the report is a fault.
pub fn is_fault(report: &Report) -> bool
    ensures { result ≡ reports_fault report.now }
{
    matches!(report, Report::Fault(_))
}

/// Adds a report to a list that has room.
pub fn push_reserved(reports: &mut Vec<Report>, report: Report)
    requires { length reports.old.items < vec_capacity reports.old }
    ensures items { reports.new.items ≡ reports.old.items ++ report ∷ [] }
    ensures grows { vec_capacity reports.old ≤ vec_capacity reports.new }
{
    match reports.push(report) {
        Ok(()) => {}
        Err(_) => unreachable!(),
    }
}
