//! One build.

ghost use Rattle.std.specs.Prelude.{◌≡◌, false, IsTrue, List};
ghost use Rattle.model.specs.declared.event.Moment.{Moment};
ghost use Rattle.model.specs.World.{IsIdle};
ghost use Rattle.graph.specs.Told.{declared_by};
ghost use Rattle.manifest.specs.Answer.{IsGraph};
ghost use Rattle.builder.specs.Reports.{IsLinked};
ghost use Rattle.seen.specs.Begun.{BeginsTold};
ghost use Rattle.seen.specs.Entering.{EntersSince, IsUnbegun};
ghost use Rattle.seen.specs.Known.{known_of};
ghost use Rattle.seen_builds.specs.From.{begun_with, IsOver, IsSeenBuild};

use builder::{Asked, Options, Report, build_graph_read};
use graph::Graph;
use measure::Measured;
use seen::{Beginning, Entry, Seen, enter};
use std::alloc::Global;
use std::marker::Brand;

/// Builds what is asked for of a graph, by what was known when the build began, on a site that is told so; the site below comes back.
pub fn build_over<S: Measured + Drop, B: Beginning>(
    alloc: Global,
    site: S,
    entry: Entry,
    graph: Graph,
    asked: &Asked<'_>,
    options: &Options,
) -> (Report, S)
    requires idle { IsIdle (S.world site).events }
    requires running { (S.world site).stopped ≡ false }
    requires formed { IsGraph (declared_by graph) }
    requires linked { IsLinked graph }
    requires unbegun { IsUnbegun entry.counts }
    requires knows { IsTrue S.tells → B.begun.knows ≡ known_of entry.counts }
    requires enters { EntersSince S.tells entry B.begun.asked (S.world site) }
    requires first { IsTrue S.tells → (S.world site).history ≡ B.begun.first }
    requires begins { IsTrue S.tells → BeginsTold B.begun }
    ensures { IsOver S.tells B.begun (declared_by graph) asked.now (S.world site) (S.world result.1) result.0 }
{
    let mut seen: Seen<S, B> = Seen::over(alloc, site, entry);
    let report = build_graph_read(alloc, &mut seen, graph, asked, options);
    (report, seen.into_site())
}

/// The same, where what counts is told when it begins: of the past only what had happened when it was asked for.
pub fn build_from<S: Measured + Drop>(
    alloc: Global,
    site: S,
    entry: Entry,
    graph: Graph,
    asked: &Asked<'_>,
    options: &Options,
) -> (Report, S)
    ghost past: { List Moment }
    requires idle { IsIdle (S.world site).events }
    requires running { (S.world site).stopped ≡ false }
    requires formed { IsGraph (declared_by graph) }
    requires linked { IsLinked graph }
    requires unbegun { IsUnbegun entry.counts }
    requires enters { EntersSince S.tells entry past (S.world site) }
    ensures { IsOver S.tells (begun_with entry.counts past (S.world site)) (declared_by graph) asked.now (S.world site) (S.world result.1) result.0 }
{
    build_over::<S, Brand>(alloc, site, entry, graph, asked, options)
}

/// A build that reads first what was noted beside its build log, and begins by that.
pub fn build_seen<S: Measured + Drop>(
    alloc: Global,
    site: S,
    graph: Graph,
    asked: &Asked<'_>,
    options: &Options,
) -> (Report, S)
    requires idle { IsIdle (S.world site).events }
    requires running { (S.world site).stopped ≡ false }
    requires formed { IsGraph (declared_by graph) }
    requires linked { IsLinked graph }
    ensures { IsSeenBuild S.tells (declared_by graph) asked.now (S.world site) (S.world result.1) result.0 }
{
    build_behind(alloc, site, graph, asked, options)
}

/// The same, where this had happened when it is asked for.
fn build_behind<S: Measured + Drop>(
    alloc: Global,
    mut site: S,
    graph: Graph,
    asked: &Asked<'_>,
    options: &Options,
) -> (Report, S)
    ghost past: { List Moment }
    requires behind { (S.world site).history ≡ past }
    requires idle { IsIdle (S.world site).events }
    requires running { (S.world site).stopped ≡ false }
    requires formed { IsGraph (declared_by graph) }
    requires linked { IsLinked graph }
    ensures { IsSeenBuild S.tells (declared_by graph) asked.now (S.world site) (S.world result.1) result.0 }
{
    match enter(alloc, &mut site, &graph.manifest, asked.folder.as_str()) {
        Ok(entry) => build_from(alloc, site, entry, graph, asked, options),
        Err(fault) => (Report::Fault(fault), site),
    }
}
