//! One build by what was seen.

ghost use Rattle.std.specs.Prelude.{◌≡◌, false};
ghost use Rattle.model.specs.Premises.{HaveEnded};
ghost use Rattle.model.specs.World.{IsIdle};
ghost use Rattle.graph.specs.Told.{declared_by};
ghost use Rattle.manifest.specs.Answer.{IsGraph};
ghost use Rattle.paths.specs.Told.{graph_of};
ghost use Rattle.builder.specs.Reports.{IsLinked};
ghost use Rattle.drive.specs.Moves.{reports_fault};
ghost use Rattle.seen_builds.specs.From.{IsSeenBuild};
ghost use Rattle.seen_drive.specs.Visits.{IsNextBuild, IsReadBuild};

use builder::{Asked, Options, Reading, Report, link, read};
use drive::builds_end;
use graph::Graph;
use measure::Measured;
use seen_builds::build_seen;
use std::alloc::Global;
use text::Text;

/// Reads the build files, and builds the targets by what was seen. The site comes back; where no fault is reported, no command runs on it.
pub fn build_next<S: Measured + Drop>(
    alloc: Global,
    mut site: S,
    options: &Options,
    targets: &[Text],
) -> (Report, S)
    requires { IsIdle (S.world site).events }
    ensures built { IsNextBuild S.tells options.now targets.now (S.world site) (S.world result.1) result.0 }
    ensures ended { reports_fault result.0 ≡ false → HaveEnded (S.world result.1) }
{
    match read(alloc, &mut site, options, targets) {
        Ok(reading) => build_read(alloc, site, reading, options),
        Err(report) => (report, site),
    }
}

/// Builds what was read.
fn build_read<S: Measured + Drop>(
    alloc: Global,
    site: S,
    reading: Reading<'_>,
    options: &Options,
) -> (Report, S)
    requires idle { IsIdle (S.world site).events }
    requires running { (S.world site).stopped ≡ false }
    requires formed { IsGraph (graph_of reading.manifest) }
    ensures built { IsReadBuild S.tells reading.entry (S.world site) (S.world result.1) result.0 }
    ensures ended { reports_fault result.0 ≡ false → HaveEnded (S.world result.1) }
{
    let Reading { manifest, asked } = reading;
    match link(alloc, manifest, asked.folder.as_str()) {
        Ok(graph) => build_linked(alloc, site, graph, &asked, options),
        Err(report) => (report, site),
    }
}

/// Builds what was asked for of a graph.
fn build_linked<S: Measured + Drop>(
    alloc: Global,
    site: S,
    graph: Graph,
    asked: &Asked<'_>,
    options: &Options,
) -> (Report, S)
    requires idle { IsIdle (S.world site).events }
    requires running { (S.world site).stopped ≡ false }
    requires formed { IsGraph (declared_by graph) }
    requires linked { IsLinked graph }
    ensures built { IsSeenBuild S.tells (declared_by graph) asked.now (S.world site) (S.world result.1) result.0 }
    ensures ended { reports_fault result.0 ≡ false → HaveEnded (S.world result.1) }
{
    builds_end();
    build_seen(alloc, site, graph, asked, options)
}
