//! A build in a folder in which others may build too.

ghost use Rattle.std.specs.Prelude.{◌≡◌, false, IfOk, IfErr};
ghost use Rattle.model.specs.Calls.{OnlyLooks};
ghost use Rattle.model.specs.World.{IsIdle};
ghost use Rattle.manifest.specs.Answer.{IsGraph};
ghost use Rattle.paths.specs.Told.{graph_of};
ghost use Rattle.builder.specs.Parts.{BuildsReading};
ghost use Rattle.nj_run.specs.Alone.{IsBuiltAlone, Passes, WasReadAlone, WasUnreadAlone};

use crate::named::names;
use crate::noted::Noted;
use builder::{
    Explained, Held, Options, Reading, Report, build_graph_holding, explain_read, link, read,
};
use depfile::has_reading;
use dyndep_law::has_reading as has_dyndeps;
use host::Host;
use log_text::has_format;
use measure::Measured;
use paths::Manifest;
use seen::{Beginning, Seen, looks_go_on};
use site::Site;
use std::alloc::Global;
use std::io::Write;
use text::Text;

/// So often it is read anew because somebody was waited for; then it is built whoever may be there.
const ROUNDS: u32 = u32::MAX;

/// A site in whose folder others may build too: other programs, and commands that run on after a build that was killed. No clause
/// says that it waits for them, since of other programs none tells anything: what one may rest on is that it does nothing else.
pub trait Alone: Site {
    /// Waits until no other build is in the working folder, and keeps others out from then on. To be called once, before anything is
    /// read.
    fn enter(&mut self)
        ensures { Passes Self.tells (Self.world self.old) (Self.world self.new) };

    /// Looks in this folder, that of the program's own files, for what a build left that was killed; an empty path is that of the
    /// working folder. Where a command of it runs still, it waits for that one, and answers that it waited: others may have been
    /// there meanwhile, so everything is to be read anew.
    fn has_waited(&mut self, folder: &str) -> bool
        ensures { Passes Self.tells (Self.world self.old) (Self.world self.new) };

    /// What these build files declare is about to be built. A site that shows which commands run takes their names from there: commands in
    /// place of descriptions where `verbose` asks for these.
    fn learn(&mut self, alloc: Global, manifest: &Manifest, verbose: bool)
        ensures { Self.world self.new ≡ Self.world self.old };
}

impl<'a, W: Write> Alone for Host<'a, W> {
    fn enter(&mut self) {
        self.enter_folder();
    }

    fn has_waited(&mut self, folder: &str) -> bool {
        self.waits_for_left(folder)
    }

    fn learn(&mut self, alloc: Global, manifest: &Manifest, verbose: bool) {
        if !self.is_drawn() {
            return;
        }
        if let Ok(names) = names(alloc, manifest, verbose) {
            self.take_names(names);
        }
    }
}

impl<S: Alone + Measured, B: Beginning> Alone for Seen<S, B> {
    fn enter(&mut self) {
        looks_go_on();
        let retold = &mut self.retold;
        retold.site.enter();
    }

    fn has_waited(&mut self, folder: &str) -> bool {
        looks_go_on();
        let retold = &mut self.retold;
        retold.site.has_waited(folder)
    }

    fn learn(&mut self, alloc: Global, manifest: &Manifest, verbose: bool) {
        self.know(manifest);
        let retold = &mut self.retold;
        retold.site.learn(alloc, manifest, verbose);
    }
}

/// Builds the targets once nobody else is at work in the folder, as [`builder::build`] does: what it reads is what is there by then, and
/// what may help whoever watches is noted of that. What it holds at its end comes with the report, if it came so far.
pub fn build_alone<S: Alone>(
    alloc: Global,
    site: &mut S,
    options: &Options,
    targets: &[Text],
    noted: &mut Noted<'_>,
) -> (Report, Option<Held>)
    requires { IsIdle (S.world site.old).events }
    ensures { IsBuiltAlone S.tells S.outcome options.now targets.now (S.world site.old) (S.world site.new) result.0 }
{
    has_format();
    has_reading();
    has_dyndeps();
    match read_alone(alloc, site, options, targets) {
        Ok(reading) => {
            noted.reads(options.file.as_str(), &reading);
            site.learn(alloc, &reading.manifest, options.verbose);
            build_leaving(alloc, site, reading, options)
        }
        Err(report) => (report, None),
    }
}

/// Builds what was read, as [`builder::build_read`] does, and hands out what that holds at its end, if it came so far.
fn build_leaving<S: Site>(
    alloc: Global,
    site: &mut S,
    reading: Reading<'_>,
    options: &Options,
) -> (Report, Option<Held>)
    requires idle { IsIdle (S.world site.old).events }
    requires running { (S.world site.old).stopped ≡ false }
    requires formed { IsGraph (graph_of reading.manifest) }
    ensures { BuildsReading S.tells reading.entry (S.world site.old) (S.world site.new) result.0 }
{
    let Reading { manifest, asked } = reading;
    match link(alloc, manifest, asked.folder.as_str()) {
        Ok(graph) => build_graph_holding(alloc, site, graph, &asked, options),
        Err(report) => (report, None),
    }
}

/// Why commands are due that [`build_alone`] would start, as [`builder::explain`] tells: once nobody else is at work in the folder. Nothing
/// is started or written.
pub fn explain_alone<S: Alone>(
    alloc: Global,
    site: &mut S,
    options: &Options,
    targets: &[Text],
) -> Result<Explained, Report>
    requires { IsIdle (S.world site.old).events }
    ensures { OnlyLooks S.tells (S.world site.old) (S.world site.new) }
{
    let reading = read_alone(alloc, site, options, targets)?;
    site.learn(alloc, &reading.manifest, options.verbose);
    explain_read(alloc, site, reading, options)
}

/// Reads the build files, anew each time that somebody was waited for.
fn read_alone<'a, S: Alone>(
    alloc: Global,
    site: &mut S,
    options: &Options,
    targets: &'a [Text],
) -> Result<Reading<'a>, Report>
    ensures read { IfOk result (WasReadAlone S.tells options.now targets.now (S.world site.old) (S.world site.new)) }
    ensures unread { IfErr result (WasUnreadAlone S.tells options.now.file (S.world site.old) (S.world site.new)) }
{
    site.enter();
    for _ in 0..ROUNDS {
        let reading = read(alloc, site, options, targets)?;
        if !site.has_waited(reading.asked.folder.as_str()) {
            return Ok(reading);
        }
    }
    read(alloc, site, options, targets)
}
