//! Where a user works: a site in memory, on which builds follow one another.

ghost use Rattle.std.specs.Prelude.{◌≡◌};
ghost use Rattle.model.specs.World.{IsIdle};
ghost use Rattle.sim.specs.World.{world_of};

use crate::digest::Digest;
use builder::{Options, Report, build};
use model::{Act, Event};
use sim::{Order, Sim, Timing, Toy};
use site::Site;
use status::Pattern;
use std::alloc::{AllocError, Global};
use text::Text;

/// A site between two builds, and how much of what it tells has been taken into the digest.
#[derive(Drop)]
pub struct Desk {
    alloc: Global,
    site: Sim<Toy>,
    options: Options,
    events: usize,
    shown: usize,
}

impl Desk {
    /// A site without files, for builds of so many commands at once.
    pub fn new(alloc: Global, jobs: u32) -> Result<Desk, AllocError> {
        Ok(Desk {
            alloc,
            site: Sim::new(alloc, Toy),
            options: options(alloc, jobs)?,
            events: 0,
            shown: 0,
        })
    }

    /// Commands end the highest first, and write when they start.
    pub fn turn(&mut self) {
        self.site.order(Order::Last);
        self.site.timing(Timing::Early);
    }

    /// A user writes a file.
    pub fn put(&mut self, path: &str, content: &[u8]) -> Result<(), AllocError> {
        self.site.put(path, content)
    }

    /// Builds what is built by default, and takes in what came of it: the report, what was started, ended and shown, and both logs.
    pub fn build(&mut self, digest: &mut Digest) -> Result<(), AllocError> {
        let report = build_alone(self.alloc, &mut self.site, &self.options);
        add_report(self.alloc, &report, digest)?;
        self.add_events(digest)?;
        self.add_shown(digest);
        self.add_file(".nj_log", digest);
        self.add_file(".nj_deps", digest);
        Ok(())
    }

    /// Takes in what a file holds, or that there is none.
    pub fn add_file(&self, path: &str, digest: &mut Digest) {
        match self.site.content(path) {
            Some(content) => {
                digest.number(1);
                digest.bytes(content.as_slice());
            }
            None => digest.number(0),
        }
    }

    /// Takes in what was started and what ended since the last build.
    fn add_events(&mut self, digest: &mut Digest) -> Result<(), AllocError> {
        let events = self.site.events();
        digest.count(events.len());
        for event in events.get(self.events..).unwrap_or(&[]) {
            add_event(self.alloc, event, digest)?;
        }
        self.events = events.len();
        Ok(())
    }

    /// Takes in what was shown since the last build.
    fn add_shown(&mut self, digest: &mut Digest) {
        let shown = self.site.shown();
        digest.bytes(shown.get(self.shown..).unwrap_or(&[]));
        self.shown = shown.len();
    }
}

fn options(alloc: Global, jobs: u32) -> Result<Options, AllocError> {
    Ok(Options {
        file: Text::from_str(alloc, "build.ninja")?,
        jobs,
        keep: 1,
        verbose: false,
        pattern: Pattern::parse(alloc, Pattern::DEFAULT)?,
    })
}

fn build_alone(alloc: Global, site: &mut Sim<Toy>, options: &Options) -> Report {
    start_again(site);
    build(alloc, site, options, &[])
}

/// All commands have ended.
fn start_again(site: &mut Sim<Toy>)
    ensures { IsIdle (world_of site.new).events }
{
    site.restart();
}

/// Takes in all that a report says.
pub fn add_report(alloc: Global, report: &Report, digest: &mut Digest) -> Result<(), AllocError> {
    let told = format!(in alloc; "{report:?}")?;
    digest.text(told.as_str());
    Ok(())
}

fn add_event(alloc: Global, event: &Event, digest: &mut Digest) -> Result<(), AllocError> {
    match event {
        Event::Start { job, act, stamp } => {
            digest.number(1);
            digest.count(*job);
            digest.number(*stamp);
            add_act(alloc, act, digest)
        }
        Event::Finish { job, ok } => {
            digest.number(0);
            digest.count(*job);
            digest.number(u64::from(*ok));
            Ok(())
        }
    }
}

/// Takes in a command, and the files that go with it.
pub fn add_act(alloc: Global, act: &Act, digest: &mut Digest) -> Result<(), AllocError> {
    digest.text(act.command.to_text(alloc)?.as_str());
    digest.text(act.depfile.as_str());
    digest.text(act.response_path.as_str());
    digest.text(act.response_content.to_text(alloc)?.as_str());
    Ok(())
}
