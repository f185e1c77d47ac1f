//! A site in memory on which somebody writes while commands run, and whose stamps are as coarse as they may be.

ghost use Rattle.std.specs.Prelude.{◌≡◌, false, OnOk};
ghost use Rattle.model.specs.Calls.{HasCause, KeepsWait, OnlyLooks};
ghost use Rattle.model.specs.World.{IsIdle};
ghost use Rattle.sim.specs.World.{world_of};
ghost use Rattle.meanwhile.specs.Files.{OnlyFiles};

use crate::clean_site::Clean;
use crate::clock::Clock;
use crate::made_up::Source;
use crate::random::Random;
use crate::rules::put_edges;
use crate::somebody::Somebody;
use crate::trouble::name_trouble;
use model::{Act, Event, Finished, SiteFault};
use sim::{Sim, Toy};
use site::{Site, Texts};
use std::alloc::{AllocError, Global};
use text::Bytes;

/// A file that tells the last stamp of the site in memory, each time it is written. No edge names it.
const MARK: &str = ".mark";

/// A site in memory on which somebody may write at the end of each call, so between a tick and the start behind it, and while commands
/// run, too. The stamps that it tells are those of a clock that is as coarse as a build has to bear. So to contracts it is a site that does not tell its
/// files.
#[derive(Drop)]
pub struct Busy<'a> {
    alloc: Global,
    site: Sim<Toy>,
    clock: Clock,
    somebody: Somebody<'a>,
    /// How many commands run.
    running: u64,
    /// What the last tick gave, and how many files were told to have that stamp.
    ticked: u64,
    equal: u64,
    /// Whether there was no memory for a write of its own.
    lost: bool,
}

impl<'a> Busy<'a> {
    /// A site on which nothing has happened, and nobody writes. How coarse its clock is: `Clock::new`.
    pub fn new(alloc: Global, source: Source<'a>, seed: u64, step: u64) -> Busy<'a> {
        Busy {
            alloc,
            site: Sim::new(alloc, Toy),
            clock: Clock::new(alloc, step),
            somebody: Somebody::new(alloc, source, seed),
            running: 0,
            ticked: 0,
            equal: 0,
            lost: false,
        }
    }

    /// The build file becomes that of this line of edges, and dyndep files say what stands there.
    pub fn put_graph(&mut self, graph: &'a str, edges: &str) -> Result<(), AllocError> {
        self.somebody.set_graph(graph);
        put_edges(self.alloc, &mut self.site, edges)?;
        self.somebody.bring_dyndeps(&mut self.site)
    }

    /// A source is written or deleted while nothing is built.
    pub fn edit(&mut self) -> Result<(), AllocError> {
        self.somebody.edit(&mut self.site)
    }

    /// Each source that is absent is written.
    pub fn bring_back(&mut self) -> Result<(), AllocError> {
        self.somebody.bring_back(&mut self.site)
    }

    /// Somebody deletes a file that a build made.
    pub fn erase(&mut self, path: &str) -> Result<(), AllocError> {
        self.site.erase(path)
    }

    /// From now on somebody writes in one of so many calls.
    pub fn come(&mut self, seldom: usize) {
        self.somebody.come(seldom);
    }

    /// Nobody writes any more, and nothing goes wrong.
    pub fn leave(&mut self) {
        self.somebody.leave();
        self.site.forget_faults();
    }

    /// How the site goes on, and what goes wrong in the next build.
    pub fn name_trouble(&mut self, random: &mut Random) -> Result<(), AllocError> {
        name_trouble(&mut self.site, random)
    }

    /// All commands have ended.
    pub fn start_again(&mut self)
        ensures { IsIdle (world_of self.new.site).events }
    {
        self.restart();
    }

    /// What a clean build of the files gives.
    pub fn clean_build(&mut self, source: Source<'a>) -> Result<Option<Clean>, AllocError> {
        Clean::of(self.alloc, &mut self.site, source)
    }

    /// Whether the site has at the path what the clean build leaves there.
    pub fn has(&self, clean: &Clean, path: &str) -> bool {
        clean.is_at(&self.site, path)
    }

    /// The sources that were written or deleted since somebody came last, each behind a space.
    pub fn edited(&self) -> &str {
        self.somebody.edited()
    }

    /// How many sources, and how often the scratch file, somebody wrote while a command ran.
    pub fn written(&self) -> (u64, u64) {
        (self.somebody.sources(), self.somebody.scratch())
    }

    /// How many files were told to have the stamp of the last tick.
    pub fn equal(&self) -> u64 {
        self.equal
    }

    /// That there was memory for all that is no part of a build.
    pub fn check(&self) -> Result<(), AllocError> {
        if self.lost || self.clock.lost() || self.somebody.lost() || self.site.lost() {
            return Err(AllocError);
        }
        Ok(())
    }

    /// A call has ended: somebody may write.
    fn pause(&mut self)
        ensures { OnlyFiles (world_of self.old.site) (world_of self.new.site) }
    {
        let running = self.running;
        self.somebody.may_write(&mut self.site, running);
    }

    /// The stamp of the last write on the site in memory, which is one of the mark.
    fn last(&mut self) -> Result<u64, SiteFault>
        ensures cause { HasCause (world_of self.old.site) (world_of self.new.site) result }
        ensures looks { OnlyLooks false (world_of self.old.site) (world_of self.new.site) }
        ensures files { OnOk result (OnlyFiles (world_of self.old.site) (world_of self.new.site)) }
        ensures went { OnOk result ((world_of self.old.site).stopped ≡ false) }
        ensures waits { KeepsWait (world_of self.old.site) (world_of self.new.site) }
    {
        self.site.stat(MARK)?;
        self.put_mark();
        let stamp = self.site.stat(MARK)?;
        Ok(stamp.unwrap_or(0))
    }

    fn put_mark(&mut self)
        ensures { OnlyFiles (world_of self.old.site) (world_of self.new.site) }
    {
        let put = mark(&mut self.site);
        self.lost = either(self.lost, put.is_err());
    }

    /// The site in memory is brought to the stamp that is told of what is written now.
    fn reach(&mut self) -> Result<(), SiteFault>
        ensures cause { HasCause (world_of self.old.site) (world_of self.new.site) result }
        ensures looks { OnlyLooks false (world_of self.old.site) (world_of self.new.site) }
        ensures files { OnOk result (OnlyFiles (world_of self.old.site) (world_of self.new.site)) }
        ensures went { OnOk result ((world_of self.old.site).stopped ≡ false) }
        ensures waits { KeepsWait (world_of self.old.site) (world_of self.new.site) }
    {
        let last = self.last()?;
        self.pass(last);
        Ok(())
    }

    /// So many writes come as are wanting behind the one of this stamp.
    fn pass(&mut self, last: u64)
        ensures { OnlyFiles (world_of self.old.site) (world_of self.new.site) }
    {
        let gap = self.clock.gap(last);
        let erased = erase_often(&mut self.site, gap);
        self.lost = either(self.lost, erased.is_err());
    }

    /// A file was told to have this stamp.
    fn note(&mut self, stamp: u64)
        ensures { self.new.site ≡ self.old.site }
    {
        if stamp == self.ticked {
            self.equal = self.equal.saturating_add(1);
        }
    }
}

fn either(one: bool, other: bool) -> bool {
    one || other
}

/// The mark is written.
fn mark(site: &mut Sim<Toy>) -> Result<(), AllocError>
    ensures { OnlyFiles (world_of site.old) (world_of site.new) }
{
    site.put(MARK, b"")?;
    Ok(())
}

/// So many writes come, of the mark.
fn erase_often(site: &mut Sim<Toy>, count: u64) -> Result<(), AllocError>
    ensures { OnlyFiles (world_of site.old) (world_of site.new) }
{
    for _ in 0..count {
        site.erase(MARK)?;
    }
    Ok(())
}

impl<'a> Texts for Busy<'a> {
    ghost tells = { false };

    ghost world = { λ busy. world_of busy.site };

    fn read(&mut self, path: &str) -> Result<Option<Bytes>, SiteFault> {
        let content = self.site.read(path)?;
        self.pause();
        Ok(content)
    }

    fn failures(&self) -> u64 {
        self.site.failures()
    }
}

impl<'a> Site for Busy<'a> {
    ghost use Rattle.sim.specs.Toy.{toy_outcome};

    ghost outcome = { toy_outcome };

    fn stat(&mut self, path: &str) -> Result<Option<u64>, SiteFault> {
        let Some(stamp) = self.site.stat(path)? else {
            self.pause();
            return Ok(None);
        };
        let told = self.clock.told(stamp);
        self.note(told);
        self.pause();
        Ok(Some(told))
    }

    fn tick(&mut self, path: &str) -> Result<u64, SiteFault> {
        self.reach()?;
        let stamp = self.site.tick(path)?;
        self.clock.ticked(stamp);
        self.ticked = stamp;
        self.pause();
        Ok(stamp)
    }

    fn append(&mut self, path: &str, bytes: &[u8]) -> Result<(), SiteFault> {
        self.site.append(path, bytes)?;
        self.pause();
        Ok(())
    }

    fn replace(&mut self, path: &str, content: &[u8]) -> Result<(), SiteFault> {
        self.site.replace(path, content)?;
        self.pause();
        Ok(())
    }

    fn write(&mut self, path: &str, content: &[u8]) -> Result<(), SiteFault> {
        self.site.write(path, content)?;
        self.pause();
        Ok(())
    }

    fn remove(&mut self, path: &str) -> Result<(), SiteFault> {
        self.site.remove(path)?;
        self.pause();
        Ok(())
    }

    fn make_dirs(&mut self, path: &str) -> Result<(), SiteFault> {
        self.site.make_dirs(path)?;
        self.pause();
        Ok(())
    }

    fn start(&mut self, job: usize, act: &Act, console: bool) -> Result<(), SiteFault> {
        let last = self.last()?;
        self.clock.starting(last);
        self.site.start(job, act, console)?;
        self.running = self.running.saturating_add(1);
        self.pause();
        Ok(())
    }

    fn wait_any(&mut self) -> Result<Finished, SiteFault> {
        match self.site.wait_any() {
            Ok(finished) => {
                self.running = self.running.saturating_sub(1);
                self.pause();
                Ok(finished)
            }
            Err(fault) => Err(fault),
        }
    }

    fn show(&mut self, text: &[u8]) -> Result<(), SiteFault> {
        self.site.show(text)?;
        self.pause();
        Ok(())
    }

    fn restart(&mut self) {
        self.site.restart();
        self.running = 0;
    }

    fn events(&self) -> &[Event] {
        self.site.events()
    }
}
