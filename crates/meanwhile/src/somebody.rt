//! Somebody who writes while commands run.

ghost use Rattle.sim.specs.World.{world_of};
ghost use Rattle.meanwhile.specs.Files.{OnlyFiles};

use crate::edits::{next_text, set};
use crate::made_up::{Source, dyndep_in};
use crate::random::Random;
use sim::{Sim, Toy};
use std::alloc::{AllocError, Global};

/// The file that commands write beside their outputs, and somebody else does: no edge names it.
const SCRATCH: &str = "tmp";

/// Somebody who writes now and then.
#[derive(Drop)]
pub struct Somebody<'a> {
    alloc: Global,
    source: Source<'a>,
    random: Random,
    /// The line of the build file that stands now.
    graph: &'a str,
    /// Somebody writes in one of so many calls, and never where it is 0.
    seldom: usize,
    /// The sources that were written or deleted since somebody came, each behind a space.
    edited: String,
    /// How many sources and scratch files were written while a command ran.
    sources: u64,
    scratch: u64,
    /// Whether there was no memory for a write.
    lost: bool,
}

impl<'a> Somebody<'a> {
    pub fn new(alloc: Global, source: Source<'a>, seed: u64) -> Somebody<'a> {
        Somebody {
            alloc,
            source,
            random: Random::new(seed),
            graph: "",
            seldom: 0,
            edited: String::new(alloc),
            sources: 0,
            scratch: 0,
            lost: false,
        }
    }

    /// From now on the build file is that of this line.
    pub fn set_graph(&mut self, graph: &'a str) {
        self.graph = graph;
    }

    /// Somebody comes, and writes in one of so many calls.
    pub fn come(&mut self, seldom: usize) {
        self.edited.clear();
        self.seldom = seldom;
    }

    /// Nobody writes any more.
    pub fn leave(&mut self) {
        self.seldom = 0;
    }

    /// The sources that were written or deleted since somebody came last, each behind a space.
    pub fn edited(&self) -> &str {
        self.edited.as_str()
    }

    /// How many sources were written or deleted while a command ran.
    pub fn sources(&self) -> u64 {
        self.sources
    }

    /// How often the scratch file was written by somebody while a command ran.
    pub fn scratch(&self) -> u64 {
        self.scratch
    }

    /// Whether there was no memory for a write.
    pub fn lost(&self) -> bool {
        self.lost
    }

    /// A call of the site has ended, and so many commands run: somebody may write.
    pub fn may_write(&mut self, site: &mut Sim<Toy>, running: u64)
        ensures { OnlyFiles (world_of site.old) (world_of site.new) }
    {
        if self.seldom == 0 || !self.random.one_in(self.seldom) {
            return;
        }
        if self.write(site, running).is_err() {
            self.lost = true;
        }
    }

    fn write(&mut self, site: &mut Sim<Toy>, running: u64) -> Result<(), AllocError>
        ensures { OnlyFiles (world_of site.old) (world_of site.new) }
    {
        if self.random.one_in(4) {
            count(running, &mut self.scratch);
            self.scribble(site)?;
            return Ok(());
        }
        count(running, &mut self.sources);
        self.edit(site)?;
        Ok(())
    }

    /// Somebody writes the scratch file.
    fn scribble(&mut self, site: &mut Sim<Toy>) -> Result<(), AllocError>
        ensures { OnlyFiles (world_of site.old) (world_of site.new) }
    {
        let text = format!(in self.alloc; "{}", self.random.below(1000))?;
        site.put(SCRATCH, text.as_bytes())?;
        Ok(())
    }

    /// Somebody writes or deletes a source.
    pub fn edit(&mut self, site: &mut Sim<Toy>) -> Result<(), AllocError>
        ensures { OnlyFiles (world_of site.old) (world_of site.new) }
    {
        let path = self.random.part(self.source.sources, ' ');
        self.edited.push(' ')?;
        self.edited.push_str(path)?;
        let text = next_text(self.alloc, self.source, self.graph, &mut self.random, path)?;
        set(site, path, &text)?;
        Ok(())
    }

    /// Each source that is absent is written.
    pub fn bring_back(&self, site: &mut Sim<Toy>) -> Result<(), AllocError> {
        for path in self.source.sources.split(' ') {
            if site.content(path).is_none() {
                self.bring(site, path)?;
            }
        }
        Ok(())
    }

    /// Each dyndep file says what the line of the build file has of it.
    pub fn bring_dyndeps(&self, site: &mut Sim<Toy>) -> Result<(), AllocError> {
        for path in self.source.sources.split(' ') {
            if path.starts_with('y') {
                self.bring(site, path)?;
            }
        }
        Ok(())
    }

    /// The source gets what it holds at first.
    fn bring(&self, site: &mut Sim<Toy>, path: &str) -> Result<(), AllocError> {
        if path.starts_with('y') {
            return site.put(path, &dyndep_in(self.alloc, self.graph, path)?);
        }
        site.put(path, path.as_bytes())
    }
}

/// Counts one more where a command runs.
fn count(running: u64, counted: &mut u64) {
    if running != 0 {
        *counted = counted.saturating_add(1);
    }
}
