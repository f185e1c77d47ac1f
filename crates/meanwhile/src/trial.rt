//! Histories that are made up: builds beside which somebody writes, and builds beside which nobody does.

use crate::beneath::below;
use crate::busy::Busy;
use crate::clean_site::Clean;
use crate::compared::{compare, starts_marked};
use crate::counts::Counts;
use crate::made_up::{Source, edges_in};
use crate::random::Random;
use crate::rules::options;
use builder::{Options, Report, build};
use site::Site;
use std::alloc::{AllocError, Global};
use std::io;
use text::Text;

/// How often a history is edited and built.
const ROUNDS: usize = 4;

/// How far the site is brought before each tick, so that what was written since the last start has the stamp of the tick.
const STEP: u64 = 64;

/// What builds record, and somebody may delete.
const LOGS: &str = ".nj_log .nj_deps";

/// Histories that are being made, one after another.
#[derive(Drop)]
struct Trial<'a> {
    alloc: Global,
    source: Source<'a>,
    /// The seed of this history.
    seed: u64,
    random: Random,
    /// The line of the build file that stands now.
    graph: &'a str,
    /// What is asked for.
    options: Options,
    target: Option<&'a str>,
    targets: Vec<Text>,
    /// Which edges are below what was edited beside the last build, if that succeeded.
    is_known: bool,
    marked: Vec<bool>,
    counts: Counts,
}

/// In each round of a history files are edited; then somebody writes sources and the scratch file beside a build, in which something may go
/// wrong; then there is a build beside which nobody writes, and one more. What of a build that somebody wrote beside is below no edit is as
/// the clean build gives it, where the build succeeds. The one behind it succeeds, leaves each output as the clean build gives it, and
/// starts only commands below an edit, where that succeeded before. The last one has nothing to do. Each history has the next seed.
pub fn push_meanwhile(alloc: Global, source: Source<'_>, told: &mut Vec<u8>) -> io::Result<()> {
    let mut trial = Trial::new(alloc, source)?;
    let tried = trial.push_tried(told);
    tried
}

impl<'a> Trial<'a> {
    fn new(alloc: Global, source: Source<'a>) -> Result<Trial<'a>, AllocError> {
        let options = options(alloc, 1, 1)?;
        Ok(Trial {
            alloc,
            source,
            seed: source.seed,
            random: Random::new(source.seed),
            graph: "",
            options,
            target: None,
            targets: Vec::new(alloc),
            is_known: false,
            marked: Vec::new(alloc),
            counts: Counts::new(),
        })
    }

    fn push_tried(&mut self, told: &mut Vec<u8>) -> io::Result<()> {
        for number in 0..self.source.count {
            self.seed = self.source.seed.wrapping_add(number);
            self.try_next()?;
        }
        self.counts.tell(told)
    }

    /// One history on a fresh site.
    fn try_next(&mut self) -> io::Result<()> {
        self.random = Random::new(self.seed);
        let step = if self.random.one_in(4) { 1 } else { STEP };
        let mut site = Busy::new(self.alloc, self.source, self.seed.wrapping_mul(3), step);
        let made = self.make(&mut site);
        made
    }

    fn make(&mut self, site: &mut Busy<'a>) -> io::Result<()> {
        self.put_graph(site)?;
        site.bring_back()?;
        for _ in 0..ROUNDS {
            self.make_round(site)?;
        }
        self.count_files(site)
    }

    /// What somebody wrote in this history is counted.
    fn count_files(&mut self, site: &Busy<'a>) -> io::Result<()> {
        site.check()?;
        let (sources, scratch) = site.written();
        self.counts.sources = self.counts.sources.saturating_add(sources);
        self.counts.scratch = self.counts.scratch.saturating_add(scratch);
        self.counts.equal = self.counts.equal.saturating_add(site.equal());
        Ok(())
    }

    /// Another build file, or the same one again, with its dyndep files.
    fn put_graph(&mut self, site: &mut Busy<'a>) -> Result<(), AllocError> {
        self.graph = self.random.part(self.source.graphs, '\n');
        site.put_graph(self.graph, edges_in(self.graph))
    }

    fn make_round(&mut self, site: &mut Busy<'a>) -> io::Result<()> {
        site.start_again();
        self.change(site)?;
        self.ask()?;
        self.build_beside(site)?;
        site.start_again();
        site.bring_back()?;
        self.build_quietly(site)?;
        self.build_again(site)
    }

    /// What is done while nothing is built.
    fn change(&mut self, site: &mut Busy<'a>) -> Result<(), AllocError> {
        if self.random.one_in(4) {
            self.put_graph(site)?;
        }
        if self.random.one_in(4) {
            site.erase(self.random.part(self.source.outputs, ' '))?;
        }
        if self.random.one_in(8) {
            site.erase(self.random.part(LOGS, ' '))?;
        }
        for _ in 0..self.random.below(3) {
            site.edit()?;
        }
        Ok(())
    }

    /// What is asked of the builds of a round.
    fn ask(&mut self) -> Result<(), AllocError> {
        self.options.jobs = small(self.random.below(4));
        self.options.keep = small(self.random.below(3));
        self.targets.clear();
        self.target = None;
        if self.random.one_in(4) {
            let target = self.random.part(self.source.outputs, ' ');
            self.targets.push(Text::from_str(self.alloc, target)?)?;
            self.target = Some(target);
        }
        Ok(())
    }

    /// A build beside which somebody writes.
    fn build_beside(&mut self, site: &mut Busy<'a>) -> io::Result<()> {
        site.name_trouble(&mut self.random)?;
        site.come(self.seldom());
        let report = self.build(site);
        site.leave();
        self.judge_beside(site, &report)
    }

    /// In one of how many calls somebody writes.
    fn seldom(&mut self) -> usize {
        match self.random.below(3) {
            0 => 8,
            1 => 25,
            _ => 80,
        }
    }

    fn build(&self, site: &mut Busy<'a>) -> Report {
        build_alone(self.alloc, site, &self.options, self.targets.as_slice())
    }

    fn judge_beside(&mut self, site: &mut Busy<'a>, report: &Report) -> io::Result<()> {
        self.counts.add(report);
        self.is_known = started_by(report).is_some();
        if !self.is_known {
            return Ok(());
        }
        if !self.is_right_beside(site)? {
            self.note_wrong("wrong below no edit", report)?;
        }
        Ok(())
    }

    /// Whether all that is below no edit is as the clean build gives it.
    fn is_right_beside(&mut self, site: &mut Busy<'a>) -> Result<bool, AllocError> {
        match site.clean_build(self.source)? {
            Some(clean) => self.compare_beside(site, &clean),
            None => Ok(false),
        }
    }

    fn compare_beside(&mut self, site: &Busy<'a>, clean: &Clean) -> Result<bool, AllocError> {
        self.marked = below(self.alloc, clean.edges(), site.edited())?;
        let found = compare(site, clean, self.target, &self.marked);
        self.counts.mended = self.counts.mended.saturating_add(found.below);
        Ok(found.elsewhere == 0)
    }

    /// A build beside which nobody writes.
    fn build_quietly(&mut self, site: &mut Busy<'a>) -> io::Result<()> {
        let before = site.events().len();
        let report = self.build(site);
        self.judge_quiet(site, &report, before)
    }

    fn judge_quiet(
        &mut self,
        site: &mut Busy<'a>,
        report: &Report,
        before: usize,
    ) -> io::Result<()> {
        if started_by(report).is_none() {
            return self.note_wrong("no success", report);
        }
        self.counts.quiet = self.counts.quiet.saturating_add(1);
        if !self.is_clean(site)? {
            self.note_wrong("not as the clean build", report)?;
        }
        if !self.starts_little(site, before) {
            self.note_wrong("started what was in order", report)?;
        }
        Ok(())
    }

    /// Whether what was asked for is as the clean build gives it.
    fn is_clean(&mut self, site: &mut Busy<'a>) -> Result<bool, AllocError> {
        match site.clean_build(self.source)? {
            Some(clean) => Ok(compare(site, &clean, self.target, &[]).elsewhere == 0),
            None => Ok(false),
        }
    }

    /// Whether only commands below an edit were started since there were so many events, where the build before succeeded.
    fn starts_little(&self, site: &Busy<'a>, before: usize) -> bool {
        if !self.is_known {
            return true;
        }
        let events = site.events().get(before..).unwrap_or(&[]);
        starts_marked(events, &self.marked)
    }

    /// The same once more: nothing is to be done.
    fn build_again(&mut self, site: &mut Busy<'a>) -> io::Result<()> {
        let report = self.build(site);
        if started_by(&report) != Some(0) {
            return self.note_wrong("something to do", &report);
        }
        self.counts.done = self.counts.done.saturating_add(1);
        Ok(())
    }

    fn note_wrong(&mut self, what: &str, report: &Report) -> io::Result<()> {
        self.counts.note_wrong(self.alloc, self.seed, what, report)
    }
}

/// Builds once all commands that were left running have ended.
fn build_alone(alloc: Global, site: &mut Busy<'_>, options: &Options, targets: &[Text]) -> Report {
    site.start_again();
    build(alloc, site, options, targets)
}

/// How many commands a build has started that succeeded.
fn started_by(report: &Report) -> Option<usize> {
    match report {
        Report::Success { started } => Some(*started),
        Report::Failed { .. } => None,
        Report::Refused(_) => None,
        Report::Fault(_) => None,
    }
}

/// A small number.
fn small(number: usize) -> u32 {
    u32::try_from(number).unwrap_or(0)
}
