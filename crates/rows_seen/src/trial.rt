//! Histories that are made up: files are put back and overwritten, and built.

use crate::asked::is_as;
use crate::builds::{build_by, learn};
use crate::counts::{Counts, add};
use crate::dated::Dated;
use builder::{Options, Report};
use meanwhile::{Random, Source, edges_in, options};
use seen::Seen;
use site::Site;
use std::alloc::{AllocError, Global};
use std::io;
use std::marker::Brand;
use text::Text;

/// How often a history is edited and built.
const ROUNDS: usize = 6;

/// What builds record, and somebody may delete.
const LOGS: &str = ".nj_log .nj_deps";

/// Histories that are being made, one after another.
#[derive(Drop)]
struct Trial<'a> {
    alloc: Global,
    source: Source<'a>,
    /// The seed of this history.
    seed: u64,
    random: Random,
    /// Whether builds go by stamps alone.
    trusts: bool,
    /// What is asked for.
    options: Options,
    target: Option<&'a str>,
    targets: Vec<Text>,
    counts: Counts,
}

/// In each round of a history sources are written, deleted or put back under old stamps, and what commands make is overwritten or deleted; then
/// there may be a build in which something goes wrong, and beside which somebody does so with sources; and then one beside which nobody
/// writes, and one more. The one that is quiet succeeds and leaves each output as the clean build gives it, and the last one has nothing to do.
/// Each history has the next seed.
pub fn push_tried(
    alloc: Global,
    source: Source<'_>,
    trusts: bool,
    told: &mut Vec<u8>,
) -> io::Result<()> {
    let mut trial = Trial::new(alloc, source, trusts)?;
    let tried = trial.push_all(told);
    tried
}

impl<'a> Trial<'a> {
    fn new(alloc: Global, source: Source<'a>, trusts: bool) -> Result<Trial<'a>, AllocError> {
        let options = options(alloc, 1, 1)?;
        Ok(Trial {
            alloc,
            source,
            seed: source.seed,
            random: Random::new(source.seed),
            trusts,
            options,
            target: None,
            targets: Vec::new(alloc),
            counts: Counts::new(),
        })
    }

    fn push_all(&mut self, told: &mut Vec<u8>) -> io::Result<()> {
        for number in 0..self.source.count {
            self.seed = self.source.seed.wrapping_add(number);
            self.try_next()?;
        }
        self.counts.tell(told)
    }

    /// One history on a fresh site.
    fn try_next(&mut self) -> io::Result<()> {
        self.random = Random::new(self.seed);
        let site = Dated::new(self.alloc, self.source, self.seed.wrapping_mul(3));
        let mut seen: Seen<Dated<'a>, Brand> = Seen::new(self.alloc, site);
        let made = self.make(&mut seen);
        made
    }

    fn make(&mut self, seen: &mut Seen<Dated<'a>, Brand>) -> io::Result<()> {
        add(&mut self.counts.histories);
        let graph = self.random.part(self.source.graphs, '\n');
        let told = &mut seen.retold;
        begin(&mut told.site, edges_in(graph))?;
        for _ in 0..ROUNDS {
            self.make_round(seen)?;
        }
        seen.retold.site.check()?;
        self.counts.old = self.counts.old.saturating_add(seen.retold.site.given());
        Ok(())
    }

    fn make_round(&mut self, seen: &mut Seen<Dated<'a>, Brand>) -> io::Result<()> {
        seen.restart();
        let told = &mut seen.retold;
        self.change(&mut told.site)?;
        self.ask()?;
        if self.random.one_in(2) {
            self.build_beside(seen)?;
        }
        seen.restart();
        let told = &mut seen.retold;
        told.site.bring_back()?;
        self.build_quietly(seen)?;
        self.build_again(seen)
    }

    /// What is done while nothing is built.
    fn change(&mut self, site: &mut Dated<'a>) -> Result<(), AllocError> {
        for _ in 0..self.random.below(3) {
            site.edit()?;
        }
        if self.random.one_in(2) {
            self.write_output(site)?;
        }
        if self.random.one_in(6) {
            site.erase(self.random.part(self.source.outputs, ' '))?;
        }
        if self.random.one_in(12) {
            site.erase(self.random.part(LOGS, ' '))?;
        }
        Ok(())
    }

    fn write_output(&mut self, site: &mut Dated<'a>) -> Result<(), AllocError> {
        let before = site.given();
        site.write_output()?;
        self.counts.outputs = self
            .counts
            .outputs
            .saturating_add(site.given().saturating_sub(before));
        Ok(())
    }

    /// What is asked of the builds of a round.
    fn ask(&mut self) -> Result<(), AllocError> {
        self.options.jobs = small(self.random.below(4));
        self.options.keep = small(self.random.below(3));
        self.targets.clear();
        self.target = None;
        if self.random.one_in(3) {
            let target = self.random.part(self.source.outputs, ' ');
            self.targets.push(Text::from_str(self.alloc, target)?)?;
            self.target = Some(target);
        }
        Ok(())
    }

    /// A build in which something may go wrong, and beside which somebody may write.
    fn build_beside(&mut self, seen: &mut Seen<Dated<'a>, Brand>) -> io::Result<()> {
        self.learn(seen);
        let told = &mut seen.retold;
        told.site.name_trouble(&mut self.random)?;
        told.site.come(self.seldom());
        let report = self.build(seen);
        let told = &mut seen.retold;
        told.site.leave();
        add(&mut self.counts.beside);
        if started_by(&report).is_some() {
            add(&mut self.counts.succeeded);
        }
        Ok(())
    }

    /// In one of how many calls somebody writes.
    fn seldom(&mut self) -> usize {
        match self.random.below(4) {
            0 => 0,
            1 => 8,
            2 => 25,
            _ => 80,
        }
    }

    /// The outputs of the build file are known, before it is built.
    fn learn(&self, seen: &mut Seen<Dated<'a>, Brand>) {
        learn(self.alloc, seen, "build.ninja");
    }

    fn build(&self, seen: &mut Seen<Dated<'a>, Brand>) -> Report {
        build_by(
            self.alloc,
            seen,
            self.trusts,
            &self.options,
            self.targets.as_slice(),
        )
    }

    /// A build beside which nobody writes.
    fn build_quietly(&mut self, seen: &mut Seen<Dated<'a>, Brand>) -> io::Result<()> {
        self.learn(seen);
        let report = self.build(seen);
        let Some(started) = started_by(&report) else {
            self.judge_unbuilt(&report);
            return Ok(());
        };
        add(&mut self.counts.quiet);
        self.counts.started = self.counts.started.saturating_add(started as u64);
        let told = &mut seen.retold;
        if !self.is_clean(&mut told.site)? {
            add(&mut self.counts.stale);
            self.note_wrong("not as the clean build");
        }
        Ok(())
    }

    /// A target that no edge has and that is no source is unknown; nothing else is refused.
    fn judge_unbuilt(&mut self, report: &Report) {
        if self.target.is_none() || !matches!(report, Report::Refused(_)) {
            self.note_wrong("no success");
        }
    }

    /// Whether what was asked for is as the clean build gives it.
    fn is_clean(&mut self, site: &mut Dated<'a>) -> Result<bool, AllocError> {
        match site.clean_build()? {
            Some(clean) => Ok(is_as(site, &clean, self.target)),
            None => Ok(false),
        }
    }

    /// The same once more: nothing is to be done.
    fn build_again(&mut self, seen: &mut Seen<Dated<'a>, Brand>) -> io::Result<()> {
        self.learn(seen);
        let report = self.build(seen);
        let is_idle = match started_by(&report) {
            Some(started) => started == 0,
            None => true,
        };
        if !is_idle {
            self.note_wrong("something to do");
        }
        Ok(())
    }

    /// What is wrong where builds go by what was seen. By stamps alone it may be.
    fn note_wrong(&mut self, what: &'static str) {
        if !self.trusts {
            self.counts.note_wrong(self.seed, what);
        }
    }
}

/// The build file gets these edges, and each source is there.
fn begin(site: &mut Dated<'_>, edges: &str) -> Result<(), AllocError> {
    site.grow_old()?;
    site.put_graph(edges)?;
    site.bring_back()
}

/// How many commands a build has started that succeeded.
fn started_by(report: &Report) -> Option<usize> {
    match report {
        Report::Success { started } => Some(*started),
        Report::Failed { .. } => None,
        Report::Refused(_) => None,
        Report::Fault(_) => None,
    }
}

/// A small number.
fn small(number: usize) -> u32 {
    u32::try_from(number).unwrap_or(0)
}
