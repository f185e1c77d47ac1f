//! Histories that are made up: edits, builds that go wrong and builds that succeed, each beside the clean build.

use crate::ends::is_success;
use crate::harm::harm;
use crate::moves::{build_alone, start_again};
use builder::{Options, Report};
use meanwhile::{
    Clean, Random, Source, dyndep_in, edges_in, edit, name_trouble, options, put_edges, targets,
};
use sim::{Sim, Toy};
use site::Site;
use std::alloc::{AllocError, Global};
use std::io::{self, Write};
use text::Text;

/// How many moves a history has.
const MOVES: usize = 24;

/// What the builds of all histories came to.
#[derive(Drop)]
struct Counts {
    well: u64,
    /// Builds behind a success, which had nothing to do.
    done: u64,
    failed: u64,
    refused: u64,
    faults: u64,
    /// The seed of the first history with a build that ended otherwise than it has to, and how that ended.
    wrong: Option<(u64, Vec<u8>)>,
}

/// Histories that are being made, one after another.
#[derive(Drop)]
struct Trial<'a> {
    alloc: Global,
    source: Source<'a>,
    /// The seed of this history.
    seed: u64,
    random: Random,
    /// The line of the build file that stands now.
    graph: &'a str,
    counts: Counts,
}

/// A success leaves what a clean build gives, and behind it nothing is to be done; where a command failed, the clean build
/// lacks something; a refusal started nothing, where there are no dyndep files. Each history has the next seed.
pub fn push_tried(alloc: Global, source: Source<'_>, told: &mut Vec<u8>) -> io::Result<()> {
    let mut trial = Trial::new(alloc, source);
    for number in 0..source.count {
        trial.seed = source.seed.wrapping_add(number);
        trial.try_next()?;
    }
    tell(&trial.counts, told)
}

fn tell(counts: &Counts, told: &mut Vec<u8>) -> io::Result<()> {
    let (well, done, failed) = (counts.well, counts.done, counts.failed);
    let (refused, faults) = (counts.refused, counts.faults);
    write!(told, "{well} well, {done} with nothing to do, ")?;
    write!(
        told,
        "{failed} failed, {refused} refused, {faults} faults, "
    )?;
    match &counts.wrong {
        None => told.write_all(b"ok"),
        Some((seed, report)) => {
            write!(told, "wrong in {seed}: ")?;
            told.write_all(report.as_slice())
        }
    }
}

impl<'a> Trial<'a> {
    fn new(alloc: Global, source: Source<'a>) -> Trial<'a> {
        Trial {
            alloc,
            source,
            seed: source.seed,
            random: Random::new(source.seed),
            graph: "",
            counts: Counts::new(),
        }
    }

    /// One history on a fresh site.
    fn try_next(&mut self) -> io::Result<()> {
        let mut site = Sim::new(self.alloc, Toy);
        let made = self.make(&mut site);
        made
    }

    fn make(&mut self, site: &mut Sim<Toy>) -> io::Result<()> {
        self.random = Random::new(self.seed);
        for path in self.source.sources.split(' ') {
            site.put(path, path.as_bytes())?;
        }
        self.put_graph(site)?;
        for _ in 0..MOVES {
            self.make_move(site)?;
        }
        Ok(())
    }

    /// Another build file, or the same one again, with its dyndep files.
    fn put_graph(&mut self, site: &mut Sim<Toy>) -> Result<(), AllocError> {
        self.graph = self.random.part(self.source.graphs, '\n');
        put_edges(self.alloc, site, edges_in(self.graph))?;
        for path in self.source.sources.split(' ') {
            if path.starts_with('y') {
                site.put(path, &dyndep_in(self.alloc, self.graph, path)?)?;
            }
        }
        Ok(())
    }

    fn make_move(&mut self, site: &mut Sim<Toy>) -> io::Result<()> {
        start_again(site);
        match self.random.below(10) {
            0 | 1 | 2 => edit(self.alloc, site, self.source, self.graph, &mut self.random)?,
            3 => self.put_graph(site)?,
            4 => harm(self.alloc, site, self.source, &mut self.random)?,
            _ => self.build(site)?,
        }
        Ok(())
    }

    /// A build, in which something may go wrong.
    fn build(&mut self, site: &mut Sim<Toy>) -> io::Result<()> {
        let jobs = small(self.random.below(4));
        let options = options(self.alloc, jobs, small(self.random.below(3)))?;
        let target = self.target();
        name_trouble(site, &mut self.random)?;
        self.build_as(site, &options, target)
    }

    /// What is asked for.
    fn target(&mut self) -> Option<&'a str> {
        if self.random.one_in(2) {
            return None;
        }
        Some(self.random.part(self.source.outputs, ' '))
    }

    fn build_as(
        &mut self,
        site: &mut Sim<Toy>,
        options: &Options,
        target: Option<&str>,
    ) -> io::Result<()> {
        let targets = targets(self.alloc, target)?;
        self.build_these(site, options, target, targets.as_slice())
    }

    fn build_these(
        &mut self,
        site: &mut Sim<Toy>,
        options: &Options,
        target: Option<&str>,
        targets: &[Text],
    ) -> io::Result<()> {
        let before = site.events().len();
        let report = build_alone(self.alloc, site, options, targets);
        site.forget_faults();
        let started = site.events().len() > before;
        self.judge(site, &report, target, started)?;
        self.build_again(site, options, targets, is_success(&report))
    }

    /// Now and then the same again, behind a success.
    fn build_again(
        &mut self,
        site: &mut Sim<Toy>,
        options: &Options,
        targets: &[Text],
        is_well: bool,
    ) -> io::Result<()> {
        if !is_well || !self.graph.starts_with("edges") || !self.random.one_in(3) {
            return Ok(());
        }
        let report = build_alone(self.alloc, site, options, targets);
        self.judge_next(&report)
    }

    fn judge(
        &mut self,
        site: &mut Sim<Toy>,
        report: &Report,
        target: Option<&str>,
        started: bool,
    ) -> io::Result<()> {
        self.counts.add(report);
        let is_right = match report {
            Report::Success { .. } => self.is_clean(site, target)?,
            Report::Failed { .. } => self.lacks_output(site)?,
            Report::Refused(_) => !started || self.graph.contains('@'),
            Report::Fault(_) => true,
        };
        if !is_right {
            self.note_wrong(report)?;
        }
        Ok(())
    }

    /// Behind a success nothing is to be done.
    fn judge_next(&mut self, report: &Report) -> io::Result<()> {
        self.counts.done = self.counts.done.saturating_add(1);
        if !starts_nothing(report) {
            self.note_wrong(report)?;
        }
        Ok(())
    }

    /// What was asked for is as the clean build leaves it.
    fn is_clean(&mut self, site: &mut Sim<Toy>, target: Option<&str>) -> io::Result<bool> {
        let Some(clean) = Clean::of(self.alloc, site, self.source)? else {
            return Ok(false);
        };
        Ok(match target {
            Some(path) => clean.has(path) && clean.is_at(site, path),
            None => !clean.lacks_output() && clean.are_at(site, self.source.outputs),
        })
    }

    fn lacks_output(&mut self, site: &mut Sim<Toy>) -> io::Result<bool> {
        match Clean::of(self.alloc, site, self.source)? {
            Some(clean) => Ok(clean.lacks_output()),
            None => Ok(false),
        }
    }

    fn note_wrong(&mut self, report: &Report) -> io::Result<()> {
        if self.counts.wrong.is_none() {
            let mut told = Vec::new(self.alloc);
            write!(&mut told, "{report:?}")?;
            self.counts.wrong = Some((self.seed, told));
        }
        Ok(())
    }
}

fn starts_nothing(report: &Report) -> bool {
    match report {
        Report::Success { started } => *started == 0,
        Report::Failed { .. } => false,
        Report::Refused(_) => false,
        Report::Fault(_) => false,
    }
}

impl Counts {
    fn new() -> Counts {
        Counts {
            well: 0,
            done: 0,
            failed: 0,
            refused: 0,
            faults: 0,
            wrong: None,
        }
    }

    /// One build more that ended so.
    fn add(&mut self, report: &Report) {
        let count = match report {
            Report::Success { .. } => &mut self.well,
            Report::Failed { .. } => &mut self.failed,
            Report::Refused(_) => &mut self.refused,
            Report::Fault(_) => &mut self.faults,
        };
        *count = count.saturating_add(1);
    }
}

/// A small number.
fn small(number: usize) -> u32 {
    u32::try_from(number).unwrap_or(0)
}
