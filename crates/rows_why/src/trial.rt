//! Histories that are made up: before each build it is asked which commands are due, and the build starts these.

ghost use Rattle.model.specs.World.{IsIdle};
ghost use Rattle.sim.specs.World.{world_of};

use crate::counts::{Counts, add};
use crate::files::{harm, put_graph};
use builder::{Explained, Options, Report, build, explain};
use meanwhile::{Random, Source, edit, name_trouble, options, targets};
use model::Event;
use sim::{Sim, Toy};
use site::Site;
use std::alloc::{AllocError, Global};
use std::io;
use text::Text;

/// How many moves a history has.
const MOVES: usize = 24;

/// Histories that are being made, one after another.
#[derive(Drop)]
struct Trial<'a> {
    alloc: Global,
    source: Source<'a>,
    /// The seed of this history.
    seed: u64,
    random: Random,
    /// The line of the build file that stands now.
    graph: &'a str,
    /// Whether a build of this history has started something.
    is_busy: bool,
    counts: Counts,
}

/// In each history files are edited, and there are builds, in which something may go wrong. Before each one it is asked which commands are
/// due: the build starts no other one, and where it succeeds it starts all that were told to be sure. Where a dyndep file is yet to be
/// loaded, others may follow. What is refused before anything is started, a build refuses, too.
pub fn push_tried(alloc: Global, source: Source<'_>, told: &mut Vec<u8>) -> io::Result<()> {
    let mut trial = Trial::new(alloc, source);
    for number in 0..source.count {
        trial.seed = source.seed.wrapping_add(number);
        trial.try_next()?;
    }
    trial.counts.tell(told)
}

impl<'a> Trial<'a> {
    fn new(alloc: Global, source: Source<'a>) -> Trial<'a> {
        Trial {
            alloc,
            source,
            seed: source.seed,
            random: Random::new(source.seed),
            graph: "",
            is_busy: false,
            counts: Counts::new(),
        }
    }

    /// One history on a fresh site.
    fn try_next(&mut self) -> io::Result<()> {
        let mut site = Sim::new(self.alloc, Toy);
        self.is_busy = false;
        let made = self.make(&mut site);
        add(&mut self.counts.histories);
        if self.is_busy {
            add(&mut self.counts.busy);
        }
        made
    }

    fn make(&mut self, site: &mut Sim<Toy>) -> io::Result<()> {
        self.random = Random::new(self.seed);
        for path in self.source.sources.split(' ') {
            site.put(path, path.as_bytes())?;
        }
        self.next_graph(site)?;
        for _ in 0..MOVES {
            self.make_move(site)?;
        }
        Ok(())
    }

    fn next_graph(&mut self, site: &mut Sim<Toy>) -> Result<(), AllocError> {
        self.graph = self.random.part(self.source.graphs, '\n');
        put_graph(self.alloc, site, self.source, self.graph)
    }

    fn make_move(&mut self, site: &mut Sim<Toy>) -> io::Result<()> {
        site.restart();
        match self.random.below(10) {
            0 | 1 | 2 => edit(self.alloc, site, self.source, self.graph, &mut self.random)?,
            3 => self.next_graph(site)?,
            4 => harm(site, self.source, &mut self.random)?,
            _ => self.ask_and_build(site)?,
        }
        Ok(())
    }

    fn ask_and_build(&mut self, site: &mut Sim<Toy>) -> io::Result<()> {
        let jobs = small(self.random.below(4));
        let options = options(self.alloc, jobs, small(self.random.below(3)))?;
        let target = self.target();
        let targets = targets(self.alloc, target)?;
        self.compare(site, &options, &targets)
    }

    /// What is asked for.
    fn target(&mut self) -> Option<&'a str> {
        if self.random.one_in(2) {
            return None;
        }
        Some(self.random.part(self.source.outputs, ' '))
    }

    fn compare(
        &mut self,
        site: &mut Sim<Toy>,
        options: &Options,
        targets: &[Text],
    ) -> io::Result<()> {
        let explained = explained_now(self.alloc, site, options, targets);
        let before = site.events().len();
        name_trouble(site, &mut self.random)?;
        let report = built_now(self.alloc, site, options, targets);
        site.forget_faults();
        let events = site.events().get(before..).unwrap_or(&[]);
        self.judge(&explained, &report, events);
        Ok(())
    }

    fn judge(&mut self, explained: &Result<Explained, Report>, report: &Report, events: &[Event]) {
        add(&mut self.counts.builds);
        match explained {
            Ok(explained) => self.judge_told(explained, report, events),
            Err(refusal) => self.judge_refused(refusal, report, events),
        }
    }

    /// What was told, against what was started.
    fn judge_told(&mut self, explained: &Explained, report: &Report, events: &[Event]) {
        let is_all = explained.unloaded.is_none();
        if !is_all {
            add(&mut self.counts.unloaded);
        }
        for event in events {
            if let Event::Start { job, .. } = event {
                self.judge_start(explained, is_all, *job);
            }
        }
        let is_well = matches!(report, Report::Success { .. });
        for command in &explained.commands {
            add(&mut self.counts.told);
            let is_spared = is_well && !is_started(events, command.edge.index());
            self.judge_command(command.is_sure, is_all, is_spared);
        }
    }

    fn judge_start(&mut self, explained: &Explained, is_all: bool, job: usize) {
        self.is_busy = true;
        add(&mut self.counts.started);
        if is_all && !is_told(explained, job) {
            self.counts
                .note_wrong(self.seed, "a command was started that was not told");
        }
    }

    fn judge_command(&mut self, is_sure: bool, is_all: bool, is_spared: bool) {
        if !is_sure {
            add(&mut self.counts.unsure);
        }
        if !is_spared {
            return;
        }
        add(&mut self.counts.spared);
        if is_sure && is_all {
            self.counts
                .note_wrong(self.seed, "a command was told that was not started");
        }
    }

    /// Why nothing was told, against what the build came to.
    fn judge_refused(&mut self, refusal: &Report, report: &Report, events: &[Event]) {
        add(&mut self.counts.refused);
        if !events.is_empty() {
            self.counts
                .note_wrong(self.seed, "something was started of what was refused");
        }
        if !is_same(refusal, report) {
            self.counts
                .note_wrong(self.seed, "what was refused was not refused");
        }
    }
}

/// Which commands are due.
fn explained_now(
    alloc: Global,
    site: &mut Sim<Toy>,
    options: &Options,
    targets: &[Text],
) -> Result<Explained, Report> {
    site.restart();
    explain(alloc, site, options, targets)
}

fn built_now(alloc: Global, site: &mut Sim<Toy>, options: &Options, targets: &[Text]) -> Report {
    site.restart();
    build(alloc, site, options, targets)
}

/// Whether the command of this job was told.
fn is_told(explained: &Explained, job: usize) -> bool {
    for command in &explained.commands {
        if command.edge.index().saturating_add(1) == job {
            return true;
        }
    }
    false
}

/// Whether the command of the edge at this place was started.
fn is_started(events: &[Event], place: usize) -> bool {
    for event in events {
        if let Event::Start { job, .. } = event {
            if *job == place.saturating_add(1) {
                return true;
            }
        }
    }
    false
}

/// Whether both refuse, or the second one met a fault.
fn is_same(refusal: &Report, report: &Report) -> bool {
    match (refusal, report) {
        (Report::Refused(_), Report::Refused(_)) => true,
        (_, Report::Fault(_)) => true,
        _ => false,
    }
}

/// A small number.
fn small(number: usize) -> u32 {
    u32::try_from(number).unwrap_or(0)
}
