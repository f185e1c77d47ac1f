//! The site of a script.

ghost use Rattle.std.specs.Prelude.{◌≡◌};
ghost use Rattle.model.specs.World.{IsIdle};
ghost use Rattle.sim.specs.World.{world_of, fresh};
ghost use Rattle.scripts.specs.Script.{GoesOn, BuildsAlone};

use builder::{Options, Report, build};
use depfile::has_reading;
use dyndep_law::has_reading as has_dyndeps;
use log_text::has_format;
use sim::{Call, Order, Sim, Timing, Toy};
use site::{Event, Site};
use std::alloc::{AllocError, Global};
use std::marker::Model;
use text::{Bytes, Text};

/// A site in memory between two lines of a script: no command runs on it.
#[derive(Drop)]
pub struct IdleSite {
    alloc: Global,
    site: Sim<Toy>,
}

impl Model for IdleSite {
    ghost use Rattle.model.specs.World.{IsIdle};
    ghost use Rattle.sim.specs.World.{world_of};
    ghost use Rattle.sim.specs.declared.sim.Sim.{Sim};
    ghost use Rattle.sim.specs.declared.toy.Toy.{Toy};

    ghost Value = { Sim Toy };

    ghost view = { λ idle. idle.site };

    ghost invariant = { λ idle. IsIdle (world_of idle.site).events };
}

impl IdleSite {
    /// A site on which nothing has happened. This takes no memory.
    pub fn new(alloc: Global) -> IdleSite
        ensures { world_of result ≡ fresh }
    {
        IdleSite {
            alloc,
            site: Sim::new(alloc, Toy),
        }
    }

    /// Builds. What was named to go wrong does so in this build alone, and after a fault the site is started again: then
    /// commands that were left running have ended.
    pub fn build(&mut self, options: &Options, targets: &[Text]) -> Report
        ensures build { BuildsAlone options.now targets.now self.old self.new result }
    {
        build_alone(self.alloc, &mut self.site, options, targets)
    }

    /// Someone writes a file.
    pub fn put(&mut self, path: &str, content: &[u8]) -> Result<(), AllocError> {
        self.site.put(path, content)
    }

    /// Someone deletes a file.
    pub fn erase(&mut self, path: &str) -> Result<(), AllocError> {
        self.site.erase(path)
    }

    /// What the file at the path holds, or nothing where there is no file.
    pub fn content(&self, path: &str) -> Option<&Bytes> {
        self.site.content(path)
    }

    /// All starts and finishes so far, oldest first.
    pub fn events(&self) -> &[Event] {
        self.site.events()
    }

    /// What was shown so far.
    pub fn shown(&self) -> &[u8]
        ensures { result.now ≡ self.now.shown.items }
    {
        self.site.shown()
    }

    /// From now on this running command ends next.
    pub fn order(&mut self, order: Order) {
        self.site.order(order);
    }

    /// Commands write at this time from now on.
    pub fn timing(&mut self, timing: Timing) {
        self.site.timing(timing);
    }

    /// In the next build the device refuses the first wait where fewer commands run.
    pub fn gate(&mut self, commands: usize) {
        self.site.gate(commands);
    }

    /// In the next build the device refuses the call of this kind and number.
    pub fn fail(&mut self, call: Call, number: u64) -> Result<(), AllocError> {
        self.site.fail(call, number)
    }

    /// In the next build the site stops in the call of this kind and number.
    pub fn stop_at(&mut self, call: Call, number: u64, bytes: usize) -> Result<(), AllocError> {
        self.site.stop_at(call, number, bytes)
    }
}

/// Builds on the site, on which then no command runs and nothing is named any more.
fn build_alone(alloc: Global, site: &mut Sim<Toy>, options: &Options, targets: &[Text]) -> Report
    requires { IsIdle (world_of site.old).events }
    ensures idle { IsIdle (world_of site.new).events }
    ensures build { BuildsAlone options.now targets.now site.old site.new result }
{
    has_format();
    has_reading();
    has_dyndeps();
    let report = build(alloc, site, options, targets);
    go_on(site, &report);
    site.forget_faults();
    report
}

/// Starts the site again, if the report is that of a fault.
fn go_on(site: &mut Sim<Toy>, report: &Report)
    ensures { GoesOn report.now (world_of site.old) (world_of site.new) }
{
    match report {
        Report::Fault(_) => site.restart(),
        Report::Success { .. } => {}
        Report::Failed { .. } => {}
        Report::Refused(_) => {}
    }
}
