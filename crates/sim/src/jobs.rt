//! The starts and ends of commands on a site in memory, and which run.

ghost use Rattle.std.specs.Prelude.{◌≡◌, ◌+◌, ◌<◌, ◌≤◌, ℕ, ◌++◌, ◌∷◌, [], true, false, Some, None, IsSome, IfSome, IfOk, OnOk, OnErr, length, vec_capacity};
ghost use Rattle.model.specs.World.{runs};
ghost use Rattle.sim.specs.History.{with_launch};
ghost use Rattle.sim.specs.Jobs.{nothing_told, with_start, with_finish, halted, restarted, running_at, AllRun, IsListed};
ghost use Rattle.sim.specs.Running.{IsNext, IsEnd, act_of};

use crate::history::History;
use model::{Act, Event, Write};
use std::alloc::{AllocError, Global};
use std::collections::BTreeMap;
use std::marker::Model;
use std::mem;
use text::Items;

/// Which of the running commands ends next.
#[derive(Clone, Copy, Debug, PartialEq, Eq)]
pub enum Order {
    /// The one with the lowest number.
    First,
    /// The one with the highest number.
    Last,
}

/// A command that runs.
#[derive(Drop)]
pub struct Running {
    pub act: Act,
    /// Whether it ends well, where it has made its writes already.
    pub done: Option<bool>,
}

/// All starts and ends of commands, where the last restart was among them, and the commands that run.
#[derive(Drop)]
pub struct Jobs {
    alloc: Global,
    events: Vec<Event>,
    /// How many of them came before the last restart.
    before: usize,
    /// By number. There is room for the end of each.
    running: BTreeMap<usize, Running>,
    /// Whether the site has stopped. Then none is kept here.
    stopped: bool,
}

impl Model for Jobs {
    ghost use Rattle.sim.specs.Jobs.{Told};
    ghost use Rattle.sim.specs.JobsInside.{told_by, IsSound};

    ghost Value = { Told };

    ghost view = { told_by };

    ghost invariant = { IsSound };
}

impl Jobs {
    /// No command was started. This takes no memory.
    pub fn new(alloc: Global) -> Jobs
        ensures { result ≡ nothing_told }
    {
        Jobs {
            alloc,
            events: Vec::new(alloc),
            before: 0,
            running: BTreeMap::new(alloc),
            stopped: false,
        }
    }

    /// All starts and ends, oldest first: those before the last restart, then those since.
    pub fn all(&self) -> &[Event]
        ensures { result.now ≡ self.now.earlier ++ self.now.events }
    {
        &self.events
    }

    /// Whether the site has stopped.
    pub fn stopped(&self) -> bool
        ensures { result ≡ self.now.stopped }
    {
        self.stopped
    }

    /// Starts a command, which may make writes right away. Where memory is refused, nothing has happened.
    pub fn start(
        &mut self,
        history: &mut History,
        job: usize,
        act: &Act,
        stamp: u64,
        done: Option<bool>,
        writes: Items<Write>,
    ) -> Result<(), AllocError>
        requires { (self.old.stopped ≡ false) × (runs job self.old.events ≡ false) }
        ensures ok { OnOk result (self.new ≡ with_start job act.now stamp done self.old) }
        ensures history { OnOk result (history.new ≡ with_launch job act.now stamp writes history.old) }
        ensures err { OnErr result (self.new ≡ self.old) }
        ensures unwritten { OnErr result (history.new ≡ history.old) }
    {
        list(&mut self.events, &mut self.running, job, act, done)?;
        match tell(history, job, act, stamp, writes) {
            Ok(start) => {
                push_reserved(&mut self.events, start);
                Ok(())
            }
            Err(error) => {
                self.running.remove(&job);
                Err(error)
            }
        }
    }

    /// The running command that ends next.
    pub fn next(&self, order: Order) -> (usize, &Running)
        requires { (self.now.stopped ≡ false) × ((job : ℕ) × (runs job self.now.events ≡ true)) }
        ensures next { IsNext order result.0 self.now.events }
        ensures running { running_at result.0 self.now.running ≡ Some result.1.now }
        ensures act { act_of result.0 self.now.events ≡ Some result.1.now.act }
    {
        match end_of(&self.running, order) {
            Some(next) => next,
            None => unreachable!(),
        }
    }

    /// How many commands run.
    pub fn len(&self) -> usize
        ensures { result ≡ length self.now.running }
    {
        self.running.len()
    }

    /// A running command has ended.
    pub fn finish(&mut self, job: usize, ok: bool)
        requires { (self.old.stopped ≡ false) × (runs job self.old.events ≡ true) }
        ensures { self.new ≡ with_finish job ok self.old }
    {
        self.running.remove(&job);
        push_reserved(&mut self.events, Event::Finish { job, ok });
    }

    /// The site stops, and gives the commands that run.
    pub fn stop(&mut self) -> BTreeMap<usize, Running>
        ensures running { result.entries ≡ self.old.running }
        ensures runs { self.old.stopped ≡ false → AllRun result.entries self.old.events }
        ensures stops { self.new ≡ halted self.old }
    {
        self.stopped = true;
        mem::replace(&mut self.running, BTreeMap::new(self.alloc))
    }

    /// The site is started again: what was told so far is told of before, and no command runs.
    pub fn restart(&mut self)
        ensures { self.new ≡ restarted self.old }
    {
        self.before = self.events.len();
        self.running = BTreeMap::new(self.alloc);
        self.stopped = false;
    }
}

/// The lowest or the highest of the commands.
fn end_of(running: &BTreeMap<usize, Running>, order: Order) -> Option<(usize, &Running)>
    ensures found { IfSome result (λ next. running_at next.0 running.now.entries ≡ Some next.1.now) }
    ensures end { IfSome result (λ next. IsEnd order next.0 (λ job. IsSome (running_at job running.now.entries))) }
    ensures none { result ≡ None → (job : ℕ) → running_at job running.now.entries ≡ None }
{
    match order {
        Order::First => match running.first_key_value() {
            Some((job, one)) => Some((*job, one)),
            None => None,
        },
        Order::Last => match running.last_key_value() {
            Some((job, one)) => Some((*job, one)),
            None => None,
        },
    }
}

/// Lists a command, with room for its start and its end. Where memory is refused, none is listed.
fn list(
    events: &mut Vec<Event>,
    running: &mut BTreeMap<usize, Running>,
    job: usize,
    act: &Act,
    done: Option<bool>,
) -> Result<(), AllocError>
    ensures items { events.new.items ≡ events.old.items }
    ensures grows { vec_capacity events.old ≤ vec_capacity events.new }
    ensures ok { OnOk result (IsListed job act.now done running.old.entries running.new.entries) }
    ensures room { OnOk result (length events.new.items + (length running.new.entries + 1) ≤ vec_capacity events.new) }
    ensures err { OnErr result (running.new.entries ≡ running.old.entries) }
{
    reserve(events, running.len() + 2)?;
    let one = Running {
        act: act.clone()?,
        done,
    };
    running.insert(job, one)?;
    Ok(())
}

/// The start of a command happens, and the writes that it makes right away; answered is the start. Where memory is
/// refused, nothing has happened.
fn tell(
    history: &mut History,
    job: usize,
    act: &Act,
    stamp: u64,
    writes: Items<Write>,
) -> Result<Event, AllocError>
    ensures start { IfOk result (λ event. event ≡ Event.Start job act.now stamp) }
    ensures ok { OnOk result (history.new ≡ with_launch job act.now stamp writes history.old) }
    ensures err { OnErr result (history.new ≡ history.old) }
{
    let start = started(job, act, stamp)?;
    record_start(history, job, act, stamp, writes)?;
    Ok(start)
}

/// The start of a command happens, and the writes that it makes right away. Where memory is refused, nothing has happened.
fn record_start(
    history: &mut History,
    job: usize,
    act: &Act,
    stamp: u64,
    writes: Items<Write>,
) -> Result<(), AllocError>
    ensures ok { OnOk result (history.new ≡ with_launch job act.now stamp writes history.old) }
    ensures err { OnErr result (history.new ≡ history.old) }
{
    let start = started(job, act, stamp)?;
    history.record(job, Some(start), writes, None)
}

/// The start of a command.
fn started(job: usize, act: &Act, stamp: u64) -> Result<Event, AllocError>
    ensures { IfOk result (λ event. event ≡ Event.Start job act.now stamp) }
{
    Ok(Event::Start {
        job,
        act: act.clone()?,
        stamp,
    })
}

/// Makes room for so many events more.
fn reserve(events: &mut Vec<Event>, more: usize) -> Result<(), AllocError>
    ensures items { events.new.items ≡ events.old.items }
    ensures ok { OnOk result (length events.new.items + more ≤ vec_capacity events.new) }
    ensures grows { vec_capacity events.old ≤ vec_capacity events.new }
{
    events.reserve(more)
}

/// Adds an event to a list that has room.
fn push_reserved(events: &mut Vec<Event>, event: Event)
    requires { length events.old.items < vec_capacity events.old }
    ensures items { events.new.items ≡ events.old.items ++ event ∷ [] }
    ensures grows { vec_capacity events.old ≤ vec_capacity events.new }
{
    match events.push(event) {
        Ok(()) => {}
        Err(_) => unreachable!(),
    }
}
