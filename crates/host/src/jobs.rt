//! The starts and ends of real commands, and which run.

ghost use Rattle.std.specs.Prelude.{◌≡◌, ◌+◌, ◌<◌, ◌≤◌, ℕ, ◌++◌, ◌∷◌, [], true, false, IfOk, IfSome, IsSome, OnOk, OnErr, length, vec_capacity, vec_len};
ghost use Rattle.model.specs.World.{runs};
ghost use Rattle.host.specs.Process.{EndedSo};
ghost use Rattle.host.specs.Told.{nothing_told, with_start, with_finish, restarted};

use crate::commands;
use crate::commands::{End, Running};
use crate::environment::variables;
use crate::files::{Files, Opened, Taken};
use crate::signals::tell_signal;
use crate::tracing::Tracing;
use crate::waiting::{Round, some_runs, wait_all, wait_first};
use crate::watch::Watch;
use model::{Act, Event, Finished};
use std::alloc::{AllocError, Global};
use std::io::Write;
use std::marker::Model;
use std::{io, mem};
use terminal::Terminal;

/// All starts and ends of commands, where the last restart was among them, and the commands that run.
#[derive(Drop)]
pub struct Jobs {
    alloc: Global,
    events: Vec<Event>,
    /// How many of them came before the last restart.
    before: usize,
    /// The commands that run, in any order. There is room for the end of each.
    commands: Vec<Running>,
    /// Where the next wait goes on to ask them.
    round: Round,
    /// The variables that they get, once they were read.
    environment: Option<Vec<u8>>,
    /// Whether they are traced, and by what.
    tracing: Tracing,
    /// The numbers of the processes that were started, where they are kept.
    numbers: Option<Vec<i32>>,
}

impl Model for Jobs {
    ghost use Rattle.host.specs.Told.{Told};
    ghost use Rattle.host.specs.Inside.{told_by, IsSound};

    ghost Value = { Told };

    ghost view = { told_by };

    ghost invariant = { IsSound };
}

impl Jobs {
    /// No command was started. This takes no memory.
    pub fn new(alloc: Global) -> Jobs
        ensures { result ≡ nothing_told }
    {
        Jobs {
            alloc,
            events: Vec::new(alloc),
            before: 0,
            commands: Vec::new(alloc),
            round: Round {
                place: 0,
                left: 0,
                some_held: false,
            },
            environment: None,
            tracing: Tracing::none(alloc),
            numbers: None,
        }
    }

    /// From now on the number of each process is kept.
    pub fn keep_numbers(&mut self)
        ensures { self.new ≡ self.old }
    {
        self.numbers = Some(Vec::new(self.alloc));
    }

    /// The numbers that are kept, in the order in which commands were started. A process of which none is known has 0.
    pub fn numbers(&self) -> &[i32] {
        match &self.numbers {
            Some(numbers) => numbers.as_slice(),
            None => &[],
        }
    }

    /// From now on each command is traced by the program of this path.
    pub fn trace_by(&mut self, program: String)
        ensures { self.new ≡ self.old }
    {
        self.tracing = Tracing::by(self.alloc, program);
    }

    /// All starts and ends, oldest first: those before the last restart, then those since.
    pub fn all(&self) -> &[Event]
        ensures { result.now ≡ self.now.earlier ++ self.now.events }
    {
        &self.events
    }

    /// Starts a command, which takes the opened files. Where it fails, it was not started, and they are left. Commands get the variables
    /// that the program was started with, which are read for the first of them.
    pub fn start(
        &mut self,
        job: usize,
        act: &Act,
        stamp: u64,
        opened: &mut Option<Opened>,
    ) -> io::Result<()>
        requires { runs job self.old.events ≡ false }
        ensures ok { OnOk result (self.new ≡ with_start job act.now stamp self.old) }
        ensures err { OnErr result (self.new ≡ self.old) }
    {
        let line = act.command.to_text(self.alloc)?;
        let event = started(job, act, stamp)?;
        reserve(&mut self.events, self.commands.len() + 2)?;
        reserve(&mut self.commands, 1)?;
        reserve_number(&mut self.numbers)?;
        read_once(self.alloc, &mut self.environment)?;
        let environment = known(&self.environment);
        set_beside(opened, self.commands.len());
        let command = commands::start(&self.tracing, job, line.as_str(), environment, opened)?;
        push_number(&mut self.numbers, command.number());
        push_reserved(&mut self.events, event);
        push_reserved(&mut self.commands, command);
        Ok(())
    }

    /// Waits until a command has ended, and takes it in. Where it fails, none is taken in. The screen is told of the end, and that time
    /// passes.
    pub fn wait_any<W: Write>(
        &mut self,
        rt: &HostRuntime,
        files: &mut Files,
        watch: &mut Watch<'_>,
        screen: &mut Terminal<W>,
    ) -> io::Result<Finished>
        requires { (job : ℕ) × (runs job self.old.events ≡ true) }
        ensures ran { IfOk result (λ finished. runs finished.job self.old.events ≡ true) }
        ensures ok { IfOk result (λ finished. self.new ≡ with_finish finished.job finished.ok self.old) }
        ensures err { OnErr result (self.new ≡ self.old) }
    {
        let place = wait_first(rt, &mut self.commands, &mut self.round, watch, screen)?;
        let Taken { output, is_unused } = self.commands[place].take_printed(self.alloc)?;
        let command = self.commands.swap_remove(place);
        let End { job, ok, signal } = command.end();
        screen.end(rt, job);
        tell_signal(self.alloc, rt, signal, screen);
        files.take_in(rt, command.into_printed(), is_unused);
        push_reserved(&mut self.events, Event::Finish { job, ok });
        Ok(Finished { job, ok, output })
    }

    /// Whether a command runs.
    pub fn some_run(&self) -> bool {
        !self.commands.is_empty()
    }

    /// Whether a command runs that has not ended, also if it was not taken in.
    pub fn some_go_on(&mut self, rt: &HostRuntime) -> bool
        ensures { self.new ≡ self.old }
    {
        some_runs(rt, &mut self.commands)
    }

    /// Runs a command alone, with the program's own input and output, and answers whether it ended well. It is none of those that are told.
    pub fn run_apart<W: Write>(
        &mut self,
        rt: &HostRuntime,
        command: &str,
        watch: &mut Watch<'_>,
        screen: &mut Terminal<W>,
    ) -> io::Result<bool>
        ensures same { self.new ≡ self.old }
        ensures ended { IfOk result EndedSo }
    {
        read_once(self.alloc, &mut self.environment)?;
        let mut commands = start_alone(self.alloc, command, known(&self.environment))?;
        let End { ok, signal, .. } = end_of(rt, &mut commands, watch, screen)?;
        tell_signal(self.alloc, rt, signal, screen);
        Ok(ok)
    }

    /// Waits until all commands have ended. What was told so far is told of before, and no command runs.
    pub fn restart(&mut self, rt: &HostRuntime, watch: &mut Watch<'_>)
        ensures { self.new ≡ restarted self.old }
    {
        wait_all(
            rt,
            mem::replace(&mut self.commands, Vec::new(self.alloc)),
            watch,
        );
        self.before = self.events.len();
    }
}

/// Starts a command with the program's own input and output.
fn start_alone(alloc: Global, command: &str, environment: &[u8]) -> io::Result<Vec<Running>>
    ensures { IfOk result (λ commands. 0 < vec_len commands) }
{
    let tracing = Tracing::none(alloc);
    let mut commands = Vec::new(alloc);
    reserve(&mut commands, 1)?;
    push_reserved(
        &mut commands,
        commands::start(&tracing, 0, command, environment, &mut None)?,
    );
    Ok(commands)
}

/// Waits until one of the commands has ended, and takes it from them.
fn end_of<W: Write>(
    rt: &HostRuntime,
    commands: &mut Vec<Running>,
    watch: &mut Watch<'_>,
    screen: &mut Terminal<W>,
) -> io::Result<End>
    requires { 0 < vec_len commands.old }
    ensures { IfOk result (λ end. EndedSo end.ok) }
{
    let mut round = Round {
        place: 0,
        left: 0,
        some_held: false,
    };
    let place = wait_first(rt, commands, &mut round, watch, screen)?;
    Ok(commands.swap_remove(place).end())
}

/// Reads the variables that commands get, where they are not known yet. Once they are, they stay.
fn read_once(alloc: Global, environment: &mut Option<Vec<u8>>) -> io::Result<()>
    ensures read { OnOk result (IsSome environment.new) }
    ensures kept { IsSome environment.old → environment.new ≡ environment.old }
{
    if environment.is_none() {
        *environment = Some(variables(alloc)?);
    }
    Ok(())
}

/// The variables that are known.
fn known(environment: &Option<Vec<u8>>) -> &[u8]
    requires { IsSome environment.now }
    ensures { IfSome environment.now (λ variables. result.now ≡ variables.items) }
{
    match environment {
        Some(variables) => variables.as_slice(),
        None => unreachable!(),
    }
}

/// Makes room for a number more, where they are kept.
fn reserve_number(numbers: &mut Option<Vec<i32>>) -> Result<(), AllocError> {
    match numbers {
        Some(numbers) => numbers.reserve(1),
        None => Ok(()),
    }
}

/// Keeps a number, where they are kept and there is room.
fn push_number(numbers: &mut Option<Vec<i32>>, number: Option<i32>) {
    if let Some(numbers) = numbers {
        let _ = numbers.push(number.unwrap_or(0));
    }
}

/// The files, if there are some, are for a command that is started beside so many others.
fn set_beside(opened: &mut Option<Opened>, running: usize) {
    if let Some(opened) = opened {
        opened.set_beside(running);
    }
}

/// The start of a command.
fn started(job: usize, act: &Act, stamp: u64) -> Result<Event, AllocError>
    ensures { IfOk result (λ event. event ≡ Event.Start job act.now stamp) }
{
    Ok(Event::Start {
        job,
        act: act.clone()?,
        stamp,
    })
}

/// Makes room for so many items more.
fn reserve<T>(items: &mut Vec<T>, more: usize) -> Result<(), AllocError>
    ensures items { items.new.items ≡ items.old.items }
    ensures ok { OnOk result (length items.new.items + more ≤ vec_capacity items.new) }
    ensures grows { vec_capacity items.old ≤ vec_capacity items.new }
{
    items.reserve(more)
}

/// Adds an item to a list that has room.
fn push_reserved<T>(items: &mut Vec<T>, item: T)
    requires { length items.old.items < vec_capacity items.old }
    ensures items { items.new.items ≡ items.old.items ++ item ∷ [] }
    ensures grows { vec_capacity items.old ≤ vec_capacity items.new }
{
    match items.push(item) {
        Ok(()) => {}
        Err(_) => unreachable!(),
    }
}
