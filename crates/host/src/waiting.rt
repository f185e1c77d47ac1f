//! Waiting for the first of several commands.

ghost use Rattle.std.specs.Prelude.{◌≡◌, ◌<◌, ◌≤◌, IfOk, OnOk, IsTrue, vec_len};
ghost use Rattle.host.specs.Process.{HasEndedAt, jobs_of};

use crate::commands::Running;
use crate::rests::Rests;
use crate::watch::Watch;
use std::io::{ErrorKind, Write};
use std::{io, slice};
use terminal::Terminal;

/// Up to so many commands are asked in each round.
const FEW: usize = 64;

/// Of more so many are asked in a round.
const MANY: usize = 256;

/// Where a round of asking stands.
#[derive(Clone, Copy)]
pub struct Round {
    /// Where among the commands it goes on.
    pub place: usize,
    /// How many are asked before the next rest, if none of them has ended.
    pub left: usize,
    /// Whether a command may be held: its process has ended, and another one has its output open.
    pub some_held: bool,
}

/// Waits until one of the commands has ended, and answers its place. They are asked in turn, with rests that grow with the time waited.
/// Each round goes on where the one before stopped, so that no command is asked more often than another. Up to 64 are asked in each round,
/// and at once; of more 256 in each, from one wait to the next, with rests in proportion. The screen is told of each rest.
pub fn wait_first<W: Write>(
    rt: &HostRuntime,
    commands: &mut Vec<Running>,
    round: &mut Round,
    watch: &mut Watch<'_>,
    screen: &mut Terminal<W>,
) -> io::Result<usize>
    requires { 0 < vec_len commands.old }
    ensures jobs { jobs_of commands.new.items ≡ jobs_of commands.old.items }
    ensures ended { IfOk result (λ place. HasEndedAt place commands.new.items) }
{
    let running = commands.len();
    let mut rests = Rests::new(if running > FEW {
        in_a_round(running)
    } else {
        0
    });
    if running <= FEW {
        round.left = running;
    }
    for _ in 0..1u64 << 63 {
        if ask_round(rt, commands, round)? {
            return Ok(round.place);
        }
        if rests.rest(rt) {
            screen.step_aside();
            watch.has_waited_long(commands.as_slice());
        }
        if watch.is_left_alone() {
            return Err(io::Error::from(ErrorKind::BrokenPipe));
        }
        round.some_held = round.some_held && tells_held(commands.as_slice(), watch, screen);
        screen.pass(rt);
        round.left = in_a_round(running);
    }
    Err(io::Error::from(ErrorKind::TimedOut))
}

/// Tells that commands are held, where it is due; rows that are drawn are taken away before that. Whether one is held.
fn tells_held<W: Write>(
    commands: &[Running],
    watch: &mut Watch<'_>,
    screen: &mut Terminal<W>,
) -> bool {
    match watch.held(commands) {
        Some(is_due) => {
            if is_due {
                screen.step_aside();
                watch.tell_held(commands);
            }
            true
        }
        None => false,
    }
}

/// How many of so many commands are asked in a round.
fn in_a_round(running: usize) -> usize
    ensures few { result ≤ running }
{
    running.min(MANY)
}

/// Asks the commands that are left in the round whether they have ended, up to the first one that has: whether there is one. The round
/// stands there then.
fn ask_round(rt: &HostRuntime, commands: &mut Vec<Running>, round: &mut Round) -> io::Result<bool>
    ensures jobs { jobs_of commands.new.items ≡ jobs_of commands.old.items }
    ensures ended { IfOk result (λ asked. IsTrue asked → HasEndedAt round.new.place commands.new.items) }
{
    for _ in 0..round.left.min(commands.len()) {
        if round.place >= commands.len() {
            round.place = 0;
        }
        if ask_at(rt, commands, round.place)? {
            return Ok(true);
        }
        if commands[round.place].was_held() {
            round.some_held = true;
        }
        round.place += 1;
        round.left = round.left.saturating_sub(1);
    }
    Ok(false)
}

/// Whether the command at the place has ended.
#[inline(always)]
fn ask_at(rt: &HostRuntime, commands: &mut Vec<Running>, place: usize) -> io::Result<bool>
    requires { place < vec_len commands.old }
    ensures jobs { jobs_of commands.new.items ≡ jobs_of commands.old.items }
    ensures same { vec_len commands.new ≡ vec_len commands.old }
    ensures ended { IfOk result (λ ended. IsTrue ended → HasEndedAt place commands.new.items) }
{
    commands[place].has_ended(rt)
}

/// Whether one of the commands has not ended. One of which nothing can be told has.
pub fn some_runs(rt: &HostRuntime, commands: &mut Vec<Running>) -> bool
    ensures jobs { jobs_of commands.new.items ≡ jobs_of commands.old.items }
{
    for place in 0..commands.len() {
        if let Ok(false) = ask_at(rt, commands, place) {
            return true;
        }
    }
    false
}

/// Waits until all of the commands have ended, and removes the files into which they printed.
pub fn wait_all(rt: &HostRuntime, commands: Vec<Running>, watch: &mut Watch<'_>) {
    for mut command in commands {
        wait_for(rt, &mut command, watch);
        if let Some(printed) = command.into_printed() {
            printed.remove(rt);
        }
    }
}

/// Waits until the command has ended, or nothing can be told of it.
fn wait_for(rt: &HostRuntime, command: &mut Running, watch: &mut Watch<'_>) {
    let mut rests = Rests::new(0);
    for _ in 0..1u64 << 63 {
        match command.has_ended(rt) {
            Ok(false) => {
                if rests.rest(rt) {
                    watch.has_waited_long(slice::from_ref(command));
                }
                if watch.held(slice::from_ref(command)) == Some(true) {
                    watch.tell_held(slice::from_ref(command));
                }
            }
            _ => return,
        }
    }
}
