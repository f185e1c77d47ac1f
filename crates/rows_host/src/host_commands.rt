//! Real commands, on sites of their own.

ghost use Rattle.std.specs.Prelude.{◌≡◌, true, false, OnOk};
ghost use Rattle.host.specs.World.{world_of, fresh};
ghost use Rattle.model.specs.World.{runs};

use host::Host;
use model::{Act, Finished};
use site::{Site, SiteFault};
use std::alloc::{AllocError, Global};
use std::fs;
use std::io::Write;
use tables::{push_word, word};
use text::{SharedText, Text};

/// An act with this command.
fn act(alloc: Global, command: &str) -> Result<Act, AllocError> {
    Ok(Act {
        command: SharedText::from_str(alloc, command)?,
        depfile: Text::new(alloc),
        response_path: Text::new(alloc),
        response_content: SharedText::new(),
    })
}

/// A command that waits up to twenty seconds for a file, and fails where it does not come.
fn waiting_for(alloc: Global, path: &str) -> Result<Act, AllocError> {
    let command = format!(in alloc;
        "n=0; while test ! -e {path} && test $n -lt 2000; do sleep 0.01; n=$((n+1)); done; test -e {path}"
    )?;
    act(alloc, command.as_str())
}

/// Starts the command of this job, which then runs.
fn start<W: Write>(host: &mut Host<'_, W>, job: usize, act: &Act) -> Result<(), SiteFault>
    requires { runs job (world_of host.old).events ≡ false }
    ensures { OnOk result (runs job (world_of host.new).events ≡ true) }
{
    host.start(job, act, false)?;
    Ok(())
}

/// What a row tells of commands on a site of its own.
pub fn told_of(rt: &HostRuntime, first: &str, rest: &str) -> Result<String, SiteFault> {
    let alloc = rt.alloc();
    let (one, other) = word(rest);
    let mut host = Host::new(alloc, rt, Vec::new(alloc));
    let told = match first {
        "whichever" => whichever(rt, &mut host, one, other),
        "restarted" => restarted(rt, &mut host, one, other),
        _ => printed(rt, &mut host, rest),
    };
    told
}

/// `whichever EARLY LATE`: two commands wait for the files `one` and `two`, of which the early one comes before the wait for
/// the site, and the late one behind it. Told is what was taken in, and how many starts and ends there are once both have ended.
fn whichever<W: Write>(
    rt: &HostRuntime,
    host: &mut Host<'_, W>,
    early: &str,
    late: &str,
) -> Result<String, SiteFault>
    requires { (world_of host.old) ≡ fresh }
{
    let finished = first_ended(rt, host, early)?;
    put(rt, late, "")?;
    host.restart();
    told(rt.alloc(), &finished, host.events().len())
}

/// What the site takes in of two commands, once the early file is there.
fn first_ended<W: Write>(
    rt: &HostRuntime,
    host: &mut Host<'_, W>,
    early: &str,
) -> Result<Finished, SiteFault>
    requires { (world_of host.old) ≡ fresh }
{
    let first = waiting_for(rt.alloc(), "one")?;
    let second = waiting_for(rt.alloc(), "two")?;
    host.start(1, &first, false)?;
    start(host, 2, &second)?;
    put(rt, early, "")?;
    host.wait_any()
}

/// Somebody writes a file.
fn put(rt: &HostRuntime, path: &str, text: &str) -> Result<(), SiteFault> {
    fs::write(rt, path, text).map_err(|_| SiteFault::Device)
}

/// `printed COMMAND`: runs the command as job 7, and tells what was taken in.
fn printed<W: Write>(
    rt: &HostRuntime,
    host: &mut Host<'_, W>,
    command: &str,
) -> Result<String, SiteFault>
    requires { (world_of host.old) ≡ fresh }
{
    start(host, 7, &act(rt.alloc(), command)?)?;
    let finished = host.wait_any()?;
    told(rt.alloc(), &finished, host.events().len())
}

/// `restarted PATH COMMAND`: runs the command with the terminal, starts the site again while it runs, and tells whether the file
/// is there then, and how many events.
fn restarted<W: Write>(
    rt: &HostRuntime,
    host: &mut Host<'_, W>,
    path: &str,
    command: &str,
) -> Result<String, SiteFault>
    requires { (world_of host.old) ≡ fresh }
{
    host.start(1, &act(rt.alloc(), command)?, true)?;
    host.restart();
    let is_there = fs::exists(rt, path).map_err(|_| SiteFault::Device)?;
    let found = if is_there { "there" } else { "none" };
    Ok(format!(in rt.alloc(); "{found}, {} events", host.events().len())?)
}

fn told(alloc: Global, finished: &Finished, events: usize) -> Result<String, SiteFault> {
    let end = if finished.ok { "well" } else { "failed" };
    let mut told = format!(in alloc; "job {} {end}, {events} events", finished.job)?;
    if !finished.output.as_slice().is_empty() {
        let output = String::from_utf8_lossy(alloc, finished.output.as_slice())?;
        push_word(&mut told, output.as_str())?;
    }
    Ok(told)
}
