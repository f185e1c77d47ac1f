//! An audit that is handed to this program once more, below one tracer of it and of all commands.

ghost use Rattle.std.specs.Prelude.{◌≤◌, ◌≡◌, IfOk, IfSome, IsTrue, Some, map, pos};
ghost use Rattle.nj_run.specs.Handed.{AsksAudit, IsHandedFor, IsHandedOn};

use crate::audited::named_here;
use crate::command::options;
use crate::given::Options as Asked;
use crate::tracer::tracer_aside;
use host::{Below, SHARED_TRACE};
use std::alloc::Global;
use std::convert::AsStr;
use std::fs::{File, OpenOptions};
use std::{env, fs, io};

/// The word in front of all others by which the program is told that it runs so.
pub const BELOW: &str = "--below-strace";

/// Where more commands may run at once, each has a tracer of its own: one is a single process, which all would wait for.
const TOGETHER: u32 = 16;

/// Whether the words were handed on.
#[derive(Clone, Copy)]
pub enum Handed {
    /// To the program below a tracer, which has ended with this status.
    Ended(u8),
    /// What they ask for is to be done here, and the folder that they ask for was gone to, or not.
    Stays { is_in_folder: bool },
}

/// Hands these words on where they ask for an audit, one tracer over all commands serves that, and nothing is written where build lines name
/// it. Nothing is told of why they stay.
pub fn hand_on<S: AsStr>(rt: &HostRuntime, words: &[S]) -> Handed
    ensures { IsHandedOn (map S.text words.entry.now) result }
{
    let alloc = rt.alloc();
    if !names_audit(words) {
        return Handed::Stays {
            is_in_folder: false,
        };
    }
    match options(alloc, words) {
        Ok(asked) => hand_asked(alloc, rt, &asked, words),
        Err(_) => Handed::Stays {
            is_in_folder: false,
        },
    }
}

/// Whether one of the words begins as those that ask for an audit. Any other build reads its words once.
fn names_audit<S: AsStr>(words: &[S]) -> bool {
    for word in words {
        if word.as_str().as_bytes().starts_with(b"--audit") {
            return true;
        }
    }
    false
}

fn hand_asked<S: AsStr>(alloc: Global, rt: &HostRuntime, asked: &Asked<'_>, words: &[S]) -> Handed
    ensures { IsHandedFor asked.now result }
{
    let mut is_in_folder = false;
    if !asks_audit(asked) {
        return Handed::Stays { is_in_folder };
    }
    let Some(tracer) = tracer_aside(rt) else {
        return Handed::Stays { is_in_folder };
    };
    if let Some(folder) = asked.folder {
        if env::set_current_dir(rt, folder).is_err() {
            return Handed::Stays { is_in_folder };
        }
        is_in_folder = true;
    }
    match run_below(alloc, rt, asked, tracer.as_str(), words) {
        Ok(Some(status)) => Handed::Ended(status),
        _ => Handed::Stays { is_in_folder },
    }
}

/// Whether an audit is asked for in which few commands run at once. Where their number has no limit they are not few.
fn asks_audit(asked: &Asked<'_>) -> bool
    ensures { IsTrue result → AsksAudit asked.now }
{
    !asked.why && asked.audits() && 0 < asked.jobs && asked.jobs <= TOGETHER
}

/// Runs the program below this tracer, and answers its status; none where build lines name what the trace is written to.
fn run_below<S: AsStr>(
    alloc: Global,
    rt: &HostRuntime,
    asked: &Asked<'_>,
    tracer: &str,
    words: &[S],
) -> io::Result<Option<u8>>
    ensures { IfOk result (λ ended. IfSome ended (λ status. status ≤ 1)) }
{
    let mut unseen = io::sink();
    if named_here(asked, None, &mut unseen, rt)?.is_some() {
        return Ok(None);
    }
    let program = env::current_exe(rt)?;
    match program.to_str() {
        Some(program) => {
            let below = Below {
                tracer,
                program,
                first: BELOW,
            };
            run_held(alloc, rt, &below, words)
        }
        None => Ok(None),
    }
}

/// The same while the file of the trace is held, which is removed then; none where another audit holds it.
fn run_held<S: AsStr>(
    alloc: Global,
    rt: &HostRuntime,
    below: &Below<'_>,
    words: &[S],
) -> io::Result<Option<u8>>
    ensures { IfOk result (λ ended. IfSome ended (λ status. status ≤ 1)) }
{
    if fs::metadata(rt, below.program).is_err() {
        return Ok(None);
    }
    let Some(held) = held_trace(rt)? else {
        return Ok(None);
    };
    let ended = below.run(alloc, words);
    let _ = fs::remove_file(rt, SHARED_TRACE);
    drop(held);
    Ok(Some(status_of(ended?)))
}

/// The status of the program where the one below ended with this one.
fn status_of(below: Option<i32>) -> u8
    ensures range { result ≤ 1 }
    ensures well { result ≡ 0 → below ≡ Some (pos 0) }
{
    match below {
        Some(0) => 0,
        _ => 1,
    }
}

/// The file of the trace, which no other audit in this folder writes as long as it is held; none where one does.
fn held_trace(rt: &HostRuntime) -> io::Result<Option<File>> {
    let file = OpenOptions::new()
        .append(true)
        .create(true)
        .open(rt, SHARED_TRACE)?;
    match file.try_lock() {
        Ok(()) => Ok(Some(file)),
        Err(_) => Ok(None),
    }
}
