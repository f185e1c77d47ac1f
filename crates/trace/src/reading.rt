//! What a trace tells.

ghost use Rattle.std.specs.Prelude.{◌≡◌, [], IfOk, Some, None, if◌then◌else◌};
ghost use Rattle.trace.specs.Lines.{IsTold, after_text_of, nothing_yet};

use crate::fact::Fact;
use crate::lines::Reached;
use crate::marks::cut;
use std::alloc::{AllocError, Global};
use text::Items;

/// What a trace tells.
#[derive(Debug, Drop)]
pub enum Told {
    /// What the processes did, in the order in which they had done it.
    Facts(Items<Fact>),
    /// There is a line that is not understood, or the trace is cut off.
    NotUnderstood,
}

/// What this trace tells of a command that began in this folder: all that its processes did at paths, or that it is not understood. It is
/// a trace by `strace` of version 6 with `-f -y -xx`, of calls about files and processes; each call that is told has its place in it.
pub fn read(alloc: Global, start: &[u8], trace: &[u8]) -> Result<Told, AllocError>
    ensures { IfOk result (IsTold start.now trace.now) }
{
    let mut reached = Reached::new(alloc);
    if !take_lines(alloc, start, trace, &mut reached)? {
        return Ok(Told::NotUnderstood);
    }
    let Reached {
        processes,
        facts,
        ..
    } = reached;
    if !processes.is_empty() || facts.is_empty() {
        return Ok(Told::NotUnderstood);
    }
    Ok(Told::Facts(facts))
}

/// Reads all lines: whether they are understood, and the last is not cut off.
fn take_lines(
    alloc: Global,
    start: &[u8],
    trace: &[u8],
    reached: &mut Reached,
) -> Result<bool, AllocError>
    ensures { IfOk result (λ is. after_text_of start.now reached.old trace.now ≡ (if is then Some reached.new else None)) }
{
    let mut rest = trace;
    'lines: while !rest.is_empty() {
        let Some((line, next)) = cut(rest, b"\n") else {
            return Ok(false);
        };
        if !reached.take_line(alloc, start, line)? {
            return Ok(false);
        }
        rest = next;
    }
    Ok(true)
}
