//! What a call did, and what is known of its process then.

ghost use Rattle.std.specs.Prelude.{◌≡◌, IfOk};
ghost use Rattle.trace.specs.Facts.{call_seen};
ghost use Rattle.trace.specs.Steps.{connected, folder_told, has_gone, has_own_root, is_blind, started, step_of, still, swaps, walked_at};

use crate::arguments::{descriptor, first_argument};
use crate::ending::ending_of;
use crate::fact::{Deed, Fact};
use crate::facts::{Paths, goes_up, paths_of, push_facts};
use crate::marks::has;
use crate::parts::Call;
use crate::processes::{Known, copied};
use std::alloc::{AllocError, Global};
use text::{Bytes, Items};

/// What a call did, and what is known of its process then.
#[derive(Debug, Drop)]
pub struct Step {
    /// The folder that the process is in.
    pub folder: Option<Bytes>,
    /// Whether another one may take it to another folder.
    pub shares: bool,
    /// The process that it started.
    pub child: Option<Known>,
    pub facts: Items<Fact>,
}

/// What a call of a process did. None where that cannot be told.
pub fn step_of(alloc: Global, known: &Known, call: &Call<'_>) -> Result<Option<Step>, AllocError>
    ensures { IfOk result (λ step. step ≡ step_of known.now (call_seen call.now)) }
{
    let end = ending_of(call.answer);
    if call.row.does.passes() || end.is_void() {
        return Ok(Some(still(alloc, known)?));
    }
    if end.is_open() || swaps(call) || has_own_root(call) || is_blind(call) {
        return Ok(None);
    }
    if call.row.does.begins_one() {
        return Ok(Some(started(alloc, known, call)?));
    }
    if call.row.does.connects() {
        return Ok(Some(connected(alloc, known, call)?));
    }
    match paths_of(alloc, call, known.folder.as_ref())? {
        Some(paths) => walked(alloc, known, call, &paths),
        None => Ok(None),
    }
}

/// Whether it gives a file another path in a way that is not told here: two files each other's, or with something left behind.
fn swaps(call: &Call<'_>) -> bool
    ensures { result ≡ swaps (call_seen call.now) }
{
    has(call.arguments, b"RENAME_EXCHANGE") || has(call.arguments, b"RENAME_WHITEOUT")
}

/// Whether it takes a name that begins at the root from a folder that is no root to others.
fn has_own_root(call: &Call<'_>) -> bool
    ensures { result ≡ has_own_root (call_seen call.now) }
{
    has(call.arguments, b"RESOLVE_IN_ROOT")
}

/// Whether it opens a file, and what for is not written.
fn is_blind(call: &Call<'_>) -> bool
    ensures { result ≡ is_blind (call_seen call.now) }
{
    call.row.does.opens() && !has(call.arguments, b"O_")
}

/// Nothing was done.
fn still(alloc: Global, known: &Known) -> Result<Step, AllocError>
    ensures { IfOk result (λ step. step ≡ still known.now) }
{
    Ok(Step {
        folder: copied(&known.folder)?,
        shares: known.shares,
        child: None,
        facts: Items::new(alloc),
    })
}

/// A process was started, where the call ended well.
fn started(alloc: Global, known: &Known, call: &Call<'_>) -> Result<Step, AllocError>
    ensures { IfOk result (λ step. step ≡ started known.now (call_seen call.now)) }
{
    let mut step = still(alloc, known)?;
    if ending_of(call.answer).is_well() {
        let lends = has(call.arguments, b"CLONE_FS");
        let number = Bytes::from_slice(alloc, call.answer)?;
        let folder = copied(&known.folder)?;
        step.child = Some(Known::new(number, folder, lends));
        step.shares = known.shares || lends;
    }
    Ok(step)
}

/// A server was asked, unless there is none.
fn connected(alloc: Global, known: &Known, call: &Call<'_>) -> Result<Step, AllocError>
    ensures { IfOk result (λ step. step ≡ connected known.now (call_seen call.now)) }
{
    let mut step = still(alloc, known)?;
    if !ending_of(call.answer).is_missing() {
        step.facts.push(Fact {
            deed: Deed::Connected,
            path: Bytes::from_slice(alloc, b"/")?,
            real: None,
            other: None,
            up: goes_up(b"/"),
            follows: false,
        })?;
    }
    Ok(step)
}

/// What was done at these paths.
fn walked(
    alloc: Global,
    known: &Known,
    call: &Call<'_>,
    paths: &Paths,
) -> Result<Option<Step>, AllocError>
    ensures { IfOk result (λ step. step ≡ walked_at known.now (call_seen call.now) paths.now) }
{
    let has_gone = has_gone(call);
    if has_gone && known.shares {
        return Ok(None);
    }
    let folder = if has_gone {
        Some(paths.path.clone()?)
    } else {
        folder_after(alloc, known, call)?
    };
    let mut facts = Items::new(alloc);
    push_facts(alloc, call, paths, &mut facts)?;
    Ok(Some(Step {
        folder,
        shares: known.shares,
        child: None,
        facts,
    }))
}

/// Whether the process has gone to another folder.
fn has_gone(call: &Call<'_>) -> bool
    ensures { result ≡ has_gone (call_seen call.now) }
{
    call.row.does.goes() && ending_of(call.answer).is_well()
}

/// The folder of the process after a call by which it goes nowhere: the one that the kernel has for it, where the trace tells that.
fn folder_after(alloc: Global, known: &Known, call: &Call<'_>) -> Result<Option<Bytes>, AllocError>
    ensures { IfOk result (λ folder. folder ≡ folder_told known.now (call_seen call.now)) }
{
    if call.arguments.starts_with(b"AT_FDCWD<") {
        return descriptor(alloc, first_argument(call.arguments).0);
    }
    copied(&known.folder)
}
