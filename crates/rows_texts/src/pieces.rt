//! Logs whose text comes in two pieces.

use crate::asked::Kind;
use crate::logs::Told;
use log_text::{BuildLog, DepsLog, Pieces, Records, Stock, Tail};
use std::alloc::{AllocError, Global};
use text::Takes;

/// Whether a log tells something else where its text comes in these two pieces than where it is read at once.
pub fn is_other(
    alloc: Global,
    kind: Kind,
    whole: &Told,
    front: &[u8],
    back: &[u8],
) -> Result<bool, AllocError> {
    match kind {
        Kind::BuildLog => is_other_of::<BuildLog>(alloc, whole, front, back),
        _ => is_other_of::<DepsLog>(alloc, whole, front, back),
    }
}

fn is_other_of<L: Records>(
    alloc: Global,
    whole: &Told,
    front: &[u8],
    back: &[u8],
) -> Result<bool, AllocError> {
    let (log, tail) = read_in_two::<L>(alloc, front, back)?;
    let compacted = log.compacted(alloc)?;
    Ok(
        tail != whole.tail
            || log.records() != whole.records
            || compacted.as_slice() != whole.compacted.as_slice(),
    )
}

fn read_in_two<L: Records>(
    alloc: Global,
    front: &[u8],
    back: &[u8],
) -> Result<(L, Tail), AllocError> {
    let mut pieces = Pieces::<L>::new(Stock::new(alloc));
    pieces.take(front)?;
    pieces.take(back)?;
    Ok(pieces.finish())
}
