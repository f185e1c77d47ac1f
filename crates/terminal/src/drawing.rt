//! Drawings, as they are written.

ghost use Rattle.std.specs.Prelude.{◌≡◌, ℕ, List, ◌++◌, [], IfOk, OnOk};
ghost use Rattle.terminal.specs.Screen.{Over, Shows, drawing, piece_text, up, written};

use std::alloc::{AllocError, Global};

/// From here on lines are cut at the edge.
const CUT: &[u8] = b"\x1b[?7l";

/// From here on they are wrapped.
const WRAP: &[u8] = b"\x1b[?7h";

/// One row up.
const UP: &[u8] = b"\x1b[A";

/// To the first column, and all from there on is erased.
const ERASE: &[u8] = b"\r\x1b[J";

/// What is written to show the new rows in the place of the old ones, with what stays above them. Where there are neither, what stays is
/// written as it is.
pub fn shown(
    alloc: Global,
    old_rows: &[u8],
    stays: &[u8],
    new_rows: &[u8],
) -> Result<Vec<u8>, AllocError>
    ensures { IfOk result (λ bytes. Shows old_rows.now bytes.items stays.now new_rows.now) }
{
    if old_rows.is_empty() && new_rows.is_empty() {
        return as_it_is(alloc, stays);
    }
    let bytes = drawing(alloc, old_rows, stays, new_rows)?;
    Ok(bytes)
}

/// What is written so that all is as it was.
pub fn nothing(alloc: Global) -> Vec<u8>
    ensures { (rows : List ℕ) → Shows rows result.items [] rows }
{
    Vec::new(alloc)
}

/// What is written to show a text where no rows are drawn.
pub fn as_it_is(alloc: Global, text: &[u8]) -> Result<Vec<u8>, AllocError>
    ensures { IfOk result (λ bytes. Shows [] bytes.items text.now []) }
{
    let bytes = Vec::from_slice(alloc, text)?;
    Ok(bytes)
}

/// The bytes of a drawing: over the old rows, then what stays, then the new rows.
fn drawing(
    alloc: Global,
    old_rows: &[u8],
    stays: &[u8],
    new_rows: &[u8],
) -> Result<Vec<u8>, AllocError>
    ensures { IfOk result (λ bytes. bytes.items ≡ written (drawing old_rows.now stays.now new_rows.now)) }
{
    let mut bytes = Vec::with_capacity(
        alloc,
        stays
            .len()
            .saturating_add(new_rows.len())
            .saturating_add(64),
    )?;
    bytes.extend_from_slice(CUT)?;
    push_over(&mut bytes, old_rows)?;
    bytes.extend_from_slice(WRAP)?;
    bytes.extend_from_slice(stays)?;
    bytes.extend_from_slice(CUT)?;
    bytes.extend_from_slice(new_rows)?;
    bytes.extend_from_slice(WRAP)?;
    Ok(bytes)
}

/// Goes up over these rows, and erases them. Where there are none, it does nothing.
fn push_over(bytes: &mut Vec<u8>, rows: &[u8]) -> Result<(), AllocError>
    ensures { OnOk result (bytes.new.items ≡ bytes.old.items ++ piece_text (Over rows.now)) }
{
    if rows.is_empty() {
        return Ok(());
    }
    for byte in rows {
        push_up(bytes, *byte)?;
    }
    bytes.extend_from_slice(ERASE)?;
    Ok(())
}

/// One row up where a line ends.
fn push_up(bytes: &mut Vec<u8>, byte: u8) -> Result<(), AllocError>
    ensures { OnOk result (bytes.new.items ≡ bytes.old.items ++ up byte) }
{
    if byte == b'\n' {
        bytes.extend_from_slice(UP)?;
    }
    Ok(())
}
