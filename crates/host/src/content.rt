//! Reading a file to its end.

ghost use Rattle.std.specs.Prelude.{OnOk};
ghost use Rattle.text.specs.Handed.{TakesMore};

use std::alloc::{AllocError, Global};
use std::fs::File;
use std::io;
use std::io::{ErrorKind, Read};
use text::Takes;

/// A file of this size is read through a room of its own.
const LARGE: u64 = 1 << 20;

/// How many bytes are read at once.
const ROOM: usize = 1 << 16;

/// How many bytes are copied at once.
const PIECE: usize = 1 << 10;

/// What a file of about this size, in bytes, holds from where the opening stands.
pub fn content_of(alloc: Global, file: &File, size: u64) -> io::Result<Vec<u8>> {
    if size >= LARGE {
        return large_content(alloc, file, size);
    }
    let mut content = Vec::new(alloc);
    let mut file = file;
    file.read_to_end(&mut content)?;
    Ok(content)
}

/// The same of a large file. It is read through a room that stays in the caches, so that the memory of the content is not cleared before
/// it is written.
fn large_content(alloc: Global, file: &File, size: u64) -> io::Result<Vec<u8>> {
    let mut content = Vec::with_capacity(alloc, size as usize)?;
    let mut room = vec![in alloc; 0u8; ROOM]?;
    let mut file = file;
    for _ in 0..u64::MAX {
        match file.read(room.as_mut_slice()) {
            Ok(0) => return Ok(content),
            Ok(count) => append_pieces(&mut content, &room[..count])?,
            Err(error) if error.kind() == ErrorKind::Interrupted => {}
            Err(error) => return Err(error),
        }
    }
    Err(ErrorKind::Other.into())
}

/// Hands what a file holds from where the opening stands to the taker, and says how many bytes that are. The room for a piece is all the
/// memory that it takes.
pub fn hand_content<T: Takes>(alloc: Global, file: &File, taker: &mut T) -> io::Result<u64>
    ensures { OnOk result (TakesMore T.Took taker.old taker.new) }
{
    let mut room = vec![in alloc; 0u8; ROOM]?;
    let mut length = 0u64;
    'pieces: for _ in 0..u64::MAX {
        match hand_piece(file, room.as_mut_slice(), taker)? {
            Some(0) => return Ok(length),
            Some(count) => length = length.saturating_add(count as u64),
            None => {}
        }
    }
    Err(ErrorKind::Other.into())
}

/// Hands the next bytes of a file to the taker, as many as there is room for, and says how many; none at its end. Where the call was
/// interrupted, nothing was read.
fn hand_piece<T: Takes>(file: &File, room: &mut [u8], taker: &mut T) -> io::Result<Option<usize>>
    ensures { OnOk result (TakesMore T.Took taker.old taker.new) }
{
    let mut file = file;
    match file.read(room) {
        Ok(count) => {
            taker.take(&room[..count])?;
            Ok(Some(count))
        }
        Err(error) if error.kind() == ErrorKind::Interrupted => Ok(None),
        Err(error) => Err(error),
    }
}

/// Puts bytes at the end, a piece after another.
fn append_pieces(content: &mut Vec<u8>, bytes: &[u8]) -> Result<(), AllocError> {
    for piece in bytes.chunks(PIECE) {
        content.extend_from_slice(piece)?;
    }
    Ok(())
}
