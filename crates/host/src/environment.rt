//! The variables that the program was started with, to be handed on to commands.

ghost use Rattle.std.specs.Prelude.{IfOk};
ghost use Rattle.host.specs.Environment.{IsBlock};

use crate::words::push_word;
use std::alloc::Global;
use std::io;

/// A variable mostly fits into so many bytes.
const ROOM: usize = 1 << 12;

/// No system hands a program a variable of so many bytes.
const MOST: usize = 1 << 28;

/// The variables that the program was started with, in their order and byte for byte, each ended by a NUL: also those that are no text, and
/// those without a name. They are read one by one from the environment of the C library, which nothing here changes. None is left out: where
/// one cannot be read whole or has a NUL, that is a fault, `ArgumentListTooLong` or `InvalidInput`.
pub fn variables(alloc: Global) -> io::Result<Vec<u8>>
    ensures { IfOk result (λ block. IsBlock block.items) }
{
    let mut block = Vec::new(alloc);
    let mut room = vec![in alloc; 0u8; ROOM]?;
    let mut place = 0;
    for _ in 0..usize::MAX {
        let length = os::env_at(place, room.as_mut_slice());
        match os::errno() {
            0 => {
                push_word(&mut block, &room[..length])?;
                place = place.saturating_add(1);
            }
            libc::EINVAL => return Ok(block),
            _ => room = wider(alloc, room.len())?,
        }
    }
    Err(too_long())
}

/// A room that is twice as wide.
fn wider(alloc: Global, width: usize) -> io::Result<Vec<u8>> {
    let width = width.saturating_mul(2);
    if width > MOST {
        return Err(too_long());
    }
    Ok(vec![in alloc; 0u8; width]?)
}

fn too_long() -> io::Error {
    io::Error::from_raw_os_error(libc::E2BIG)
}
