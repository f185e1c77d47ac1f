//! Words that are handed to a process: each is ended by a NUL.

ghost use Rattle.std.specs.Prelude.{◌≡◌, ◌++◌, ◌∷◌, [], OnOk};
ghost use Rattle.os.specs.Paths.{HasNoNul};

use std::alloc::AllocError;
use std::io;
use std::io::ErrorKind;

/// What is said of a word that cannot be handed over.
const HAS_NUL: &str = "nul byte found in provided data";

/// Adds a word, and the NUL that ends it. One with a NUL cannot be handed over: `InvalidInput`.
pub fn push_word(words: &mut Vec<u8>, word: &[u8]) -> io::Result<()>
    ensures whole { OnOk result (HasNoNul word.now) }
    ensures pushed { OnOk result (words.new.items ≡ (words.old.items ++ word.now) ++ 0 ∷ []) }
{
    without_nul(word)?;
    words.extend_from_slice(word)?;
    words.push(0).map_err(AllocError::from)?;
    Ok(())
}

fn without_nul(word: &[u8]) -> io::Result<()>
    ensures { OnOk result (HasNoNul word.now) }
{
    if os::name_length(word) < word.len() {
        return Err(io::Error::new(ErrorKind::InvalidInput, HAS_NUL));
    }
    Ok(())
}
