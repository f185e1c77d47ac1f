//! What may have been meant in place of an unknown word.

use crate::fault::Near;
use paths::{PathId, Paths};
use std::alloc::{AllocError, Global};
use strsim::levenshtein;
use text::Text;

/// So many edits are a slip of the hand, and more are another word.
const MOST_EDITS: usize = 3;

/// How many pairs of bytes are compared for one word: with paths of sixty bytes and as many in the word, these are 27,000 paths, and some
/// tenths of a second.
const MOST_PAIRS: usize = 100_000_000;

/// The path that is most like an unknown target, if one is much like it; of several the one that was read first. `clean` and `help`
/// have answers of their own. Where there are very many paths, the last ones are not looked at.
pub fn near(alloc: Global, paths: &Paths, target: &str) -> Result<Near, AllocError> {
    match target {
        "clean" => Ok(Near::Clean),
        "help" => Ok(Near::Help),
        _ => near_path(alloc, paths, target),
    }
}

fn near_path(alloc: Global, paths: &Paths, target: &str) -> Result<Near, AllocError> {
    let mut nearest = Near::Nothing;
    let mut least = MOST_EDITS + 1;
    let mut pairs = MOST_PAIRS;
    for place in 0..paths.len() {
        if let Some(path) = PathId::at(place).and_then(|number| paths.get(number)) {
            let edits = edits(alloc, path, target, &mut pairs)?;
            if edits < least {
                least = edits;
                nearest = Near::Path(Text::from_str(alloc, path)?);
            }
        }
    }
    Ok(nearest)
}

/// How many edits lead from one text to the other, or more than are a slip, also where too few pairs of bytes are left to be compared.
fn edits(alloc: Global, one: &str, other: &str, pairs: &mut usize) -> Result<usize, AllocError> {
    if one.len().abs_diff(other.len()) > MOST_EDITS * 4 {
        return Ok(usize::MAX);
    }
    let needed = one.len().saturating_mul(other.len());
    if needed > *pairs {
        return Ok(usize::MAX);
    }
    *pairs = pairs.saturating_sub(needed);
    levenshtein(alloc, one, other)
}

/// The word that is most like this one, if one is much like it; of several the first.
pub fn near_word(
    alloc: Global,
    words: &[&'static str],
    asked: &str,
) -> Result<Option<&'static str>, AllocError> {
    let mut nearest = None;
    let mut least = MOST_EDITS + 1;
    let mut pairs = MOST_PAIRS;
    for word in words {
        let edits = edits(alloc, word, asked, &mut pairs)?;
        if edits < least {
            least = edits;
            nearest = Some(*word);
        }
    }
    Ok(nearest)
}
