//! The words of a tool: letters that switch something, and all others.

use std::alloc::{AllocError, Global};

/// The words of a tool, taken apart.
#[derive(Debug, Drop)]
pub struct Switches<'a> {
    /// The letters that were given, in order.
    pub letters: Vec<u8>,
    /// All other words.
    pub words: Vec<&'a str>,
}

/// Why words of a tool are none.
#[derive(Debug, Drop)]
pub enum Usage {
    Memory,
    /// Help was asked for.
    Help,
    /// There is no such letter.
    Letter(u8),
}

impl From<AllocError> for Usage {
    fn from(_: AllocError) -> Usage {
        Usage::Memory
    }
}

impl<'a> Switches<'a> {
    /// Whether the letter was given.
    pub fn has(&self, letter: u8) -> bool {
        self.letters.as_slice().contains(&letter)
    }
}

/// Takes the words of a tool apart, which has these letters. `-h` and `--help` ask for help; behind `--` all are words.
pub fn split_switches<'a>(
    alloc: Global,
    known: &[u8],
    words: &[&'a str],
) -> Result<Switches<'a>, Usage> {
    let mut found = Switches {
        letters: Vec::new(alloc),
        words: Vec::new(alloc),
    };
    let mut all_words = false;
    for word in words {
        all_words = take(known, word, all_words, &mut found)?;
    }
    Ok(found)
}

/// Takes one word, and answers whether all behind it are words.
fn take<'a>(
    known: &[u8],
    word: &'a str,
    all_words: bool,
    found: &mut Switches<'a>,
) -> Result<bool, Usage> {
    if all_words || word == "-" || !word.starts_with('-') {
        found.words.push(word).map_err(AllocError::from)?;
        return Ok(all_words);
    }
    if word == "--" {
        return Ok(true);
    }
    if word == "--help" {
        return Err(Usage::Help);
    }
    take_letters(known, word.as_bytes(), found)?;
    Ok(false)
}

/// Takes the letters of a word, which begins with a hyphen.
fn take_letters(known: &[u8], word: &[u8], found: &mut Switches<'_>) -> Result<(), Usage> {
    for letter in word.iter().skip(1) {
        if known.contains(letter) {
            found.letters.push(*letter).map_err(AllocError::from)?;
        } else if *letter == b'h' {
            return Err(Usage::Help);
        } else {
            return Err(Usage::Letter(*letter));
        }
    }
    Ok(())
}
