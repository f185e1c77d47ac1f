//! Texts that are made up of tokens.

use crate::escapes::unescaped;
use crate::rows::word;
use std::alloc::{AllocError, Global};

/// A text has fewer tokens than this.
const MOST: u64 = 24;

/// Texts that are made up, the same each time.
#[derive(Drop)]
pub struct MadeUp<'a> {
    /// How many texts there are.
    pub count: u64,
    state: u64,
    /// What each text begins with.
    front: &'a str,
    /// What may follow, in any order: words with a space between.
    tokens: &'a str,
}

impl<'a> MadeUp<'a> {
    /// What a row says: `COUNT SEED FRONT TOKEN..`. In a front and in tokens escapes are as in other rows.
    pub fn by(row: &'a str) -> MadeUp<'a> {
        let (count, rest) = word(row);
        let (seed, rest) = word(rest);
        let (front, tokens) = word(rest);
        MadeUp {
            count: count.parse::<u64>().unwrap_or(0),
            state: seed.parse::<u64>().unwrap_or(0),
            front,
            tokens,
        }
    }

    /// The next text.
    pub fn text(&mut self, alloc: Global) -> Result<Vec<u8>, AllocError> {
        let mut text = unescaped(alloc, self.front)?;
        for _ in 0..self.below(MOST) {
            let token = unescaped(alloc, self.token())?;
            text.extend_from_slice(token.as_slice())?;
        }
        Ok(text)
    }

    fn token(&mut self) -> &'a str {
        let count = self.tokens.split(' ').count();
        let place = self.below(count as u64) as usize;
        self.tokens.split(' ').nth(place).unwrap_or("")
    }

    /// A number below the bound.
    fn below(&mut self, bound: u64) -> u64 {
        self.state = self
            .state
            .wrapping_mul(0x5851_F42D_4C95_7F2D)
            .wrapping_add(0x1405_7B7E_F767_814F);
        (self.state >> 33).checked_rem(bound).unwrap_or(0)
    }
}
