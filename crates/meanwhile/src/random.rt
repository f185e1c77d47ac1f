//! Numbers that look random, the same each time.

#[derive(Drop)]
pub struct Random {
    state: u64,
}

impl Random {
    pub fn new(seed: u64) -> Random {
        Random { state: seed }
    }

    /// The next number.
    fn number(&mut self) -> usize {
        self.state = self
            .state
            .wrapping_mul(0x5851_F42D_4C95_7F2D)
            .wrapping_add(0x1405_7B7E_F767_814F);
        (self.state >> 33) as usize
    }

    /// A number below the bound.
    pub fn below(&mut self, bound: usize) -> usize {
        self.number().checked_rem(bound).unwrap_or(0)
    }

    /// Whether the one of so many cases is there.
    pub fn one_in(&mut self, cases: usize) -> bool {
        self.below(cases) == 0
    }

    /// One of the parts of a text, which have this mark between.
    pub fn part<'a>(&mut self, text: &'a str, mark: char) -> &'a str {
        let count = text.split(mark).count();
        text.split(mark).nth(self.below(count)).unwrap_or("")
    }
}
