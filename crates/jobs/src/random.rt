//! Numbers that look random, the same each time.

#[derive(Drop)]
pub struct Random {
    state: u64,
}

impl Random {
    /// The numbers of this seed. It is mixed before it becomes the state, so that seeds beside one another give other numbers.
    pub fn new(seed: u64) -> Random {
        Random { state: mixed(seed) }
    }

    /// The next number below the bound: xorshift over a counter, as in splitmix64.
    pub fn below(&mut self, bound: usize) -> usize {
        self.state = self.state.wrapping_add(0x9E37_79B9_7F4A_7C15);
        let number = (mixed(self.state) >> 33) as usize;
        number.checked_rem(bound).unwrap_or(0)
    }
}

/// Another number for each number, far away also where these are beside one another: how splitmix64 ends.
fn mixed(number: u64) -> u64 {
    let mut mixed = number;
    mixed = (mixed ^ (mixed >> 30)).wrapping_mul(0xBF58_476D_1CE4_E5B9);
    (mixed ^ (mixed >> 27)).wrapping_mul(0x94D0_49BB_1331_11EB)
}
