//! A digest of bytes and numbers.

/// What was put in so far, in short: as FNV-1a of 64 bits, by words in place of bytes.
#[derive(Drop)]
pub struct Digest {
    value: u64,
}

impl Digest {
    pub fn new() -> Digest {
        Digest {
            value: 0xCBF2_9CE4_8422_2325,
        }
    }

    pub fn value(&self) -> u64 {
        self.value
    }

    /// A number in one step.
    pub fn number(&mut self, number: u64) {
        self.value = with(self.value, number);
    }

    /// How many there are of something, or a place.
    pub fn count(&mut self, count: usize) {
        self.number(count as u64);
    }

    /// The bytes of a text, and how many there are.
    pub fn text(&mut self, text: &str) {
        self.bytes(text.as_bytes());
    }

    /// The bytes, and how many there are. Logs have many, so they are taken in by four words of eight bytes in one step.
    pub fn bytes(&mut self, bytes: &[u8]) {
        let (words, last) = bytes.as_chunks::<8>();
        let (fours, others) = words.as_chunks::<4>();
        self.value = with_fours(self.value, fours);
        for word in others {
            self.number(u64::from_le_bytes(*word));
        }
        for byte in last {
            self.number(u64::from(*byte));
        }
        self.count(bytes.len());
    }
}

fn with(value: u64, number: u64) -> u64 {
    let product = (value ^ number).wrapping_mul(0x0100_0000_01B3);
    product ^ (product >> 29)
}

/// Each word of four has a factor of its own, so that none waits for another.
fn with_fours(value: u64, fours: &[[[u8; 8]; 4]]) -> u64 {
    let mut value = value;
    for [first, second, third, fourth] in fours {
        let others = u64::from_le_bytes(*second)
            .wrapping_mul(0x9E37_79B9_7F4A_7C15)
            .wrapping_add(u64::from_le_bytes(*third).wrapping_mul(0xBF58_476D_1CE4_E5B9))
            .wrapping_add(u64::from_le_bytes(*fourth).wrapping_mul(0x94D0_49BB_1331_11EB));
        value = with(value, u64::from_le_bytes(*first)).wrapping_add(others);
    }
    value
}
