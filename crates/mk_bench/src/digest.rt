//! A digest of all bytes that a job gives, however they are cut.

const WORD: usize = 8;

const FACTOR: u64 = 0x9E37_79B9_7F4A_7C15;

const TURN: u32 = 23;

/// The digest of the bytes so far. Up to seven of them wait for the next.
#[derive(Debug, Drop)]
pub struct Digest {
    value: u64,
    waiting: u64,
    count: u64,
}

impl Digest {
    /// That of no byte.
    pub fn new() -> Digest {
        Digest {
            value: 1,
            waiting: 0,
            count: 0,
        }
    }

    fn mix(&mut self, word: u64) {
        self.value = (self.value ^ word).wrapping_mul(FACTOR).rotate_left(TURN);
    }

    fn add_byte(&mut self, byte: u8) {
        self.waiting = self.waiting << 8 | byte as u64;
        self.count = self.count.wrapping_add(1);
        if self.count % WORD as u64 == 0 {
            self.mix(self.waiting);
        }
    }

    fn add_word(&mut self, word: &[u8; WORD]) {
        self.waiting = u64::from_be_bytes(*word);
        self.count = self.count.wrapping_add(WORD as u64);
        self.mix(self.waiting);
    }

    /// Takes bytes.
    pub fn add(&mut self, bytes: &[u8]) {
        let lacking = (WORD as u64 - self.count % WORD as u64) as usize % WORD;
        let (front, rest) = bytes.split_at(lacking.min(bytes.len()));
        for byte in front {
            self.add_byte(*byte);
        }
        let (words, left) = rest.as_chunks::<WORD>();
        for word in words {
            self.add_word(word);
        }
        for byte in left {
            self.add_byte(*byte);
        }
    }

    /// Takes a number.
    pub fn add_number(&mut self, number: u64) {
        self.add(&number.to_be_bytes());
    }

    /// The digest.
    pub fn value(&self) -> u64 {
        let end = (self.value ^ self.waiting).wrapping_mul(FACTOR) ^ self.count;
        end.wrapping_mul(FACTOR)
    }
}
