//! Numbers that a seed determines: xorshift64* (Marsaglia, "Xorshift RNGs", 2003; Vigna, 2016).
ghost use Rattle.std.specs.Prelude.{◌<◌};

const SPREAD: u64 = 0x9E37_79B9_7F4A_7C15;

const FACTOR: u64 = 0x2545_F491_4F6C_DD1D;

/// A row of numbers.
#[derive(Drop)]
pub struct Random {
    state: u64,
}

impl Random {
    /// The row of a seed.
    pub fn new(seed: u64) -> Random {
        let state = seed.wrapping_mul(SPREAD).wrapping_add(FACTOR) | 1;
        Random { state }
    }

    fn next(&mut self) -> u64 {
        let mut state = self.state;
        state ^= state >> 12;
        state ^= state << 25;
        state ^= state >> 27;
        self.state = state;
        state.wrapping_mul(FACTOR) >> 24
    }

    /// The next number, below a limit.
    pub fn below(&mut self, limit: usize) -> usize
        requires { 0 < limit }
        ensures { result < limit }
    {
        self.next() as usize % limit
    }

    /// Whether the next number is one of the lower this many of a hundred.
    pub fn is_in(&mut self, percent: usize) -> bool {
        self.below(100) < percent
    }

    /// One of some bytes, and 0 where there is none.
    pub fn of(&mut self, bytes: &[u8]) -> u8 {
        if bytes.is_empty() {
            return 0;
        }
        bytes[self.below(bytes.len())]
    }
}
