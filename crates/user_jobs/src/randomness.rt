//! Numbers that look random, the same for the same seed on each machine.
/// What the state goes on by at each number: odd, so that it meets every state.
const STEP: u64 = 0x9e37_79b9_7f4a_7c15;

/// A source of numbers that look random: SplitMix64.
#[derive(Clone, Copy, Debug)]
pub struct Random {
    state: u64,
}

impl Random {
    /// A source from a seed.
    pub fn new(seed: u64) -> Random {
        Random { state: mixed(seed) }
    }

    /// A source of other numbers, for a part of the work with this number. It leaves this one
    /// unchanged.
    pub fn branch(&self, number: u64) -> Random {
        Random {
            state: mixed(self.state ^ mixed(number.wrapping_add(STEP))),
        }
    }

    /// The next number, of 64 bits.
    pub fn next(&mut self) -> u64 {
        self.state = self.state.wrapping_add(STEP);
        mixed(self.state)
    }
}

/// A number whose bits each depend on all bits of this one. No two numbers give the same.
pub fn mixed(number: u64) -> u64 {
    let once = (number ^ (number >> 30)).wrapping_mul(0xbf58_476d_1ce4_e5b9);
    let twice = (once ^ (once >> 27)).wrapping_mul(0x94d0_49bb_1331_11eb);
    twice ^ (twice >> 31)
}
