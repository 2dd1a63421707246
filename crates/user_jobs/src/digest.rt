//! A digest of the bytes that a command writes.
ghost use Rattle.std.specs.Prelude.{◌≡◌, ◌<◌};

use std::io::{self, Write};

/// An odd number, by which each word is spread over the digest.
const FACTOR: u64 = 0x9fb2_1c65_1e98_df25;

/// A writer that keeps no bytes, but a number that depends on all of them in their order. It is
/// the same in whatever pieces they are written.
#[derive(Clone, Copy, Debug)]
pub struct Digest {
    state: u64,
    /// The last bytes that make no whole word of 8 yet, the latest the highest.
    rest: u64,
    count: u64,
}

impl Digest {
    /// The digest of no bytes.
    pub fn new() -> Digest {
        Digest {
            state: 0,
            rest: 0,
            count: 0,
        }
    }

    /// How many bytes were written, as 64 bits count.
    pub fn count(&self) -> u64
        ensures { result ≡ self.now.count }
    {
        self.count
    }

    /// A number that depends on all the bytes.
    pub fn value(&self) -> u64 {
        let last = stirred(self.state, self.rest);
        stirred(last, self.count)
    }

    /// Takes a byte. After each eighth they go into the digest as a word.
    fn push(&mut self, byte: u8) {
        self.rest = (self.rest >> 8) | (u64::from(byte) << 56);
        self.count = self.count.wrapping_add(1);
        if self.count % 8 == 0 {
            self.state = stirred(self.state, self.rest);
            self.rest = 0;
        }
    }

    /// Takes bytes one by one.
    fn push_each(&mut self, bytes: &[u8]) {
        for byte in bytes {
            self.push(*byte);
        }
    }

    /// Takes words of 8 bytes, where the bytes before were whole words.
    fn push_words(&mut self, words: &[[u8; 8]]) {
        let mut state = self.state;
        for word in words {
            state = stirred(state, u64::from_le_bytes(*word));
        }
        self.state = state;
        self.count = self
            .count
            .wrapping_add((words.len() as u64).wrapping_mul(8));
    }

    /// How many bytes are missing to a whole word.
    fn missing(&self) -> usize
        ensures { result < 8 }
    {
        ((8 - self.count % 8) % 8) as usize
    }
}

impl Write for Digest {
    fn write(&mut self, bytes: &[u8]) -> io::Result<usize> {
        let (first, others) = bytes.split_at(self.missing().min(bytes.len()));
        self.push_each(first);
        let (words, last) = others.as_chunks::<8>();
        self.push_words(words);
        self.push_each(last);
        Ok(bytes.len())
    }

    fn flush(&mut self) -> io::Result<()> {
        Ok(())
    }
}

/// The state after one more word.
fn stirred(state: u64, word: u64) -> u64 {
    (state ^ word).wrapping_mul(FACTOR).rotate_left(29)
}
