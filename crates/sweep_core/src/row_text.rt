//! The text of a row.
ghost use Rattle.std.specs.Prelude.{◌≡◌, ◌+◌, ◌≤◌, ◌∷◌, ◌++◌, [], length, decimal};
ghost use Rattle.sweep_core.specs.Space.{bytes_of};
ghost use Rattle.sweep_core.specs.SweepText.{row_of};
ghost use Rattle.sweep_core.specs.FullText.{full_row_of};

use crate::space::Config;
use cache_core::Counts;
use full_profile::FullCounts;
use itoa::write_digits;
use std::marker::Model;
use trace_core::text::DECIMAL;

/// The most bytes that a row has: eleven numbers in a full one, and what stands after each.
const CAPACITY: usize = 11 * (DECIMAL + 1);

/// The text of a row. It is put together from its end, so that the digits of a number, which are
/// made from the last to the first, are made where they stay.
#[derive(Drop)]
pub(crate) struct RowText {
    bytes: [u8; CAPACITY],
    /// Where the text begins, which goes to the end of `bytes`.
    start: usize,
}

impl Model for RowText {
    ghost use Rattle.std.specs.Prelude.{◌≤◌, List, ℕ, length, drop};

    ghost Value = { List ℕ };

    ghost view = { λ t. drop t.start t.bytes };

    ghost invariant = { λ t. t.start ≤ length t.bytes };
}

impl RowText {
    /// An empty text.
    pub(crate) fn new() -> Self
        ensures { result ≡ [] }
    {
        RowText {
            bytes: [0; CAPACITY],
            start: CAPACITY,
        }
    }

    /// Its bytes.
    pub(crate) fn as_slice(&self) -> &[u8]
        ensures { result.now ≡ self.now }
    {
        &self.bytes[self.start..]
    }

    /// Puts the row of a configuration, whose size is `bytes`, in place of what it held.
    pub(crate) fn set(&mut self, config: &Config, bytes: u64, counts: Counts)
        requires { bytes ≡ bytes_of config.now }
        ensures { self.new ≡ row_of config.now counts }
    {
        self.clear();
        self.put_in_front(counts.evictions, b'\n');
        self.put_in_front(counts.misses, b',');
        self.put_in_front(counts.hits, b',');
        self.put_in_front(bytes, b',');
        self.put_in_front(config.assoc, b',');
        self.put_in_front(config.sets, b',');
        self.put_in_front(config.bsize, b',');
    }

    /// Puts the full row of a configuration, whose size is `bytes`, in place of what it held.
    pub(crate) fn set_full(&mut self, config: &Config, bytes: u64, counts: FullCounts)
        requires { bytes ≡ bytes_of config.now }
        ensures { self.new ≡ full_row_of config.now counts }
    {
        self.clear();
        self.put_in_front(counts.copybacks, b'\n');
        self.put_in_front(counts.write_misses, b',');
        self.put_in_front(counts.read_misses, b',');
        self.put_in_front(counts.fetch_misses, b',');
        self.put_in_front(counts.evictions, b',');
        self.put_in_front(counts.misses, b',');
        self.put_in_front(counts.hits, b',');
        self.put_in_front(bytes, b',');
        self.put_in_front(config.assoc, b',');
        self.put_in_front(config.sets, b',');
        self.put_in_front(config.bsize, b',');
    }

    /// Makes it empty.
    fn clear(&mut self)
        ensures { self.new ≡ [] }
    {
        self.start = CAPACITY;
    }

    /// Puts a number, and what stands after it, in front.
    fn put_in_front(&mut self, number: u64, after: u8)
        requires { length self.old + DECIMAL + 1 ≤ CAPACITY }
        ensures text { self.new ≡ decimal number ++ after ∷ self.old }
        ensures short { length self.new ≤ length self.old + DECIMAL + 1 }
    {
        let end = self.start - 1;
        self.bytes[end] = after;
        self.start = write_digits(number, &mut self.bytes, end);
    }
}
