//! Copybacks, counted for all associativities at once.
ghost use Rattle.std.specs.Prelude.{◌≡◌, ◌+◌, ◌-◌, ◌*◌, ◌^◌, ◌<◌, ◌≤◌, IfOk, length, sum, take};
ghost use Rattle.std.specs.Prelude.{drop};
ghost use Rattle.full_profile.specs.internal.Copies.{no_copies, with_copy, with_copies_of};
ghost use Rattle.full_profile.specs.internal.Copies.{up_to_of};

use std::alloc::{AllocError, Global};
use std::marker::Model;

/// Why lists are emptied. A `Flush` copies back all dirty blocks. At the `End` of a trace the
/// blocks that a cache still holds stay there, and only those that it evicted were copied back.
#[derive(Debug, Clone, Copy)]
pub enum Emptying {
    Flush,
    End,
}

impl Emptying {
    /// The most ways of a cache that copies back the block at this index of a list, if the block is
    /// dirty there.
    #[inline(always)]
    pub fn up_to(self, depth: usize, index: usize) -> usize
        ensures { result ≡ up_to_of self depth index }
    {
        match self {
            Emptying::Flush => depth,
            Emptying::End => index,
        }
    }
}

/// Copybacks: each in the caches of more than `above` ways and of at most `up_to`. Two histograms
/// count these ends, so that one copyback takes two additions, whatever the number of caches.
#[derive(Drop)]
pub struct Copies {
    above: Vec<u64>,
    up_to: Vec<u64>,
}

impl Model for Copies {
    ghost use Rattle.full_profile.specs.internal.Copies.{CopiesValue};

    ghost Value = { CopiesValue };

    ghost view = { λ c. record { above = c.above.items; up_to = c.up_to.items } };
}

impl Copies {
    /// No copybacks, for caches of up to `depth` ways. It takes 16 bytes for each and 16 more.
    pub fn new(alloc: Global, depth: usize) -> Result<Copies, AllocError>
        requires { depth ≤ 2 ^ 22 }
        ensures { IfOk result (λ copies. copies ≡ no_copies depth) }
    {
        Ok(Copies {
            above: vec![in alloc; 0; depth + 1]?,
            up_to: vec![in alloc; 0; depth + 1]?,
        })
    }

    /// Counts a copyback in the caches of more than `above` ways and of at most `up_to`, if there
    /// are such.
    #[inline(always)]
    pub fn add(&mut self, above: usize, up_to: usize)
        requires above_within { up_to ≤ length self.old.above }
        requires within { up_to < length self.old.up_to }
        requires above_few { sum self.old.above < 2 ^ 63 }
        requires few { sum self.old.up_to < 2 ^ 63 }
        ensures { self.new ≡ with_copy above up_to self.old }
    {
        if above < up_to {
            self.above[above] += 1;
            self.up_to[up_to] += 1;
        }
    }

    /// Counts the copybacks of a list that is emptied, by the clean depths of its blocks.
    pub fn add_list(&mut self, cleans: &[u32], emptying: Emptying, depth: usize)
        requires short { length cleans.now ≤ depth }
        requires above_within { depth < length self.old.above }
        requires within { depth < length self.old.up_to }
        requires above_few { sum self.old.above + length cleans.now < 2 ^ 63 }
        requires few { sum self.old.up_to + length cleans.now < 2 ^ 63 }
        ensures { self.new ≡ with_copies_of (up_to_of emptying depth) 0 cleans.now self.old }
    {
        let mut index = cleans.len();
        while index > 0 {
            index -= 1;
            self.add(cleans[index] as usize, emptying.up_to(depth, index));
        }
    }

    /// The sums of both histograms' numbers from one number of ways up to another.
    pub fn ends_between(&self, from: usize, to: usize) -> (u64, u64)
        requires rising { from ≤ to }
        requires above_within { to ≤ length self.now.above }
        requires within { to ≤ length self.now.up_to }
        requires above_few { sum self.now.above < 2 ^ 63 }
        requires few { sum self.now.up_to < 2 ^ 63 }
        ensures above { result.0 ≡ sum (take (to - from) (drop from self.now.above)) }
        ensures up_to { result.1 ≡ sum (take (to - from) (drop from self.now.up_to)) }
    {
        (total(&self.above[from..to]), total(&self.up_to[from..to]))
    }
}

/// The sum of a part of a histogram.
pub fn total(numbers: &[u64]) -> u64
    requires { sum numbers.now < 2 ^ 64 }
    ensures { result ≡ sum numbers.now }
{
    numbers.iter().sum()
}
