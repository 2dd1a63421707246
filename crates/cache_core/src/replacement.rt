//! Replacement: which slot of a full set is evicted.
pub(crate) mod chosen;
pub(crate) mod named;

ghost use Rattle.std.specs.Prelude.{◌≡◌, ◌≤◌, ◌<◌, ◌+◌, ◌∷◌, ℕ, length, take, remove, slice_get};
ghost use Rattle.std.specs.Prelude.{Option, Some, None};
ghost use Rattle.cache_core.specs.cache.Order.{Touches, TakesIn, random_numbers_after};

use crate::design::Repl;
use crate::outcome::Slot;
use rand_core::utils::NextWord;
use rand_pcg::Pcg32;
use std::marker::Model;

/// The stream of every generator (PCG32, O'Neill 2014).
const STREAM: u64 = 54;

/// A replacement policy. It sees the slots of one set at a time, in an order of its own.
///
/// `order` says all that is said of the slots; that a set keeps them follows from it (the law
/// `slots_are_kept`). The indices that `touch` and `place` return are part of the interface as it
/// was first specified; no cache uses them.
pub trait Replacement: Drop {
    ghost use Rattle.cache_core.specs.declared.design.Repl.{Repl};

    /// Which of the three named policies it is, if any.
    ghost policy: { Self → Option Repl } = { λ _. None };

    /// The random numbers that it still has to draw.
    ghost words: { Self → ℕ → ℕ } = { λ _ _. 0 };

    /// Uses the slot at an index of the filled part, and returns its new index.
    fn touch(&mut self, set: &mut [Slot], at: usize) -> usize
        requires { at < length set.old }
        ensures index { slice_get set.new result ≡ slice_get set.old at }
        ensures order { Touches (policy self.old) set.old at set.new }
        ensures words { words self.new ≡ words self.old }
        ensures policy { policy self.new ≡ policy self.old };

    /// Puts a slot into a set whose first `filled` slots are filled. Returns its index, and the
    /// evicted slot: there is one exactly if the set was full.
    fn place(&mut self, set: &mut [Slot], filled: usize, new: Slot) -> (usize, Option<Slot>)
        requires filled { filled ≤ length set.old }
        requires some { 1 ≤ length set.old }
        ensures index { slice_get (take (filled + 1) set.new) result.0 ≡ Some new }
        ensures order { TakesIn (policy self.old) (words self.old 0) (length set.old)
            (take filled set.old) new result.1 (take (filled + 1) set.new) }
        ensures words { words self.new
            ≡ random_numbers_after (policy self.old) result.1 (words self.old) }
        ensures policy { policy self.new ≡ policy self.old };
}

/// Least recently used: the most recent slot is in front.
#[derive(Clone, Copy, Debug)]
pub struct Lru;

impl Lru {
    /// The policy, which has no state.
    pub fn new() -> Self
        ensures { ⟦<Lru as Replacement>⟧.policy result ≡ Some Repl.Lru }
    {
        Lru
    }
}

impl Replacement for Lru {
    ghost use Rattle.cache_core.specs.declared.design.Repl.TheVariants.{Lru as LruRepl};

    ghost policy = { λ _. Some LruRepl };

    fn touch(&mut self, set: &mut [Slot], at: usize) -> usize {
        set[..=at].rotate_right(1);
        0
    }

    #[inline(always)]
    fn place(&mut self, set: &mut [Slot], filled: usize, new: Slot) -> (usize, Option<Slot>) {
        let oldest = put_in_front(set, filled, new);
        (0, oldest)
    }
}

/// Puts a slot in front, and takes out the last one of a full set.
#[inline(always)]
fn put_in_front(set: &mut [Slot], filled: usize, new: Slot) -> Option<Slot>
    requires filled { filled ≤ length set.old }
    requires some { 1 ≤ length set.old }
    ensures order { TakesIn (Some Repl.Lru) 0 (length set.old) (take filled set.old) new
        result (take (filled + 1) set.new) }
    ensures front { slice_get set.new 0 ≡ Some new }
{
    let last = filled.min(set.len() - 1);
    let gone = (filled == set.len()).then_some(set[last]);
    put_first(set, last, new);
    gone
}

/// Puts a slot first, and takes out the one at an index.
#[inline(always)]
fn put_first(slots: &mut [Slot], at: usize, slot: Slot)
    requires { at < length slots.old }
    ensures { slots.new ≡ slot ∷ remove slots.old at }
{
    slots[at] = slot;
    slots[..=at].rotate_right(1);
}

/// First in, first out: the slot that was placed last is in front.
#[derive(Clone, Copy, Debug)]
pub struct Fifo;

impl Fifo {
    /// The policy, which has no state.
    pub fn new() -> Self
        ensures { ⟦<Fifo as Replacement>⟧.policy result ≡ Some Repl.Fifo }
    {
        Fifo
    }
}

impl Replacement for Fifo {
    ghost use Rattle.cache_core.specs.declared.design.Repl.TheVariants.{Fifo as FifoRepl};

    ghost policy = { λ _. Some FifoRepl };

    fn touch(&mut self, _: &mut [Slot], at: usize) -> usize {
        at
    }

    #[inline(always)]
    fn place(&mut self, set: &mut [Slot], filled: usize, new: Slot) -> (usize, Option<Slot>) {
        let first = put_in_front(set, filled, new);
        (0, first)
    }
}

/// Random: a slot stays in its way, and a random way of a full set is exchanged.
#[derive(Drop)]
pub struct Random {
    generator: Pcg32,
}

impl Model for Random {
    ghost use Rattle.rand_pcg.specs.Lcg.{Lcg};

    ghost Value = { Lcg };

    ghost view = { λ r. r.generator };
}

impl Random {
    ghost use Rattle.cache_core.specs.replacement.RandomNumbers.{generator_of, random_number};

    /// The policy with the generator of a seed. It draws a number only if a full set has to
    /// give up a slot.
    pub fn new(seed: u64) -> Self
        ensures value { result ≡ generator_of seed }
        ensures policy { ⟦<Random as Replacement>⟧.policy result ≡ Some Repl.Random }
        ensures words { ⟦<Random as Replacement>⟧.words result ≡ random_number (generator_of seed) }
    {
        Random {
            generator: Pcg32::new(seed, STREAM),
        }
    }

    /// The next random number.
    #[inline(always)]
    pub(crate) fn next_number(&mut self) -> usize
        ensures number { result ≡ random_number self.old 0 }
        ensures rest { random_number self.new ≡ λ n. random_number self.old (n + 1) }
    {
        self.generator.next_word() as usize
    }
}

impl Replacement for Random {
    ghost use Rattle.cache_core.specs.declared.design.Repl.TheVariants.{Random as RandomRepl};
    ghost use Rattle.cache_core.specs.replacement.RandomNumbers.{random_number};

    ghost policy = { λ _. Some RandomRepl };

    ghost words = { random_number };

    fn touch(&mut self, _set: &mut [Slot], at: usize) -> usize {
        at
    }

    #[inline(always)]
    fn place(&mut self, set: &mut [Slot], filled: usize, new: Slot) -> (usize, Option<Slot>) {
        if filled < set.len() {
            set[filled] = new;
            return (filled, None);
        }
        let way = self.next_number() % set.len();
        let gone = set[way];
        set[way] = new;
        (way, Some(gone))
    }
}
