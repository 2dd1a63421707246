//! References that wait, so that each profile is fed many at a time.
ghost use Rattle.std.specs.Prelude.{◌≡◌, ℕ, ◌+◌, ◌/◌, ◌^◌, ◌<◌, ◌≤◌, ◌↔◌, ◌==◌, [], length, IsTrue};
ghost use Rattle.std.specs.Prelude.{IfOk};
ghost use Rattle.std.specs.List.{AllByRecursion};
ghost use Rattle.profile_core.specs.profile.State.{fed_of};
ghost use Rattle.sweep_core.specs.internal.Feeding.{AreAlwaysLed, profiles_after_batch};
ghost use Rattle.sweep_core.specs.internal.Waiting.{with_waiting};

use crate::feeding::feed_first;
use crate::profiles::PairProfile;
use profile_core::MAX_REFERENCES;
use std::alloc::{AllocError, Global};
use std::marker::Model;

/// How many references wait at most. With fewer, waits for memory overlap less.
pub(crate) const BATCH: usize = 4096;

/// The addresses of references that wait to be fed: the first `len` of `addrs`. `led` has room for
/// those of them that are given to the followers of a profile only. `added` counts all references
/// that were added so far. It is a field since a count beside the batch, behind a pointer, was
/// loaded from the stack and stored twice for each reference.
#[derive(Drop)]
pub(crate) struct Batch {
    addrs: Vec<u64>,
    led: Vec<u64>,
    len: usize,
    added: u64,
}

impl Model for Batch {
    ghost use Rattle.std.specs.Prelude.{◌≡◌, ℕ, take, length, ◌≤◌};
    ghost use Rattle.sweep_core.specs.declared.batch.TheConstants.{BATCH};
    ghost use Rattle.sweep_core.specs.internal.Waiting.{Batched};

    ghost Value = { Batched ℕ };

    ghost view = { λ b. record { waiting = take b.len b.addrs.items; added = b.added } };

    ghost invariant = { λ b. (b.len ≤ BATCH) × (length b.addrs.items ≡ BATCH)
        × (length b.led.items ≡ BATCH) };
}

impl Batch {
    /// An empty batch. It takes all its memory here, 64 KiB.
    pub(crate) fn new(alloc: Global) -> Result<Batch, AllocError>
        ensures { IfOk result (λ batch. batch ≡ record { waiting = []; added = 0 }) }
    {
        Ok(Batch {
            addrs: vec![in alloc; 0; BATCH]?,
            led: vec![in alloc; 0; BATCH]?,
            len: 0,
            added: 0,
        })
    }

    /// Whether it is full, so that no more references may wait.
    #[inline(always)]
    pub(crate) fn is_full(&self) -> bool
        ensures { IsTrue result ↔ (BATCH ≤ length self.now.waiting) }
    {
        self.len == BATCH
    }

    /// How many references were added.
    pub(crate) fn added(&self) -> u64
        ensures { result ≡ self.now.added }
    {
        self.added
    }

    /// Adds `count` references to one address. None need wait if they lie in the same block of
    /// `size` bytes as the last that waits, and never more than one: the others find their block in
    /// front in each profile with blocks of this size or larger. About a third of a program's
    /// references need not wait, fetches most often. The address is stored in any case, and no
    /// branch depends on whether it waits, since no processor predicts that.
    #[inline(always)]
    pub(crate) fn push(&mut self, addr: u64, size: u64, count: u64)
        requires room { length self.old.waiting < BATCH }
        requires few { self.old.added + count ≤ MAX_REFERENCES }
        ensures waiting { (bits : ℕ) → size ≡ 2 ^ bits →
            self.new.waiting ≡ with_waiting bits self.old.waiting addr }
        ensures added { self.new.added ≡ self.old.added + count }
    {
        self.added += count;
        self.addrs[self.len] = addr;
        let waits = self.len == 0 || !are_in_one_block(self.addrs[self.len - 1], addr, size);
        self.len += waits as usize;
    }

    /// Feeds the references that wait to each profile, except those that find their block in front
    /// there. It is not inlined into the loop that reads.
    #[inline(never)]
    pub(crate) fn feed(&mut self, profiles: &mut [PairProfile])
        requires few { AllByRecursion
            (λ x. fed_of x.profile + length self.old.waiting ≤ MAX_REFERENCES) profiles.old }
        requires led { AreAlwaysLed profiles.old }
        ensures fed { profiles.new ≡ profiles_after_batch self.old.waiting profiles.old }
        ensures none { self.new.waiting ≡ [] }
        ensures same { self.new.added ≡ self.old.added }
    {
        if self.len == 0 {
            return;
        }
        feed_first(profiles, &mut self.addrs, &mut self.led, self.len);
        self.len = 0;
    }
}

/// Whether two addresses lie in the same block of `size` bytes, a power of two: they differ in no
/// bit above those of a place in the block.
#[inline(always)]
pub(crate) fn are_in_one_block(a: u64, b: u64, size: u64) -> bool
    ensures { (bits : ℕ) → size ≡ 2 ^ bits → result ≡ (a / 2 ^ bits == b / 2 ^ bits) }
{
    a ^ b < size
}
