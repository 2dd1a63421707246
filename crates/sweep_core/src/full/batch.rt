//! References that wait, with their kinds of access, so that each profile is fed many at a time.
ghost use Rattle.std.specs.Prelude.{◌≡◌, ℕ, ◌+◌, ◌^◌, ◌<◌, ◌≤◌, ◌↔◌, [], length, IsTrue, IfOk};
ghost use Rattle.std.specs.List.{AllByRecursion};
ghost use Rattle.profile_core.specs.profile.State.{fed_of};
ghost use Rattle.sweep_core.specs.internal.Full.{WereFedAlike, full_pairs_fed};
ghost use Rattle.sweep_core.specs.internal.Full.{with_waiting_ref, is_repeated};

use crate::batch::{BATCH, are_in_one_block};
use crate::full::feeding::feed_first_full;
use crate::full::profiles::FullPair;
use profile_core::MAX_REFERENCES;
use std::alloc::{AllocError, Global};
use std::marker::Model;
use trace_core::{Access, Ref};

/// The references that wait to be fed: the first `len` of `refs`. `left` has room for those of them
/// that one profile leaves for the next. `added` counts all references that were added so far.
#[derive(Drop)]
pub(crate) struct FullBatch {
    refs: Vec<Ref>,
    left: Vec<Ref>,
    len: usize,
    added: u64,
}

impl Model for FullBatch {
    ghost use Rattle.std.specs.Prelude.{◌≡◌, take, length, ◌≤◌};
    ghost use Rattle.trace_core.specs.declared.events.Ref.{Ref};
    ghost use Rattle.sweep_core.specs.declared.batch.TheConstants.{BATCH};
    ghost use Rattle.sweep_core.specs.internal.Waiting.{Batched};

    ghost Value = { Batched Ref };

    ghost view = { λ b. record { waiting = take b.len b.refs.items; added = b.added } };

    ghost invariant = { λ b. (b.len ≤ BATCH) × (length b.refs.items ≡ BATCH)
        × (length b.left.items ≡ BATCH) };
}

/// A reference that fills the room of a batch.
const NO_REFERENCE: Ref = Ref {
    access: Access::Read,
    addr: 0,
};

impl FullBatch {
    /// An empty batch. It takes all its memory here, 128 KiB.
    pub(crate) fn new(alloc: Global) -> Result<FullBatch, AllocError>
        ensures { IfOk result (λ batch. batch ≡ record { waiting = []; added = 0 }) }
    {
        Ok(FullBatch {
            refs: vec![in alloc; NO_REFERENCE; BATCH]?,
            left: vec![in alloc; NO_REFERENCE; BATCH]?,
            len: 0,
            added: 0,
        })
    }

    /// Whether it is full, so that no more references may wait.
    #[inline(always)]
    pub(crate) fn is_full(&self) -> bool
        ensures { IsTrue result ↔ (BATCH ≤ length self.now.waiting) }
    {
        self.len == BATCH
    }

    /// How many references were added.
    pub(crate) fn added(&self) -> u64
        ensures { result ≡ self.now.added }
    {
        self.added
    }

    /// Adds a reference. It need not wait if it repeats the last one that waits: then it changes
    /// nothing in any profile with blocks of `size` bytes or larger.
    #[inline(always)]
    pub(crate) fn push(&mut self, reference: Ref, size: u64)
        requires room { length self.old.waiting < BATCH }
        requires few { self.old.added < MAX_REFERENCES }
        ensures waiting { (bits : ℕ) → size ≡ 2 ^ bits →
            self.new.waiting ≡ with_waiting_ref bits self.old.waiting reference }
        ensures added { self.new.added ≡ self.old.added + 1 }
    {
        self.refs[self.len] = reference;
        if self.len == 0 || !repeats(self.refs[self.len - 1], reference, size) {
            self.len += 1;
        }
        self.added += 1;
    }

    /// Feeds the references that wait to each profile, except those that are settled there. It is
    /// not inlined into the loop that reads.
    #[inline(never)]
    pub(crate) fn feed(&mut self, profiles: &mut [FullPair])
        requires few { AllByRecursion
            (λ x. fed_of x.profile.plain + length self.old.waiting ≤ MAX_REFERENCES) profiles.old }
        requires alike { WereFedAlike profiles.old }
        ensures fed { profiles.new ≡ full_pairs_fed self.old.waiting profiles.old }
        ensures none { self.new.waiting ≡ [] }
        ensures same { self.new.added ≡ self.old.added }
    {
        feed_first_full(profiles, &self.refs, &mut self.left, self.len);
        self.len = 0;
    }
}

/// Whether a reference lies in the same block of `size` bytes as the one before, and does not write
/// unless that one did.
#[inline(always)]
fn repeats(before: Ref, reference: Ref, size: u64) -> bool
    ensures { (bits : ℕ) → size ≡ 2 ^ bits → result ≡ is_repeated bits before reference }
{
    are_in_one_block(before.addr, reference.addr, size)
        && (!matches!(reference.access, Access::Write) || matches!(before.access, Access::Write))
}
