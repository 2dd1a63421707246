//! One access, in the slots of its set.
ghost use Rattle.std.specs.Prelude.{◌≡◌, ◌≤◌, ◌<◌, ◌*◌, ◌^◌, ℕ, length, take, Some, IfSome};
ghost use Rattle.std.specs.Prelude.{None, IsTrue, ◌↔◌, true};
ghost use Rattle.cache_core.specs.Geometry.{block_of};
ghost use Rattle.cache_core.specs.cache.Outcomes.{outcome_of, on_hit};
ghost use Rattle.cache_core.specs.cache.Order.{Touches, Visits, position_of, with_dirty_at};
ghost use Rattle.cache_core.specs.internal.cache.Slab.{Addressable};

use crate::cache::effects::{
    allocates_line, dirties_line, hit_outcome, passing_outcome, placing_outcome,
};
use crate::design::Design;
use crate::outcome::{Outcome, Slot};
use crate::replacement::Replacement;
use trace_core::Ref;

/// Makes one access in the slots of its set to that at an index, which holds its block.
#[inline(always)]
pub(crate) fn hit<P: Replacement>(
    design: Design,
    policy: &mut P,
    set: &mut [Slot],
    filled: usize,
    reference: Ref,
    at: usize,
) -> Outcome
    requires at { position_of (block_of design.geometry reference.addr) (take filled set.old)
        ≡ Some at }
    requires filled { filled ≤ length set.old }
    requires addresses { Addressable design.geometry.b (take filled set.old) }
    ensures visit { Visits design (P.policy policy.old) (P.words policy.old) reference
        (take filled set.old) result (take filled set.new) (P.words policy.new) }
    ensures policy { P.policy policy.new ≡ P.policy policy.old }
    ensures addresses { Addressable design.geometry.b (take filled set.new) }
    ensures outcome { result ≡ outcome_of (on_hit design.write reference) }
{
    let dirty = dirties_line(design.write, reference.access);
    use_slot(policy, &mut set[..filled], at, dirty);
    hit_outcome(design.write, reference)
}

/// Makes one access in the slots of its set, none of which holds its block. Also returns how many
/// slots are filled afterwards.
#[inline(always)]
pub(crate) fn miss<P: Replacement>(
    design: Design,
    policy: &mut P,
    set: &mut [Slot],
    filled: usize,
    reference: Ref,
) -> (Outcome, usize)
    requires none { position_of (block_of design.geometry reference.addr) (take filled set.old)
        ≡ None }
    requires filled { filled ≤ length set.old }
    requires ways { length set.old ≡ design.geometry.e }
    requires some { 1 ≤ design.geometry.e }
    requires addresses { Addressable design.geometry.b (take filled set.old) }
    ensures visit { Visits design (P.policy policy.old) (P.words policy.old) reference
        (take filled set.old) result.0 (take result.1 set.new) (P.words policy.new) }
    ensures policy { P.policy policy.new ≡ P.policy policy.old }
    ensures within { result.1 ≤ design.geometry.e }
    ensures addresses { Addressable design.geometry.b (take result.1 set.new) }
    ensures victim { IfSome result.0.evicted
        (λ slot. slot.block * 2 ^ design.geometry.b < 2 ^ 64) }
{
    if !allocates_line(design.allocate, reference.access) {
        return (passing_outcome(reference), filled);
    }
    let block = design.geometry.block_of(reference.addr);
    let dirty = dirties_line(design.write, reference.access);
    let (_, evicted) = policy.place(set, filled, Slot { block, dirty });
    let outcome = placing_outcome(design, reference, block, evicted);
    (outcome, (filled + 1).min(set.len()))
}

/// Uses the slot at an index, and marks it dirty if it is to be.
#[inline(always)]
fn use_slot<P: Replacement>(policy: &mut P, slots: &mut [Slot], at: usize, dirty: bool)
    requires { at < length slots.old }
    ensures order { Touches (P.policy policy.old) (with_dirty_at dirty slots.old at) at slots.new }
    ensures words { P.words policy.new ≡ P.words policy.old }
    ensures policy { P.policy policy.new ≡ P.policy policy.old }
    ensures addresses { (b : ℕ) → Addressable b slots.old → Addressable b slots.new }
{
    if dirty {
        slots[at].dirty = true;
    }
    policy.touch(slots, at);
}

/// Whether the first slot holds this block.
#[inline(always)]
pub(crate) fn is_in_front(slots: &[Slot], block: u64) -> bool
    ensures { IsTrue result ↔ (position_of block slots.now ≡ Some 0) }
{
    slots.first().is_some_and(|slot| slot.block == block)
}

/// Marks the first slot dirty.
#[inline(always)]
pub(crate) fn mark_front(slots: &mut [Slot])
    requires { 1 ≤ length slots.old }
    ensures { slots.new ≡ with_dirty_at true slots.old 0 }
{
    slots[0].dirty = true;
}
