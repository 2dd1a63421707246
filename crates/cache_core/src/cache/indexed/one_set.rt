//! One access to a cache whose blocks are found by an index.
ghost use Rattle.std.specs.Prelude.{◌≡◌, ◌+◌, ◌<◌, ◌*◌, ◌^◌, ℕ, Some, None, IfSome, Option};
ghost use Rattle.std.specs.Prelude.{MatchOption, is_some, length, true, false, slice_set};
ghost use Rattle.block_index.specs.SlotLists.{has_slot};
ghost use Rattle.block_index.specs.BlockIndex.{HasBlock, NoSlotHas};
ghost use Rattle.cache_core.specs.declared.design.Repl.{Repl};
ghost use Rattle.cache_core.specs.Geometry.{block_of, set_of, set_of_block};
ghost use Rattle.cache_core.specs.cache.Order.{Accesses, TakesIn, random_numbers_after};
ghost use Rattle.cache_core.specs.cache.Order.{DirtiesByWrites};
ghost use Rattle.cache_core.specs.replacement.Rules.{rules};
ghost use Rattle.cache_core.specs.cache.Outcomes.{outcome_of, on_hit};
ghost use Rattle.cache_core.specs.internal.cache.Held.{holds_block};
ghost use Rattle.cache_core.specs.internal.cache.Order.{hits_in_front, hit_in_front};
ghost use Rattle.cache_core.specs.internal.cache.Indexed.{IsIndexed, indexed_contents, sets_at};
ghost use Rattle.cache_core.specs.internal.cache.Indexed.{set_at, counts_of, with_mark};
ghost use Rattle.cache_core.specs.internal.cache.SlotOrder.{order_of, with_order, with_moved};
ghost use Rattle.cache_core.specs.Touched.{Covers};

use crate::cache::effects::{
    allocates_line, dirties_line, hit_outcome, passing_outcome, placing_outcome,
};
use crate::cache::indexed::slot_order::SlotOrder;
use crate::design::Design;
use crate::outcome::{Outcome, Slot};
use crate::replacement::named::NamedPolicy;
use crate::touched::TouchedSets;
use block_index::BlockIndex;
use trace_core::Ref;

/// Makes one access if a slot has its block, and returns its outcome. Otherwise it does nothing.
#[inline(always)]
pub(crate) fn hit(
    design: Design,
    index: &BlockIndex,
    dirty: &mut [bool],
    order: &mut SlotOrder,
    reference: Ref,
) -> Option<Outcome>
    requires { IsIndexed design index.now dirty.old order.old }
    ensures indexed { IsIndexed design index.now dirty.new order.new }
    ensures counts { counts_of order.new.sets ≡ counts_of order.old.sets }
    ensures name { order.new.policy ≡ order.old.policy }
    ensures step { (numbers : ℕ → ℕ) → IfSome result (λ outcome. Accesses
        (indexed_contents design (Some order.old.policy) numbers index.now dirty.old order.old)
        reference outcome
        (indexed_contents design (Some order.old.policy) numbers index.now dirty.new order.new)) }
    ensures dirty { IfSome result (λ outcome.
        DirtiesByWrites (sets_at index.now dirty.old order.old.sets) reference outcome
        (sets_at index.now dirty.new order.new.sets)) }
    ensures answers { is_some result
        ≡ holds_block design (sets_at index.now dirty.old order.old.sets) reference }
    ensures outcome { IfSome result (λ outcome.
        outcome ≡ outcome_of (on_hit design.write reference)) }
    ensures kept { result ≡ None → (dirty.new ≡ dirty.old) × (order.new ≡ order.old) }
{
    let block = design.geometry.block_of(reference.addr);
    let set = design.geometry.set_of(reference.addr) as usize;
    let Some(slot) = find_slot(design, index, dirty, order, set, block) else {
        return None;
    };
    let mark = dirties_line(design.write, reference.access);
    use_slot(dirty, order, set, slot, mark);
    Some(hit_outcome(design.write, reference))
}

/// Makes one access whose block no slot has.
#[inline(always)]
pub(crate) fn miss<P: NamedPolicy>(
    design: Design,
    policy: &mut P,
    index: &mut BlockIndex,
    dirty: &mut [bool],
    order: &mut SlotOrder,
    touched: &mut TouchedSets,
    reference: Ref,
) -> Outcome
    requires indexed { IsIndexed design index.old dirty.old order.old }
    requires touched { Covers touched.old (counts_of order.old.sets) }
    requires policy { P.policy policy.old ≡ Some order.old.policy }
    requires none { holds_block design (sets_at index.old dirty.old order.old.sets) reference
        ≡ false }
    ensures indexed { IsIndexed design index.new dirty.new order.new }
    ensures touched { Covers touched.new (counts_of order.new.sets) }
    ensures policy { P.policy policy.new ≡ Some order.new.policy }
    ensures step { Accesses
        (indexed_contents design (P.policy policy.old) (P.words policy.old)
        index.old dirty.old order.old) reference result
        (indexed_contents design (P.policy policy.new) (P.words policy.new)
        index.new dirty.new order.new) }
    ensures dirty { DirtiesByWrites (sets_at index.old dirty.old order.old.sets) reference result
        (sets_at index.new dirty.new order.new.sets) }
    ensures victim { IfSome result.evicted (λ slot. slot.block * 2 ^ design.geometry.b < 2 ^ 64) }
{
    if !allocates_line(design.allocate, reference.access) {
        return passing_outcome(reference);
    }
    let block = design.geometry.block_of(reference.addr);
    let mark = dirties_line(design.write, reference.access);
    let evicted = place(
        design,
        policy,
        index,
        dirty,
        order,
        touched,
        Slot { block, dirty: mark },
    );
    placing_outcome(design, reference, block, evicted)
}

/// The slot that has a block of this set, if there is one.
#[inline(always)]
fn find_slot(
    design: Design,
    index: &BlockIndex,
    dirty: &[bool],
    order: &SlotOrder,
    set: usize,
    block: u64,
) -> Option<usize>
    requires indexed { IsIndexed design index.now dirty.now order.now }
    requires set { set ≡ set_of_block design.geometry block }
    ensures { MatchOption result (NoSlotHas index.now block)
        (λ slot. HasBlock index.now slot block) }
{
    let from = set * design.geometry.e() as usize;
    index.find(block, from, from + order.count(set))
}

/// Uses a slot of a set, and marks it dirty if it is to be.
#[inline(always)]
fn use_slot(dirty: &mut [bool], order: &mut SlotOrder, set: usize, slot: usize, mark: bool)
    requires set { set < length order.old.sets }
    requires slot { has_slot slot (order_of order.old.sets set) ≡ true }
    requires mark { slot < length dirty.old }
    ensures mark { dirty.new ≡ with_mark mark dirty.old slot }
    ensures order { order.new ≡ with_order order.old set
        (with_moved (rules order.old.policy).touched slot (order_of order.old.sets set)) }
{
    if mark {
        dirty[slot] = true;
    }
    order.touch(set, slot);
}

/// Puts a block into its set, and returns the slot that leaves a full set. It is a function of its
/// own, so that the path of a hit stays short.
#[inline(never)]
fn place<P: NamedPolicy>(
    design: Design,
    policy: &mut P,
    index: &mut BlockIndex,
    dirty: &mut [bool],
    order: &mut SlotOrder,
    touched: &mut TouchedSets,
    new: Slot,
) -> Option<Slot>
    requires indexed { IsIndexed design index.old dirty.old order.old }
    requires touched { Covers touched.old (counts_of order.old.sets) }
    requires none { NoSlotHas index.old new.block }
    requires address { new.block * 2 ^ design.geometry.b < 2 ^ 64 }
    ensures indexed { IsIndexed design index.new dirty.new order.new }
    ensures touched { Covers touched.new (counts_of order.new.sets) }
    ensures policy { P.policy policy.new ≡ P.policy policy.old }
    ensures name { order.new.policy ≡ order.old.policy }
    ensures taken { let set = set_of_block design.geometry new.block in
        TakesIn (Some order.old.policy) (P.words policy.old 0) design.geometry.e
        (set_at index.old dirty.old (order_of order.old.sets set)) new result
        (set_at index.new dirty.new (order_of order.new.sets set)) }
    ensures sets { let set = set_of_block design.geometry new.block in
        sets_at index.new dirty.new order.new.sets
        ≡ slice_set (sets_at index.old dirty.old order.old.sets) set
        (set_at index.new dirty.new (order_of order.new.sets set)) }
    ensures numbers { P.words policy.new
        ≡ random_numbers_after (P.policy policy.old) result (P.words policy.old) }
    ensures victim { IfSome result (λ slot. slot.block * 2 ^ design.geometry.b < 2 ^ 64) }
{
    let set = design.geometry.set_of_block(new.block) as usize;
    let count = order.count(set);
    if count < design.geometry.e() as usize {
        fill(design, index, dirty, order, set, new);
        touched.add_grown(set, count as u32, count as u32 + 1);
        return None;
    }
    let number = policy.draw();
    Some(replace(design, index, dirty, order, set, number, new))
}

/// Puts a block into the next slot of its set, which is not full.
fn fill(
    design: Design,
    index: &mut BlockIndex,
    dirty: &mut [bool],
    order: &mut SlotOrder,
    set: usize,
    new: Slot,
)
    requires indexed { IsIndexed design index.old dirty.old order.old }
    requires none { NoSlotHas index.old new.block }
    requires address { new.block * 2 ^ design.geometry.b < 2 ^ 64 }
    requires set { set ≡ set_of_block design.geometry new.block }
    requires within { set < 2 ^ design.geometry.s }
    requires room { length (order_of order.old.sets set) < design.geometry.e }
    ensures indexed { IsIndexed design index.new dirty.new order.new }
    ensures counts { counts_of order.new.sets ≡ slice_set (counts_of order.old.sets) set
        (length (order_of order.old.sets set) + 1) }
    ensures name { order.new.policy ≡ order.old.policy }
    ensures taken { (number : ℕ) → TakesIn (Some order.old.policy) number design.geometry.e
        (set_at index.old dirty.old (order_of order.old.sets set)) new None
        (set_at index.new dirty.new (order_of order.new.sets set)) }
    ensures sets { sets_at index.new dirty.new order.new.sets
        ≡ slice_set (sets_at index.old dirty.old order.old.sets) set
        (set_at index.new dirty.new (order_of order.new.sets set)) }
{
    let slot = order.fill_next(set);
    index.add(slot, new.block);
    dirty[slot] = new.dirty;
}

/// Puts a block into the slot of a full set that the policy names, and returns what the slot held.
fn replace(
    design: Design,
    index: &mut BlockIndex,
    dirty: &mut [bool],
    order: &mut SlotOrder,
    set: usize,
    number: usize,
    new: Slot,
) -> Slot
    requires indexed { IsIndexed design index.old dirty.old order.old }
    requires none { NoSlotHas index.old new.block }
    requires address { new.block * 2 ^ design.geometry.b < 2 ^ 64 }
    requires set { set ≡ set_of_block design.geometry new.block }
    requires within { set < 2 ^ design.geometry.s }
    requires full { length (order_of order.old.sets set) ≡ design.geometry.e }
    ensures indexed { IsIndexed design index.new dirty.new order.new }
    ensures counts { counts_of order.new.sets ≡ counts_of order.old.sets }
    ensures name { order.new.policy ≡ order.old.policy }
    ensures taken { TakesIn (Some order.old.policy) number design.geometry.e
        (set_at index.old dirty.old (order_of order.old.sets set)) new (Some result)
        (set_at index.new dirty.new (order_of order.new.sets set)) }
    ensures sets { sets_at index.new dirty.new order.new.sets
        ≡ slice_set (sets_at index.old dirty.old order.old.sets) set
        (set_at index.new dirty.new (order_of order.new.sets set)) }
    ensures victim { result.block * 2 ^ design.geometry.b < 2 ^ 64 }
{
    let slot = order.victim(set, number);
    order.renew(set, slot);
    let gone = Slot {
        block: index.block(slot),
        dirty: dirty[slot],
    };
    index.remove(slot);
    index.add(slot, new.block);
    dirty[slot] = new.dirty;
    gone
}

/// One access to the first slot of its set, if its block is there and it sends nothing down. The
/// slot stays first under every policy.
#[inline(always)]
pub(crate) fn visit_front(
    design: Design,
    index: &BlockIndex,
    dirty: &mut [bool],
    order: &SlotOrder,
    reference: Ref,
) -> Option<Outcome>
    requires { IsIndexed design index.now dirty.old order.now }
    ensures indexed { IsIndexed design index.now dirty.new order.now }
    ensures access { (policy : Option Repl) (numbers : ℕ → ℕ) → IfSome result (λ outcome.
        Accesses (indexed_contents design policy numbers index.now dirty.old order.now)
        reference outcome
        (indexed_contents design policy numbers index.now dirty.new order.now)) }
    ensures dirty { IfSome result (λ outcome.
        DirtiesByWrites (sets_at index.now dirty.old order.now.sets) reference outcome
        (sets_at index.now dirty.new order.now.sets)) }
    ensures answers { is_some result
        ≡ hits_in_front design (sets_at index.now dirty.old order.now.sets) reference }
    ensures outcome { IfSome result (λ outcome. outcome ≡ hit_in_front) }
    ensures kept { result ≡ None → dirty.new ≡ dirty.old }
{
    let block = design.geometry.block_of(reference.addr);
    let set = design.geometry.set_of(reference.addr) as usize;
    let outcome = hit_outcome(design.write, reference);
    if outcome.down[0].is_some() {
        return None;
    }
    let Some(slot) = order.first(set) else {
        return None;
    };
    if index.block(slot) != block {
        return None;
    }
    if dirties_line(design.write, reference.access) {
        dirty[slot] = true;
    }
    Some(outcome)
}
