//! All sets of a cache whose blocks are found by an index are emptied, and their dirty slots
//! counted.
ghost use Rattle.std.specs.Prelude.{◌≡◌, ◌≤◌, ◌<◌, ◌^◌, [], length, replicate, false};
ghost use Rattle.std.specs.Prelude.{if◌then◌else◌, slice_index_or};
ghost use Rattle.cache_core.specs.cache.Order.{dirty_in, dirty_slots};
ghost use Rattle.cache_core.specs.internal.cache.Indexed.{IsIndexed, IsHeld, sets_at, set_at};
ghost use Rattle.cache_core.specs.internal.cache.Indexed.{counts_of};
ghost use Rattle.cache_core.specs.internal.cache.SlotOrder.{order_of, with_order};
ghost use Rattle.cache_core.specs.Touched.{Covers, ListsFilled};

use crate::cache::indexed::slot_order::SlotOrder;
use crate::design::Design;
use crate::geometry::Geometry;
use crate::touched::TouchedSets;
use block_index::BlockIndex;

/// Empties all sets, and returns how many slots were dirty. If the touched sets are listed, it
/// visits only those.
pub(crate) fn empty_sets(
    design: Design,
    index: &mut BlockIndex,
    dirty: &[bool],
    order: &mut SlotOrder,
    touched: &mut TouchedSets,
) -> u64
    requires indexed { IsIndexed design index.old dirty.now order.old }
    requires touched { Covers touched.old (counts_of order.old.sets) }
    ensures counted { result ≡ dirty_slots (sets_at index.old dirty.now order.old.sets) }
    ensures empty { order.new ≡ record order.old {
      sets = replicate (length order.old.sets) [];
    } }
    ensures indexed { IsIndexed design index.new dirty.now order.new }
    ensures touched { Covers touched.new (counts_of order.new.sets) }
{
    let count = match touched.listed() {
        Some(sets) => empty_listed(design, index, dirty, order, sets),
        None => empty_all(design, index, dirty, order),
    };
    touched.clear();
    count
}

/// Empties the listed sets, which are all that have a slot.
fn empty_listed(
    design: Design,
    index: &mut BlockIndex,
    dirty: &[bool],
    order: &mut SlotOrder,
    sets: &[u32],
) -> u64
    requires indexed { IsIndexed design index.old dirty.now order.old }
    requires listed { ListsFilled sets.now (counts_of order.old.sets) }
    ensures counted { result ≡ dirty_slots (sets_at index.old dirty.now order.old.sets) }
    ensures empty { order.new ≡ record order.old {
      sets = replicate (length order.old.sets) [];
    } }
    ensures held { IsHeld design.geometry index.new order.new.sets }
    ensures slots { length index.new.blocks ≡ length index.old.blocks }
{
    let geometry = design.geometry;
    let mut count = 0;
    for number in sets {
        let set = *number as usize;
        count += empty_set(geometry, index, dirty, order, set);
    }
    count
}

/// Empties all sets.
fn empty_all(design: Design, index: &mut BlockIndex, dirty: &[bool], order: &mut SlotOrder) -> u64
    requires indexed { IsIndexed design index.old dirty.now order.old }
    ensures counted { result ≡ dirty_slots (sets_at index.old dirty.now order.old.sets) }
    ensures empty { order.new ≡ record order.old {
      sets = replicate (length order.old.sets) [];
    } }
    ensures held { IsHeld design.geometry index.new order.new.sets }
    ensures slots { length index.new.blocks ≡ length index.old.blocks }
{
    let geometry = design.geometry;
    let mut count = 0;
    for set in 0..geometry.sets() as usize {
        count += empty_set(geometry, index, dirty, order, set);
    }
    count
}

/// Empties a set, from its last slot on, and returns how many of its slots were dirty.
fn empty_set(
    geometry: Geometry,
    index: &mut BlockIndex,
    dirty: &[bool],
    order: &mut SlotOrder,
    set: usize,
) -> u64
    requires held { IsHeld geometry index.old order.old.sets }
    requires slots { length index.old.blocks ≤ length dirty.now }
    requires set { set < length order.old.sets }
    requires few { length (order_of order.old.sets set) ≤ 2 ^ 16 }
    ensures counted { result ≡ dirty_in (set_at index.old dirty.now (order_of order.old.sets set)) }
    ensures few { result ≤ length (order_of order.old.sets set) }
    ensures empty { order.new ≡ with_order order.old set [] }
    ensures held { IsHeld geometry index.new order.new.sets }
    ensures slots { length index.new.blocks ≡ length index.old.blocks }
{
    let mut count = 0;
    while let Some(slot) = order.pop(set) {
        index.remove(slot);
        count += one_if_dirty(dirty, slot);
    }
    count
}

/// 1 if a slot is marked dirty, otherwise 0.
#[inline(always)]
fn one_if_dirty(dirty: &[bool], slot: usize) -> u64
    requires { slot < length dirty.now }
    ensures value { result ≡ (if slice_index_or dirty.now slot false then 1 else 0) }
    ensures few { result ≤ 1 }
{
    if dirty[slot] { 1 } else { 0 }
}
