//! All sets of a cache are emptied, and their dirty slots counted.
ghost use Rattle.std.specs.Prelude.{◌≡◌, ◌≤◌, ◌*◌, ◌^◌, length, All, count_by, replicate};
ghost use Rattle.cache_core.specs.cache.Order.{dirty_slots};
ghost use Rattle.cache_core.specs.internal.cache.Slab.{sets_of};
ghost use Rattle.cache_core.specs.Touched.{Covers, ListsFilled, no_sets};

use crate::outcome::Slot;
use crate::touched::TouchedSets;
use std::mem;

/// Empties all sets, and returns how many slots were dirty. If the touched sets are listed, it
/// visits only those.
pub(crate) fn empty_slab(
    touched: &mut TouchedSets,
    slots: &[Slot],
    filled: &mut [u32],
    ways: usize,
) -> u64
    requires segments { length slots.now ≡ ways * length filled.old }
    requires within { All (λ n. n ≤ ways) filled.old }
    requires few { length slots.now ≤ 2 ^ 22 }
    requires touched { Covers touched.old filled.old }
    ensures counted { result ≡ dirty_slots (sets_of ways slots.now filled.old) }
    ensures empty { filled.new ≡ replicate (length filled.old) 0 }
    ensures touched { touched.new ≡ no_sets touched.old }
{
    let dirty = match touched.listed() {
        Some(listed) => empty_listed(slots, filled, ways, listed),
        None => {
            let dirty = count_dirty(slots, filled, ways);
            clear(filled);
            dirty
        }
    };
    touched.clear();
    dirty
}

/// Empties the listed sets, which are all that have a filled slot, and returns how many slots were
/// dirty. A set that is listed twice is already empty the second time.
fn empty_listed(slots: &[Slot], filled: &mut [u32], ways: usize, listed: &[u32]) -> u64
    requires segments { length slots.now ≡ ways * length filled.old }
    requires within { All (λ n. n ≤ ways) filled.old }
    requires few { length slots.now ≤ 2 ^ 22 }
    requires listed { ListsFilled listed.now filled.old }
    ensures counted { result ≡ dirty_slots (sets_of ways slots.now filled.old) }
    ensures empty { filled.new ≡ replicate (length filled.old) 0 }
{
    let mut dirty = 0;
    for number in listed {
        let set = *number as usize;
        let start = set * ways;
        let count = mem::replace(&mut filled[set], 0) as usize;
        dirty += count_dirty_slots(&slots[start..start + count]);
    }
    dirty
}

/// How many filled slots of a slab are dirty.
fn count_dirty(slots: &[Slot], filled: &[u32], ways: usize) -> u64
    requires segments { length slots.now ≡ ways * length filled.now }
    requires within { All (λ n. n ≤ ways) filled.now }
    requires few { length slots.now ≤ 2 ^ 22 }
    ensures { result ≡ dirty_slots (sets_of ways slots.now filled.now) }
{
    let mut dirty = 0;
    let mut rest = slots;
    for count in filled {
        let (set, after) = rest.split_at(ways);
        dirty += count_dirty_slots(&set[..*count as usize]);
        rest = after;
    }
    dirty
}

/// How many of these slots are dirty.
fn count_dirty_slots(slots: &[Slot]) -> u64
    ensures value { result ≡ count_by (λ slot. slot.dirty) slots.now }
    ensures bound { result ≤ length slots.now }
{
    slots.iter().filter(|slot| slot.dirty).count() as u64
}

/// Leaves no slot filled.
fn clear(filled: &mut [u32])
    ensures { filled.new ≡ replicate (length filled.old) 0 }
{
    filled.fill(0);
}
