//! Rests in slots. No number is moved: only the order of the slots changes.

ghost use Rattle.std.specs.Prelude.{◌≡◌, ◌+◌, ◌-◌, ◌^◌, ◌<◌, ◌≤◌, [], ◌∷◌, ◌++◌, length, take, ℕ};
ghost use Rattle.std.specs.Prelude.{slice_index, slice_index_or, IfOk, vec_len, vec_capacity};
ghost use Rattle.std.specs.List.{remove};
ghost use Rattle.profile_core.specs.profile.RecencyList.{index_of};
ghost use Rattle.profile_core.specs.internal.set_lists.Moves.{rest_standing_of};
ghost use Rattle.profile_core.specs.internal.rows.Rows.{blank_rows};
ghost use Rattle.profile_core.specs.Slots.{ordered_numbers, IsOrder};
ghost use Rattle.profile_core.specs.internal.rests.SlottedRests.{no_slots, ArePlaced};

use crate::rests::RestStore;
use crate::set_lists::recency::Standing;
use crate::slots::{BLANK, Slots};
use std::alloc::{AllocError, Global};
use std::marker::Model;

/// A rest for each set, of 1 to 16 numbers. The first of `rests` stays blank, and stands for all
/// that were never written. Slots of a set's own are appended when they are first written. `places`
/// has the index of each set's slots in `rests`, 0 if it has none of its own. `new` takes all
/// memory, but only memory of slots that are appended is written.
#[derive(Drop)]
pub struct SlottedRests {
    stride: usize,
    places: Vec<u32>,
    rests: Vec<Slots>,
}

impl Model for SlottedRests {
    ghost use Rattle.std.specs.Prelude.{vec_capacity, length};
    ghost use Rattle.profile_core.specs.internal.rows.Rows.{RowsValue, rows_by_set};
    ghost use Rattle.profile_core.specs.internal.rests.SlottedRests.{slotted_rest, IsSlotted};

    ghost Value = { RowsValue };

    ghost view = { λ r. record {
      stride = r.stride;
      rows = rows_by_set (length r.places.items) (slotted_rest r.stride r.places.items
          r.rests.items);
    } };

    ghost invariant = { λ r.
        IsSlotted r.stride r.places.items r.rests.items (vec_capacity r.rests) };
}

impl SlottedRests {
    /// Rests of zeros for a number of sets.
    pub fn new(alloc: Global, sets: usize, stride: usize) -> Result<SlottedRests, AllocError>
        requires some { 1 ≤ stride }
        requires most { stride ≤ 16 }
        requires few { sets ≤ 2 ^ 22 }
        ensures { IfOk result (λ r. r ≡ blank_rows sets stride) }
    {
        let mut rests = Vec::with_capacity(alloc, sets + 1)?;
        rests.push(BLANK)?;
        Ok(SlottedRests {
            stride,
            places: vec![in alloc; 0; sets]?,
            rests,
        })
    }
}

impl RestStore for SlottedRests {
    ghost view = { λ r. r };

    #[inline(always)]
    fn exchange(&mut self, set: usize, second: u64, len: &mut u32, block: u64) -> Standing {
        let rest = own_rest(&mut self.places, &mut self.rests, set);
        exchange_in_slots(&mut self.rests[rest], self.stride, second, len, block)
    }
}

/// The index of a set's own slots, which may be written. A set without any gets some.
#[inline(always)]
fn own_rest(places: &mut [u32], rests: &mut Vec<Slots>, set: usize) -> usize
    requires within { set < length places.old }
    requires sound { ArePlaced places.old rests.old.items (vec_capacity rests.old) }
    ensures which { result ≡ slice_index places.new set }
    ensures own { 0 < result }
    ensures sound { ArePlaced places.new rests.new.items (vec_capacity rests.new) }
    ensures same { (k : ℕ) → slice_index_or rests.new.items (slice_index places.new k) no_slots
        ≡ slice_index_or rests.old.items (slice_index places.old k) no_slots }
{
    let place = places[set];
    if place == 0 {
        return place_slots(places, rests, set);
    }
    place as usize
}

/// Gives slots to a set without any. Returns their index.
#[cold]
#[inline(never)]
fn place_slots(places: &mut [u32], rests: &mut Vec<Slots>, set: usize) -> usize
    requires within { set < length places.old }
    requires none { slice_index places.old set ≡ 0 }
    requires sound { ArePlaced places.old rests.old.items (vec_capacity rests.old) }
    ensures which { result ≡ slice_index places.new set }
    ensures own { 0 < result }
    ensures sound { ArePlaced places.new rests.new.items (vec_capacity rests.new) }
    ensures same { (k : ℕ) → slice_index_or rests.new.items (slice_index places.new k) no_slots
        ≡ slice_index_or rests.old.items (slice_index places.old k) no_slots }
{
    let place = take_slots(rests);
    places[set] = place;
    place as usize
}

/// Appends blank slots. Returns their index.
fn take_slots(rests: &mut Vec<Slots>) -> u32
    requires some { 0 < vec_len rests.old }
    requires room { vec_len rests.old < vec_capacity rests.old }
    requires few { vec_len rests.old ≤ 2 ^ 26 }
    ensures which { result ≡ vec_len rests.old }
    ensures more { rests.new.items
        ≡ rests.old.items ++ slice_index_or rests.old.items 0 no_slots ∷ [] }
    ensures room { vec_capacity rests.old ≤ vec_capacity rests.new }
{
    let taken = rests.len();
    let blank = rests[0];
    let Ok(()) = rests.push(blank) else {
        unreachable!()
    };
    taken as u32
}

/// Takes a block out of a list of `len` blocks, of which it is neither of the first two. Those
/// behind the two are in slots, where `second` becomes the first of at most `most`.
#[inline(always)]
fn exchange_in_slots(
    slots: &mut Slots,
    most: usize,
    second: u64,
    len: &mut u32,
    block: u64,
) -> Standing
    requires sound { IsOrder slots.old.marks slots.old.order slots.old.numbers }
    requires some { 1 ≤ most }
    requires most { most ≤ 16 }
    requires two { 2 ≤ len.old }
    requires fits { len.old ≤ most + 2 }
    ensures found { result ≡ rest_standing_of 2 block
        (ordered_numbers slots.old.order slots.old.numbers (len.old - 2)) }
    ensures sound { IsOrder slots.new.marks slots.new.order slots.new.numbers }
    ensures two { 2 ≤ len.new }
    ensures fits { len.new ≤ most + 2 }
    ensures moved { let list = ordered_numbers slots.old.order slots.old.numbers (len.old - 2) in
        ordered_numbers slots.new.order slots.new.numbers (len.new - 2)
        ≡ take most (second ∷ remove list (index_of block list)) }
{
    match slots.find(*len as usize - 2, block) {
        Standing::Behind(place) => {
            slots.put(place, second);
            Standing::Behind(place + 2)
        }
        Standing::New(held) => {
            let place = held.min(most - 1);
            slots.put(place, second);
            *len = place as u32 + 3;
            Standing::New(held + 2)
        }
    }
}
