//! Rests that sets take when they need them. Most sets of a large cache never do, and clearing
//! their rests would take longer than many traces.

ghost use Rattle.std.specs.Prelude.{◌≡◌, ◌+◌, ◌*◌, ◌/◌, ◌^◌, ◌<◌, ◌≤◌, ◌++◌, length, take, ℕ, IfOk};
ghost use Rattle.std.specs.Prelude.{slice_index, vec_len, vec_capacity};
ghost use Rattle.profile_core.specs.internal.rows.Rows.{blank_rows};
ghost use Rattle.profile_core.specs.internal.rests.SparseRests.{sparse_rest, IsSparse};

use crate::rests::RestStore;
use crate::rows::row::exchange_in_row;
use crate::set_lists::recency::Standing;
use std::alloc::{AllocError, Global};
use std::marker::Model;

/// A rest for each set. `numbers` has one rest after the other. The first stays blank, and stands
/// for all that were never written. A rest of a set's own is appended when it is first written.
/// `places` has the index of each set's rest, 0 if it has none of its own. `new` takes all memory,
/// but only memory of rests that are appended is written.
#[derive(Drop)]
pub struct SparseRests {
    stride: usize,
    places: Vec<u32>,
    numbers: Vec<u64>,
}

impl Model for SparseRests {
    ghost use Rattle.std.specs.Prelude.{vec_capacity, length};
    ghost use Rattle.profile_core.specs.internal.rows.Rows.{RowsValue, rows_by_set};
    ghost use Rattle.profile_core.specs.internal.rests.SparseRests.{sparse_rest, IsSparse};

    ghost Value = { RowsValue };

    ghost view = { λ r. record {
      stride = r.stride;
      rows = rows_by_set (length r.places.items) (sparse_rest r.stride r.places.items
          r.numbers.items);
    } };

    ghost invariant = { λ r.
        IsSparse r.stride r.places.items r.numbers.items (vec_capacity r.numbers) };
}

impl SparseRests {
    /// Rests of zeros for a number of sets.
    pub fn new(alloc: Global, sets: usize, stride: usize) -> Result<SparseRests, AllocError>
        requires some { 1 ≤ stride }
        requires small { (sets + 1) * stride ≤ 2 ^ 26 }
        ensures { IfOk result (λ r. r ≡ blank_rows sets stride) }
    {
        let mut numbers = Vec::with_capacity(alloc, (sets + 1) * stride)?;
        numbers.resize(stride, 0)?;
        Ok(SparseRests {
            stride,
            places: vec![in alloc; 0; sets]?,
            numbers,
        })
    }
}

impl RestStore for SparseRests {
    ghost view = { λ r. r };

    #[inline(always)]
    fn exchange(&mut self, set: usize, second: u64, len: &mut u32, block: u64) -> Standing {
        let (places, numbers) = (&mut self.places, &mut self.numbers);
        let start = own_rest(self.stride, places, numbers, set) * self.stride;
        let end = start + self.stride;
        exchange_in_row(&mut self.numbers[start..end], second, len, block)
    }
}

/// The index of a set's own rest, which may be written. A set without one gets one.
#[inline(always)]
fn own_rest(stride: usize, places: &mut [u32], numbers: &mut Vec<u64>, set: usize) -> usize
    requires within { set < length places.old }
    requires sound { IsSparse stride places.old numbers.old.items (vec_capacity numbers.old) }
    ensures which { result ≡ slice_index places.new set }
    ensures own { 0 < result }
    ensures sound { IsSparse stride places.new numbers.new.items (vec_capacity numbers.new) }
    ensures same { (k : ℕ) → sparse_rest stride places.new numbers.new.items k
        ≡ sparse_rest stride places.old numbers.old.items k }
{
    let place = places[set];
    if place == 0 {
        return place_rest(stride, places, numbers, set);
    }
    place as usize
}

/// Gives a rest to a set without one. Returns its index.
#[cold]
#[inline(never)]
fn place_rest(stride: usize, places: &mut [u32], numbers: &mut Vec<u64>, set: usize) -> usize
    requires within { set < length places.old }
    requires none { slice_index places.old set ≡ 0 }
    requires sound { IsSparse stride places.old numbers.old.items (vec_capacity numbers.old) }
    ensures which { result ≡ slice_index places.new set }
    ensures own { 0 < result }
    ensures sound { IsSparse stride places.new numbers.new.items (vec_capacity numbers.new) }
    ensures same { (k : ℕ) → sparse_rest stride places.new numbers.new.items k
        ≡ sparse_rest stride places.old numbers.old.items k }
{
    let place = take_rest(numbers, stride);
    places[set] = place;
    place as usize
}

/// Appends a blank rest of `stride` numbers. Returns its index.
fn take_rest(numbers: &mut Vec<u64>, stride: usize) -> u32
    requires some { 0 < stride }
    requires first { stride ≤ vec_len numbers.old }
    requires room { vec_len numbers.old + stride ≤ vec_capacity numbers.old }
    requires few { vec_len numbers.old ≤ 2 ^ 26 }
    ensures which { result ≡ vec_len numbers.old / stride }
    ensures more { numbers.new.items ≡ numbers.old.items ++ take stride numbers.old.items }
    ensures room { vec_capacity numbers.old ≤ vec_capacity numbers.new }
{
    let taken = numbers.len() / stride;
    let Ok(()) = numbers.extend_from_within(0..stride) else {
        unreachable!()
    };
    taken as u32
}
