//! The rows of all sets in one array.

ghost use Rattle.std.specs.Prelude.{◌≡◌, ◌-◌, ◌*◌, ◌^◌, ◌<◌, ◌≤◌, IfOk, length, slice_index};
ghost use Rattle.profile_core.specs.internal.rows.Rows.{blank_rows, row_for};

use crate::rows::RowStore;
use crate::rows::row::bring_in_row;
use crate::set_lists::recency::Standing;
use std::alloc::{AllocError, Global};
use std::marker::Model;

/// A row of blocks for each set, in the order of the sets.
#[derive(Drop)]
pub struct PlainRows {
    stride: usize,
    sets: usize,
    numbers: Vec<u64>,
}

impl Model for PlainRows {
    ghost use Rattle.profile_core.specs.internal.rows.Rows.{RowsValue, rows_by_set};
    ghost use Rattle.profile_core.specs.internal.rows.PlainRows.{plain_row, IsPlain};

    ghost Value = { RowsValue };

    ghost view = { λ r. record {
      stride = r.stride;
      rows = rows_by_set r.sets (plain_row r.stride r.numbers.items);
    } };

    ghost invariant = { λ r. IsPlain r.stride r.sets r.numbers.items };
}

impl PlainRows {
    /// Rows of zeros for a number of sets.
    pub fn new(alloc: Global, sets: usize, stride: usize) -> Result<PlainRows, AllocError>
        requires small { sets * stride ≤ 2 ^ 22 }
        ensures { IfOk result (λ r. r ≡ blank_rows sets stride) }
    {
        Ok(PlainRows {
            stride,
            sets,
            numbers: vec![in alloc; 0; sets * stride]?,
        })
    }

    /// How many numbers a row has.
    #[inline(always)]
    pub fn stride(&self) -> usize
        ensures { result ≡ self.now.stride }
    {
        self.stride
    }

    /// The last number of a set's row.
    #[inline(always)]
    pub fn last(&self, set: usize) -> u64
        requires within { set < length self.now.rows }
        requires some { 0 < self.now.stride }
        ensures { result ≡ slice_index (row_for self.now set) (self.now.stride - 1) }
    {
        self.numbers[set * self.stride + self.stride - 1]
    }
}

impl RowStore for PlainRows {
    ghost view = { λ r. r };

    #[inline(always)]
    fn first(&self, set: usize) -> u64 {
        self.numbers[set * self.stride]
    }

    #[inline(always)]
    fn put_first(&mut self, set: usize, number: u64) {
        self.numbers[set * self.stride] = number;
    }

    #[inline(always)]
    fn bring(&mut self, set: usize, front: &mut u64, len: &mut u32, block: u64) -> Standing {
        let start = set * self.stride;
        let end = start + self.stride;
        bring_in_row(front, &mut self.numbers[start..end], len, block)
    }
}
