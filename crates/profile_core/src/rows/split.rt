//! Rows of blocks whose first numbers are in an array of their own, so that the second block of a
//! list is found without a look at the rest of its row.

ghost use Rattle.std.specs.Prelude.{◌≡◌, ◌+◌, ◌^◌, ◌≤◌, IfOk};
ghost use Rattle.profile_core.specs.internal.rows.Rows.{blank_rows};

use crate::rests::RestStore;
use crate::rows::RowStore;
use crate::set_lists::recency::Standing;
use std::alloc::{AllocError, Global};
use std::marker::Model;
use std::mem;

/// A row for each set: its first number in `firsts`, the others in its rest.
#[derive(Drop)]
pub struct SplitRows<R: RestStore> {
    firsts: Vec<u64>,
    rests: R,
}

impl<R: RestStore> Model for SplitRows<R> {
    ghost use Rattle.std.specs.Prelude.{◌+◌};
    ghost use Rattle.profile_core.specs.internal.rows.Rows.{RowsValue};
    ghost use Rattle.profile_core.specs.internal.rows.SplitRows.{split_rows, AreSplitRows};

    ghost Value = { RowsValue };

    ghost view = { λ r. record {
      stride = (R.view r.rests).stride + 1;
      rows = split_rows r.firsts.items (R.view r.rests).rows;
    } };

    ghost invariant = { λ r. AreSplitRows r.firsts.items (R.view r.rests) };
}

impl<R: RestStore> SplitRows<R> {
    /// Rows of zeros for a number of sets, of which each has a rest of zeros.
    pub fn new(alloc: Global, rests: R, sets: usize) -> Result<SplitRows<R>, AllocError>
        requires blank { R.view rests ≡ blank_rows sets (R.view rests).stride }
        requires some { 1 ≤ (R.view rests).stride }
        requires small { (R.view rests).stride ≤ 2 ^ 21 }
        ensures { IfOk result (λ r. r ≡ blank_rows sets ((R.view rests).stride + 1)) }
    {
        Ok(SplitRows {
            firsts: vec![in alloc; 0; sets]?,
            rests,
        })
    }
}

impl<R: RestStore> RowStore for SplitRows<R> {
    ghost view = { λ r. r };

    #[inline(always)]
    fn first(&self, set: usize) -> u64 {
        self.firsts[set]
    }

    #[inline(always)]
    fn put_first(&mut self, set: usize, number: u64) {
        self.firsts[set] = number;
    }

    #[inline(always)]
    fn bring(&mut self, set: usize, front: &mut u64, len: &mut u32, block: u64) -> Standing {
        // Read before anything is written: the compiler doesn't know that the arrays lie apart.
        let (held, place) = (*len, &mut self.firsts[set]);
        let first = mem::replace(front, block);
        let second = mem::replace(place, first);
        if held == 1 {
            *len = 2;
            return Standing::New(1);
        }
        self.rests.exchange(set, second, len, block)
    }
}
