//! A recency list for each set, the most recent block first: the fronts of all lists in one array,
//! the other blocks in rows of blocks, one for each set.

ghost use Rattle.std.specs.Prelude.{◌≡◌, ◌*◌, ◌^◌, ◌<◌, ◌≤◌, [], length, slice_index, MatchOption};
ghost use Rattle.std.specs.Prelude.{◌-◌, replicate, IfOk, slice_index_or, ◌+◌};
ghost use Rattle.cache_core.specs.Touched.{Covers, ListsFilled};
ghost use Rattle.profile_core.specs.internal.set_lists.Moves.{is_second};
ghost use Rattle.profile_core.specs.internal.rows.Rows.{AreLong};
ghost use Rattle.profile_core.specs.internal.set_lists.Lists.{lists_after_bring};

use crate::rows::RowStore;
use crate::rows::plain::PlainRows;
use crate::set_lists::SetLists;
use cache_core::touched::TouchedSets;
use std::alloc::{AllocError, Global};
use std::marker::Model;

/// Where a reference finds a block that is not the front of its set's list. `Behind`: at this stack
/// distance, the block's index in the list, so 1 is the second block. `New`: nowhere in the list,
/// which has this many blocks.
#[derive(Debug, Clone, Copy)]
pub enum Standing {
    Behind(usize),
    New(usize),
}

/// The lists of all sets. A list of `len` blocks is its front and the first `len - 1` blocks of its
/// set's row. The row is first written when the list gets a second block. The front of an empty
/// list is 0. `touched` lists the sets that have a block, as long as they are few, so that a flush
/// visits only these.
#[derive(Drop)]
pub struct RecencyLists<R: RowStore> {
    fronts: Vec<u64>,
    rows: R,
    lens: Vec<u32>,
    touched: TouchedSets,
}

impl<R: RowStore> Model for RecencyLists<R> {
    ghost use Rattle.std.specs.Prelude.{◌+◌};
    ghost use Rattle.profile_core.specs.internal.set_lists.Lists.{Lists, lists_in, IsListed};

    ghost Value = { Lists };

    ghost view = { λ r. record {
      depth = (R.view r.rows).stride + 1;
      lists = lists_in r.fronts.items (R.view r.rows).rows r.lens.items;
    } };

    ghost invariant = { λ r. IsListed r.fronts.items (R.view r.rows) r.lens.items r.touched };
}

impl<R: RowStore> RecencyLists<R> {
    /// Empty lists for a number of sets, of which each has a row.
    pub fn new(alloc: Global, rows: R, sets: usize) -> Result<RecencyLists<R>, AllocError>
        requires enough { sets ≤ length (R.view rows).rows }
        requires long { AreLong (R.view rows) }
        requires small { sets * ((R.view rows).stride + 1) ≤ 2 ^ 22 }
        ensures { IfOk result (λ r. r ≡ record {
          depth = (R.view rows).stride + 1;
          lists = replicate sets [];
        }) }
    {
        Ok(RecencyLists {
            fronts: vec![in alloc; 0; sets]?,
            rows,
            lens: vec![in alloc; 0; sets]?,
            touched: TouchedSets::new(alloc, sets)?,
        })
    }

    /// Begins a set's empty list with a block.
    #[inline(never)]
    fn begin(&mut self, set: usize, block: u64)
        requires within { set < length self.old.lists }
        requires empty { slice_index_or self.old.lists set [] ≡ [] }
        ensures { self.new ≡ lists_after_bring self.old set block }
    {
        self.fronts[set] = block;
        self.lens[set] = 1;
        self.touched.add_grown(set, 0, 1);
    }
}

impl RecencyLists<PlainRows> {
    /// The last block of a set's list, if the list is full.
    #[inline(always)]
    pub fn last_of_full(&self, set: usize) -> Option<u64>
        requires within { set < length self.now.lists }
        requires two { 2 ≤ self.now.depth }
        ensures { MatchOption result (length
            (slice_index_or self.now.lists set []) < self.now.depth)
            (λ last. (length (slice_index_or self.now.lists set []) ≡ self.now.depth)
            × (last ≡ slice_index (slice_index_or self.now.lists set []) (self.now.depth - 1))) }
    {
        if self.lens[set] as usize > self.rows.stride() {
            Some(self.rows.last(set))
        } else {
            None
        }
    }
}

impl<R: RowStore> SetLists for RecencyLists<R> {
    ghost view = { λ r. r };

    #[inline(always)]
    fn front(&self, set: usize) -> u64 {
        self.fronts[set]
    }

    #[inline(always)]
    fn has_block(&self, set: usize) -> bool {
        self.lens[set] != 0
    }

    #[inline(always)]
    fn is_second(&self, set: usize, block: u64) -> bool {
        self.lens[set] > 1 && self.rows.first(set) == block
    }

    #[inline(always)]
    fn bring_second(&mut self, set: usize, block: u64) {
        let front = &mut self.fronts[set];
        self.rows.put_first(set, *front);
        *front = block;
    }

    #[inline(always)]
    fn bring(&mut self, set: usize, block: u64) -> Standing {
        if self.lens[set] == 0 {
            self.begin(set, block);
            return Standing::New(0);
        }
        let front = &mut self.fronts[set];
        self.rows.bring(set, front, &mut self.lens[set], block)
    }

    fn clear(&mut self) {
        blank(&mut self.fronts, &mut self.lens, &self.touched);
        self.touched.clear();
    }

    fn held(&self) -> u64 {
        let mut total = 0;
        for len in &self.lens {
            total += u64::from(*len);
        }
        total
    }
}

/// Sets all fronts and lengths to 0. If the sets that have a block are listed, it visits only
/// these.
fn blank(fronts: &mut [u64], lens: &mut [u32], touched: &TouchedSets)
    requires fronts { Covers touched.now fronts.old }
    requires lens { Covers touched.now lens.old }
    ensures fronts { fronts.new ≡ replicate (length fronts.old) 0 }
    ensures lens { lens.new ≡ replicate (length lens.old) 0 }
{
    match touched.listed() {
        Some(sets) => blank_listed(fronts, lens, sets),
        None => {
            fronts.fill(0);
            lens.fill(0);
        }
    }
}

/// Sets the fronts and lengths of the listed sets to 0; those of all other sets are 0 already.
fn blank_listed(fronts: &mut [u64], lens: &mut [u32], sets: &[u32])
    requires fronts { ListsFilled sets.now fronts.old }
    requires lens { ListsFilled sets.now lens.old }
    ensures fronts { fronts.new ≡ replicate (length fronts.old) 0 }
    ensures lens { lens.new ≡ replicate (length lens.old) 0 }
{
    for set in sets {
        let set = *set as usize;
        fronts[set] = 0;
        lens[set] = 0;
    }
}
