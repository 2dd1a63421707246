//! Recency lists in rows that sets take when they first have a block. Most sets of a large cache
//! never do, and clearing their rows would take longer than many traces.
ghost use Rattle.std.specs.Prelude.{◌≡◌, ◌+◌, ◌*◌, ◌/◌, ◌^◌, ◌<◌, ◌≤◌, ◌++◌, ℕ, IfOk, length, take};
ghost use Rattle.std.specs.Prelude.{slice_index, vec_len, vec_capacity};
ghost use Rattle.profile_core.specs.internal.rests.SparseRests.{sparse_rest, IsSparse};
ghost use Rattle.full_profile.specs.internal.Marked.{empty_marked};

use crate::copies::{Copies, Emptying};
use crate::marked_lists::MarkedTouch;
use crate::marked_lists::row::bring_in_row;
use crate::marked_lists::touched::{ListStore, TouchedLists};
use std::alloc::{AllocError, Global};
use std::marker::Model;
use trace_core::Access;

/// A row for each set that has had a block: the list of the set is what its row begins with.
/// `blocks` has one row after the other, and `cleans` the clean depths beside them. The first row
/// stays blank, and stands for all sets that have had no block. `places` has the index of each
/// set's row, 0 if it has none of its own. The first block of a row whose list is empty is 0. `new`
/// takes all memory, but only memory of rows that are taken is written.
#[derive(Drop)]
pub struct SparseRows {
    depth: usize,
    places: Vec<u32>,
    blocks: Vec<u64>,
    cleans: Vec<u32>,
    lens: Vec<u32>,
}

impl Model for SparseRows {
    ghost use Rattle.std.specs.Prelude.{vec_capacity};
    ghost use Rattle.full_profile.specs.internal.Marked.{Marked};
    ghost use Rattle.full_profile.specs.internal.SparseRows.{AreSparse, all_sparse};

    ghost Value = { Marked };

    ghost view = { λ r. record {
      depth = r.depth;
      blocks = all_sparse r.depth r.places.items r.blocks.items r.lens.items;
      cleans = all_sparse r.depth r.places.items r.cleans.items r.lens.items;
    } };

    ghost invariant = { λ r. AreSparse r.depth r.places.items r.blocks.items r.cleans.items
        r.lens.items (vec_capacity r.blocks) (vec_capacity r.cleans) };
}

impl SparseRows {
    /// Empty lists for a number of sets, of which none has a row.
    pub fn new(alloc: Global, sets: usize, depth: usize) -> Result<SparseRows, AllocError>
        requires filled { 1 ≤ sets }
        requires some { 1 ≤ depth }
        requires small { sets * depth ≤ 2 ^ 22 }
        ensures { IfOk result (λ rows. rows ≡ empty_marked sets depth) }
    {
        let mut blocks = Vec::with_capacity(alloc, (sets + 1) * depth)?;
        blocks.resize(depth, 0)?;
        let mut cleans = Vec::with_capacity(alloc, (sets + 1) * depth)?;
        cleans.resize(depth, 0)?;
        Ok(SparseRows {
            depth,
            places: vec![in alloc; 0; sets]?,
            blocks,
            cleans,
            lens: vec![in alloc; 0; sets]?,
        })
    }
}

impl TouchedLists<SparseRows> {
    /// Empty lists in sparse rows for a number of sets. It takes 12 bytes for each of
    /// `(sets + 1) * depth` blocks, and 8 and a quarter for each set.
    pub fn in_sparse(
        alloc: Global,
        sets: usize,
        depth: usize,
    ) -> Result<TouchedLists<SparseRows>, AllocError>
        requires filled { 1 ≤ sets }
        requires some { 1 ≤ depth }
        requires small { sets * depth ≤ 2 ^ 22 }
        ensures { IfOk result (λ lists. lists ≡ empty_marked sets depth) }
    {
        let rows = SparseRows::new(alloc, sets, depth)?;
        TouchedLists::new(alloc, rows, sets)
    }
}

impl ListStore for SparseRows {
    ghost view = { λ r. r };

    fn sets(&self) -> usize {
        self.lens.len()
    }

    #[inline(always)]
    fn front(&self, set: usize) -> u64 {
        self.blocks[self.places[set] as usize * self.depth]
    }

    #[inline(always)]
    fn held(&self, set: usize) -> u32 {
        self.lens[set]
    }

    #[inline(always)]
    fn front_clean(&self, set: usize) -> u32 {
        self.cleans[self.places[set] as usize * self.depth]
    }

    #[inline(always)]
    fn write_front(&mut self, set: usize) {
        self.cleans[self.places[set] as usize * self.depth] = 0;
    }

    #[inline(always)]
    fn bring(&mut self, set: usize, block: u64, access: Access) -> MarkedTouch {
        let (places, blocks, cleans) = (&mut self.places, &mut self.blocks, &mut self.cleans);
        let start = own_row(self.depth, places, blocks, cleans, set) * self.depth;
        let end = start + self.depth;
        bring_in_row(
            &mut self.blocks[start..end],
            &mut self.cleans[start..end],
            &mut self.lens[set],
            block,
            access,
        )
    }

    fn empty_list(&mut self, set: usize, emptying: Emptying, copies: &mut Copies) {
        let held = self.lens[set] as usize;
        if held == 0 {
            return;
        }
        let start = self.places[set] as usize * self.depth;
        copies.add_list(&self.cleans[start..start + held], emptying, self.depth);
        self.blocks[start] = 0;
        self.lens[set] = 0;
    }
}

/// The index of a set's own row, which may be written. A set without one gets one.
#[inline(always)]
fn own_row(
    depth: usize,
    places: &mut [u32],
    blocks: &mut Vec<u64>,
    cleans: &mut Vec<u32>,
    set: usize,
) -> usize
    requires within { set < length places.old }
    requires blocks { IsSparse depth places.old blocks.old.items (vec_capacity blocks.old) }
    requires cleans { IsSparse depth places.old cleans.old.items (vec_capacity cleans.old) }
    ensures which { result ≡ slice_index places.new set }
    ensures own { 0 < result }
    ensures blocks { IsSparse depth places.new blocks.new.items (vec_capacity blocks.new) }
    ensures cleans { IsSparse depth places.new cleans.new.items (vec_capacity cleans.new) }
    ensures same_blocks { (k : ℕ) → sparse_rest depth places.new blocks.new.items k
        ≡ sparse_rest depth places.old blocks.old.items k }
    ensures same_cleans { (k : ℕ) → sparse_rest depth places.new cleans.new.items k
        ≡ sparse_rest depth places.old cleans.old.items k }
    ensures kept { (k : ℕ) → 0 < slice_index places.old k → 0 < slice_index places.new k }
{
    if places[set] == 0 {
        places[set] = take_row(blocks, depth);
        take_clean_row(cleans, depth);
    }
    places[set] as usize
}

/// Appends a blank row of `depth` blocks. Returns its index.
#[cold]
#[inline(never)]
fn take_row(blocks: &mut Vec<u64>, depth: usize) -> u32
    requires some { 0 < depth }
    requires first { depth ≤ vec_len blocks.old }
    requires room { vec_len blocks.old + depth ≤ vec_capacity blocks.old }
    requires few { vec_len blocks.old ≤ 2 ^ 26 }
    ensures which { result ≡ vec_len blocks.old / depth }
    ensures more { blocks.new.items ≡ blocks.old.items ++ take depth blocks.old.items }
    ensures room { vec_capacity blocks.old ≤ vec_capacity blocks.new }
{
    let taken = blocks.len() / depth;
    let Ok(()) = blocks.extend_from_within(0..depth) else {
        unreachable!()
    };
    taken as u32
}

/// Appends a blank row of clean depths.
#[cold]
#[inline(never)]
fn take_clean_row(cleans: &mut Vec<u32>, depth: usize)
    requires first { depth ≤ vec_len cleans.old }
    requires room { vec_len cleans.old + depth ≤ vec_capacity cleans.old }
    ensures more { cleans.new.items ≡ cleans.old.items ++ take depth cleans.old.items }
    ensures room { vec_capacity cleans.old ≤ vec_capacity cleans.new }
{
    let Ok(()) = cleans.extend_from_within(0..depth) else {
        unreachable!()
    };
}
