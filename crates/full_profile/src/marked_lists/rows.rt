//! Recency lists in rows, the plainest way: blocks in one array, their clean depths in another, and
//! a length for each list.
ghost use Rattle.std.specs.Prelude.{◌≡◌, ◌+◌, ◌-◌, ◌*◌, ◌^◌, ◌<◌, ◌≤◌, IfOk, length, slice_index};
ghost use Rattle.std.specs.Prelude.{sum};
ghost use Rattle.full_profile.specs.internal.Copies.{with_copies_of, up_to_of};
ghost use Rattle.full_profile.specs.internal.Marked.{empty_marked, blocks_in, cleans_in};
ghost use Rattle.full_profile.specs.internal.Marked.{after_mark_in_front, without_list};

use crate::copies::{Copies, Emptying};
use crate::marked_lists::MarkedTouch;
use crate::marked_lists::row::bring_in_row;
use crate::marked_lists::touched::{ListStore, TouchedLists};
use std::alloc::{AllocError, Global};
use std::marker::Model;
use trace_core::Access;

/// A row for each set, in the order of the sets. The list of a set is what its row begins with. The
/// first block of a row whose list is empty is 0.
#[derive(Drop)]
pub struct ListRows {
    depth: usize,
    blocks: Vec<u64>,
    cleans: Vec<u32>,
    lens: Vec<u32>,
}

impl Model for ListRows {
    ghost use Rattle.full_profile.specs.internal.Marked.{Marked};
    ghost use Rattle.full_profile.specs.internal.Rows.{AreRows, all_listed};

    ghost Value = { Marked };

    ghost view = { λ r. record {
      depth = r.depth;
      blocks = all_listed r.depth r.blocks.items r.lens.items;
      cleans = all_listed r.depth r.cleans.items r.lens.items;
    } };

    ghost invariant = { λ r. AreRows r.depth r.blocks.items r.cleans.items r.lens.items };
}

impl ListRows {
    /// Empty lists for a number of sets.
    pub fn new(alloc: Global, sets: usize, depth: usize) -> Result<ListRows, AllocError>
        requires some { 1 ≤ depth }
        requires small { sets * depth ≤ 2 ^ 22 }
        ensures { IfOk result (λ rows. rows ≡ empty_marked sets depth) }
    {
        Ok(ListRows {
            depth,
            blocks: vec![in alloc; 0; sets * depth]?,
            cleans: vec![in alloc; 0; sets * depth]?,
            lens: vec![in alloc; 0; sets]?,
        })
    }

    /// How many blocks a row has room for.
    #[inline(always)]
    pub fn depth(&self) -> usize
        ensures { result ≡ self.now.depth }
    {
        self.depth
    }

    /// The last block of a set's list, if the list is full.
    #[inline(always)]
    pub fn last(&self, set: usize) -> u64
        requires { set < length self.now.blocks }
        ensures { length (blocks_in self.now set) ≡ self.now.depth
            → result ≡ slice_index (blocks_in self.now set) (self.now.depth - 1) }
    {
        self.blocks[set * self.depth + self.depth - 1]
    }

    /// Gives the front of a set's list this clean depth.
    #[inline(always)]
    pub fn mark_front(&mut self, set: usize, clean: u32)
        requires within { set < length self.old.blocks }
        requires some { 0 < length (blocks_in self.old set) }
        ensures { self.new ≡ after_mark_in_front self.old set clean }
    {
        self.cleans[set * self.depth] = clean;
    }

    /// Empties a set's list, and counts the copybacks of its blocks, which are the first of a list
    /// of up to `depth` blocks.
    pub fn empty_row(&mut self, set: usize, emptying: Emptying, copies: &mut Copies, depth: usize)
        requires set { set < length self.old.blocks }
        requires deep { self.old.depth ≤ depth }
        requires above_within { depth < length copies.old.above }
        requires within { depth < length copies.old.up_to }
        requires above { sum copies.old.above + length (cleans_in self.old set) < 2 ^ 63 }
        requires up_to { sum copies.old.up_to + length (cleans_in self.old set) < 2 ^ 63 }
        ensures lists { self.new ≡ without_list self.old set }
        ensures copies { copies.new ≡ with_copies_of (up_to_of emptying depth) 0
            (cleans_in self.old set) copies.old }
    {
        let start = set * self.depth;
        let end = start + self.lens[set] as usize;
        copies.add_list(&self.cleans[start..end], emptying, depth);
        self.blocks[start] = 0;
        self.lens[set] = 0;
    }
}

impl TouchedLists<ListRows> {
    /// Empty lists in rows for a number of sets. It takes 12 bytes for each of `sets * depth`
    /// blocks, and 4 and a quarter for each set.
    pub fn in_rows(
        alloc: Global,
        sets: usize,
        depth: usize,
    ) -> Result<TouchedLists<ListRows>, AllocError>
        requires filled { 1 ≤ sets }
        requires some { 1 ≤ depth }
        requires small { sets * depth ≤ 2 ^ 22 }
        ensures { IfOk result (λ lists. lists ≡ empty_marked sets depth) }
    {
        let rows = ListRows::new(alloc, sets, depth)?;
        TouchedLists::new(alloc, rows, sets)
    }
}

impl ListStore for ListRows {
    ghost view = { λ r. r };

    fn sets(&self) -> usize {
        self.lens.len()
    }

    #[inline(always)]
    fn front(&self, set: usize) -> u64 {
        self.blocks[set * self.depth]
    }

    #[inline(always)]
    fn held(&self, set: usize) -> u32 {
        self.lens[set]
    }

    #[inline(always)]
    fn front_clean(&self, set: usize) -> u32 {
        self.cleans[set * self.depth]
    }

    #[inline(always)]
    fn write_front(&mut self, set: usize) {
        self.mark_front(set, 0);
    }

    #[inline(always)]
    fn bring(&mut self, set: usize, block: u64, access: Access) -> MarkedTouch {
        let start = set * self.depth;
        let end = start + self.depth;
        bring_in_row(
            &mut self.blocks[start..end],
            &mut self.cleans[start..end],
            &mut self.lens[set],
            block,
            access,
        )
    }

    fn empty_list(&mut self, set: usize, emptying: Emptying, copies: &mut Copies) {
        let depth = self.depth;
        self.empty_row(set, emptying, copies, depth);
    }
}
