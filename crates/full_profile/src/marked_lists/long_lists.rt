//! Recency lists with a clean depth beside each block, for lists that may be long. The first blocks
//! of each are in a row. Those behind them are in a deep list, which is not walked.
ghost use Rattle.std.specs.Prelude.{◌≡◌, ◌+◌, ◌*◌, ◌^◌, ◌<◌, ◌≤◌, [], false, length, replicate};
ghost use Rattle.std.specs.Prelude.{sum};
ghost use Rattle.std.specs.Prelude.{IfOk};
ghost use Rattle.deep_list.specs.Deep.{has_block, list_after_exchange};
ghost use Rattle.profile_core.specs.internal.set_lists.LongLists.{empty_deep};
ghost use Rattle.full_profile.specs.internal.Copies.{with_copies_of, up_to_of};
ghost use Rattle.full_profile.specs.internal.Marked.{empty_marked};
ghost use Rattle.full_profile.specs.internal.LongMarked.{front_clean_of, rest_touch_of, IsWithin};

use crate::copies::{Copies, Emptying};
use crate::marked_lists::rows::ListRows;
use crate::marked_lists::touched::{ListStore, TouchedLists};
use crate::marked_lists::{MarkedTouch, writes};
use deep_list::DeepList;
use std::alloc::{AllocError, Global};
use std::marker::Model;
use trace_core::Access;

/// The least depth at which lists are kept in this way. With fewer blocks it costs less to walk
/// over them all.
pub const DEEP: usize = 256;

/// How many blocks of a list stand in its row.
const ROW: usize = 64;

/// The lists of all sets: `near` has the first `ROW` blocks of each, and `far` a list for each set,
/// of up to `beyond` blocks more.
#[derive(Drop)]
pub struct LongLists {
    near: ListRows,
    beyond: usize,
    far: Vec<DeepList<u32>>,
}

impl Model for LongLists {
    ghost use Rattle.full_profile.specs.internal.Marked.{Marked};
    ghost use Rattle.full_profile.specs.internal.LongMarked.{whole_marked, InParts};

    ghost Value = { Marked };

    ghost view = { λ l. whole_marked l.near l.beyond l.far.items };

    ghost invariant = { λ l. InParts l.near l.beyond l.far.items };
}

impl LongLists {
    /// Empty lists for a number of sets.
    pub fn new(alloc: Global, sets: usize, depth: usize) -> Result<LongLists, AllocError>
        requires deep { DEEP ≤ depth }
        requires filled { 1 ≤ sets }
        requires small { sets * depth ≤ 2 ^ 22 }
        ensures { IfOk result (λ lists. lists ≡ empty_marked sets depth) }
    {
        let beyond = depth - ROW;
        let near = ListRows::new(alloc, sets, ROW)?;
        let far = far_lists(alloc, sets, beyond)?;
        Ok(LongLists { near, beyond, far })
    }

    /// How many blocks a list may have.
    #[inline(always)]
    fn depth(&self) -> usize
        ensures { result ≡ self.now.depth }
    {
        self.near.depth() + self.beyond
    }
}

impl TouchedLists<LongLists> {
    /// Empty lists in two parts for a number of sets.
    pub fn in_parts(
        alloc: Global,
        sets: usize,
        depth: usize,
    ) -> Result<TouchedLists<LongLists>, AllocError>
        requires deep { DEEP ≤ depth }
        requires filled { 1 ≤ sets }
        requires small { sets * depth ≤ 2 ^ 22 }
        ensures { IfOk result (λ lists. lists ≡ empty_marked sets depth) }
    {
        let lists = LongLists::new(alloc, sets, depth)?;
        TouchedLists::new(alloc, lists, sets)
    }
}

impl ListStore for LongLists {
    ghost view = { λ l. l };

    fn sets(&self) -> usize {
        self.far.len()
    }

    #[inline(always)]
    fn front(&self, set: usize) -> u64 {
        self.near.front(set)
    }

    #[inline(always)]
    fn held(&self, set: usize) -> u32 {
        self.near.held(set) + self.far[set].len() as u32
    }

    #[inline(always)]
    fn front_clean(&self, set: usize) -> u32 {
        self.near.front_clean(set)
    }

    #[inline(always)]
    fn write_front(&mut self, set: usize) {
        self.near.mark_front(set, 0);
    }

    #[inline(always)]
    fn bring(&mut self, set: usize, block: u64, access: Access) -> MarkedTouch {
        let depth = self.depth();
        let row = self.near.depth();
        let last = self.near.last(set);
        let touch = self.near.bring(set, block, access);
        if let MarkedTouch::Full(clean) = touch {
            let touch = exchange(&mut self.far[set], row, block, last, clean);
            self.near.mark_front(set, front_clean(touch, access, depth));
            return touch;
        }
        self.near.mark_front(set, front_clean(touch, access, depth));
        touch
    }

    fn empty_list(&mut self, set: usize, emptying: Emptying, copies: &mut Copies) {
        let depth = self.depth();
        let held = self.near.held(set) as usize;
        empty_rest(&mut self.far[set], held, emptying, copies, depth);
        self.near.empty_row(set, emptying, copies, depth);
    }
}

/// The clean depth of a block that an access brought to the front of a list of up to `depth`
/// blocks.
#[inline(always)]
fn front_clean(touch: MarkedTouch, access: Access, depth: usize) -> u32
    requires small { depth ≤ 2 ^ 22 }
    requires within { IsWithin depth touch }
    ensures { result ≡ front_clean_of depth access touch }
{
    if writes(access) {
        return 0;
    }
    match touch {
        MarkedTouch::Behind(distance, clean) => clean.max(distance as u32),
        MarkedTouch::New(_) | MarkedTouch::Full(_) => depth as u32,
    }
}

/// Takes a block out of the deep list behind a full row of `row` blocks, if it is there, and puts
/// `last`, which was the last block of the row, with its clean depth in its front. Returns where
/// the block was in the whole list.
fn exchange(rest: &mut DeepList<u32>, row: usize, block: u64, last: u64, clean: u32) -> MarkedTouch
    requires some { 1 ≤ rest.old.cap }
    requires other { has_block last rest.old.blocks ≡ false }
    requires few { row ≤ 2 ^ 22 }
    requires short { length rest.old.blocks ≤ 2 ^ 22 }
    ensures found { result ≡ rest_touch_of row block rest.old }
    ensures moved { rest.new ≡ list_after_exchange rest.old block last clean }
{
    let more = rest.len();
    let exchanged = rest.exchange(block, last, clean);
    match exchanged.found {
        Some((place, clean)) => MarkedTouch::Behind(row + place, clean),
        None => match exchanged.fallen {
            Some(clean) => MarkedTouch::Full(clean),
            None => MarkedTouch::New(row + more),
        },
    }
}

/// Empties a deep list behind `held` blocks, and counts the copybacks of its blocks.
fn empty_rest(
    rest: &mut DeepList<u32>,
    held: usize,
    emptying: Emptying,
    copies: &mut Copies,
    depth: usize,
)
    requires short { held + length rest.old.values ≤ depth }
    requires above_within { depth < length copies.old.above }
    requires within { depth < length copies.old.up_to }
    requires above_few { sum copies.old.above + length rest.old.values < 2 ^ 63 }
    requires few { sum copies.old.up_to + length rest.old.values < 2 ^ 63 }
    ensures list { rest.new ≡ empty_deep rest.old }
    ensures copies { copies.new ≡ with_copies_of (up_to_of emptying depth) held rest.old.values
        copies.old }
{
    let mut left = rest.len();
    while left > 0 {
        left -= 1;
        let clean = rest.drop_last();
        copies.add(clean as usize, emptying.up_to(depth, held + left));
    }
}

/// An empty list for the blocks behind each row.
fn far_lists(alloc: Global, sets: usize, beyond: usize) -> Result<Vec<DeepList<u32>>, AllocError>
    requires some { 1 ≤ beyond }
    requires small { beyond ≤ 2 ^ 22 }
    ensures { IfOk result (λ far.
        far.items ≡ replicate sets (record { cap = beyond; blocks = []; values = [] })) }
{
    let mut far = Vec::with_capacity(alloc, sets)?;
    for made in 0..sets {
        far.push(DeepList::new(alloc, beyond, 0)?)?;
    }
    Ok(far)
}
