//! Recency lists in slots: the front of each list is in one array, and the blocks behind it are in
//! slots, where no block is moved.
ghost use Rattle.std.specs.Prelude.{◌≡◌, ◌^◌, ◌<◌, ◌≤◌, ◌∷◌, IfOk, false, nat_eq, length, take};
ghost use Rattle.std.specs.Prelude.{slice_index, if◌then◌else◌};
ghost use Rattle.std.specs.List.{remove};
ghost use Rattle.trace_core.specs.Events.{is_write};
ghost use Rattle.profile_core.specs.profile.RecencyList.{move_to_front};
ghost use Rattle.full_profile.specs.internal.Marked.{empty_marked, marked_touch_of, cleans_after};
ghost use Rattle.full_profile.specs.internal.Marked.{blocks_in, after_access};
ghost use Rattle.full_profile.specs.internal.Slotted.{IsInSlots, blocks_behind, cleans_behind};
ghost use Rattle.full_profile.specs.internal.Slotted.{listed_blocks, listed_cleans};

use crate::copies::{Copies, Emptying};
use crate::marked_lists::touched::{ListStore, TouchedLists};
use crate::marked_lists::{MarkedTouch, writes};
use profile_core::Standing;
use profile_core::slots::{BLANK, SLOTS, Slots};
use std::alloc::{AllocError, Global};
use std::marker::Model;
use std::mem;
use trace_core::Access;

/// The most blocks of a list in slots. Behind its front are one less, for which there are slots.
pub const MOST: usize = 16;

/// A list of `len` blocks without its front. `cleans` has the clean depths by slot: so none is
/// moved, either.
#[derive(Clone, Copy, Debug)]
struct ListSlots {
    slots: Slots,
    cleans: [u8; SLOTS],
    len: u8,
}

/// An empty list.
const EMPTY: ListSlots = ListSlots {
    slots: BLANK,
    cleans: [0; SLOTS],
    len: 0,
};

impl ListSlots {
    /// Puts a block with its clean depth in front of those behind the front, into the slot of a
    /// place. Returns the clean depth of the block that had this slot.
    #[inline(always)]
    fn put(&mut self, place: usize, block: u64, clean: u8) -> u8
        requires sound { IsInSlots self.old }
        requires within { place < 16 }
        ensures sound { IsInSlots self.new }
        ensures len { self.new.len ≡ self.old.len }
        ensures clean { result ≡ slice_index (cleans_behind self.old) place }
        ensures blocks { blocks_behind self.new ≡ block ∷ remove (blocks_behind self.old) place }
        ensures cleans { cleans_behind self.new ≡ clean ∷ remove (cleans_behind self.old) place }
    {
        let slot = self.slots.put(place, block);
        mem::replace(&mut self.cleans[slot], clean)
    }

    /// Brings a block that is not the front of the list to the front by an access. The list has a
    /// block, and at most `depth` of them.
    #[inline(always)]
    fn bring(
        &mut self,
        front: &mut u64,
        front_clean: &mut u8,
        depth: usize,
        block: u64,
        access: Access,
    ) -> MarkedTouch
        requires sound { IsInSlots self.old }
        requires some { 1 ≤ self.old.len }
        requires fits { self.old.len ≤ depth }
        requires two { 2 ≤ depth }
        requires most { depth ≤ 16 }
        requires behind { nat_eq front.old block ≡ false }
        ensures sound { IsInSlots self.new }
        ensures some { 1 ≤ self.new.len }
        ensures fits { self.new.len ≤ depth }
        ensures found { result ≡ marked_touch_of depth block (listed_blocks front.old self.old)
            (listed_cleans front_clean.old self.old) }
        ensures blocks { listed_blocks front.new self.new
            ≡ take depth (move_to_front block (listed_blocks front.old self.old)) }
        ensures cleans { listed_cleans front_clean.new self.new
            ≡ cleans_after depth access block (listed_blocks front.old self.old)
            (listed_cleans front_clean.old self.old) }
    {
        let second = mem::replace(front, block);
        let held = self.len as usize;
        match self.slots.find(held - 1, block) {
            Standing::Behind(place) => {
                let clean = self.put(place, second, *front_clean);
                *front_clean = clean_if_read(access, clean.max(place as u8 + 1));
                MarkedTouch::Behind(place + 1, clean as u32)
            }
            Standing::New(behind) => {
                let place = behind.min(depth - 2);
                let last = self.put(place, second, *front_clean);
                *front_clean = clean_if_read(access, depth as u8);
                if held < depth {
                    self.len += 1;
                    MarkedTouch::New(held)
                } else {
                    MarkedTouch::Full(last as u32)
                }
            }
        }
    }

    /// The clean depths of the list in its order, and behind them any numbers.
    fn cleans(&self, front_clean: u8) -> [u32; MOST]
        requires sound { IsInSlots self.now }
        requires most { self.now.len ≤ 16 }
        ensures { take self.now.len result ≡ listed_cleans front_clean self.now }
    {
        let mut cleans = [front_clean as u32; MOST];
        for index in 1..self.len as usize {
            let slot = self.slots.order[index - 1];
            cleans[index] = self.cleans[slot as usize] as u32;
        }
        cleans
    }
}

/// The clean depth of a block in front: 0 if the access writes, and otherwise this one.
#[inline(always)]
fn clean_if_read(access: Access, clean: u8) -> u8
    ensures { result ≡ (if is_write access then 0 else clean) }
{
    if writes(access) { 0 } else { clean }
}

/// The lists of all sets. The front of a list that is empty is 0.
#[derive(Drop)]
pub struct SlottedLists {
    depth: usize,
    fronts: Vec<u64>,
    front_cleans: Vec<u8>,
    lists: Vec<ListSlots>,
}

impl Model for SlottedLists {
    ghost use Rattle.full_profile.specs.internal.Marked.{Marked};
    ghost use Rattle.full_profile.specs.internal.Slotted.{AreSlotted, all_blocks, all_cleans};

    ghost Value = { Marked };

    ghost view = { λ s. record {
      depth = s.depth;
      blocks = all_blocks s.fronts.items s.lists.items;
      cleans = all_cleans s.front_cleans.items s.lists.items;
    } };

    ghost invariant = { λ s.
        AreSlotted s.depth s.fronts.items s.front_cleans.items s.lists.items };
}

impl SlottedLists {
    /// Empty lists for a number of sets.
    pub fn new(alloc: Global, sets: usize, depth: usize) -> Result<SlottedLists, AllocError>
        requires two { 2 ≤ depth }
        requires most { depth ≤ 16 }
        requires few { sets ≤ 2 ^ 22 }
        ensures { IfOk result (λ lists. lists ≡ empty_marked sets depth) }
    {
        Ok(SlottedLists {
            depth,
            fronts: vec![in alloc; 0; sets]?,
            front_cleans: vec![in alloc; 0; sets]?,
            lists: vec![in alloc; EMPTY; sets]?,
        })
    }

    /// Begins a set's empty list with a block.
    #[inline(never)]
    fn begin(&mut self, set: usize, block: u64, access: Access)
        requires within { set < length self.old.blocks }
        requires empty { length (blocks_in self.old set) ≡ 0 }
        ensures { self.new ≡ after_access self.old set block access }
    {
        self.fronts[set] = block;
        self.front_cleans[set] = clean_if_read(access, self.depth as u8);
        self.lists[set].len = 1;
    }
}

impl TouchedLists<SlottedLists> {
    /// Empty lists in slots for a number of sets. It takes 193 and a quarter bytes for each.
    pub fn in_slots(
        alloc: Global,
        sets: usize,
        depth: usize,
    ) -> Result<TouchedLists<SlottedLists>, AllocError>
        requires two { 2 ≤ depth }
        requires most { depth ≤ 16 }
        requires few { sets ≤ 2 ^ 22 }
        ensures { IfOk result (λ lists. lists ≡ empty_marked sets depth) }
    {
        let lists = SlottedLists::new(alloc, sets, depth)?;
        TouchedLists::new(alloc, lists, sets)
    }
}

impl ListStore for SlottedLists {
    ghost view = { λ s. s };

    fn sets(&self) -> usize {
        self.lists.len()
    }

    #[inline(always)]
    fn front(&self, set: usize) -> u64 {
        self.fronts[set]
    }

    #[inline(always)]
    fn held(&self, set: usize) -> u32 {
        self.lists[set].len as u32
    }

    #[inline(always)]
    fn front_clean(&self, set: usize) -> u32 {
        self.front_cleans[set] as u32
    }

    #[inline(always)]
    fn write_front(&mut self, set: usize) {
        self.front_cleans[set] = 0;
    }

    #[inline(always)]
    fn bring(&mut self, set: usize, block: u64, access: Access) -> MarkedTouch {
        if self.lists[set].len == 0 {
            self.begin(set, block, access);
            return MarkedTouch::New(0);
        }
        let front = &mut self.fronts[set];
        let front_clean = &mut self.front_cleans[set];
        self.lists[set].bring(front, front_clean, self.depth, block, access)
    }

    fn empty_list(&mut self, set: usize, emptying: Emptying, copies: &mut Copies) {
        let list = &mut self.lists[set];
        let cleans = list.cleans(self.front_cleans[set]);
        copies.add_list(&cleans[..list.len as usize], emptying, self.depth);
        list.len = 0;
        self.fronts[set] = 0;
    }
}
