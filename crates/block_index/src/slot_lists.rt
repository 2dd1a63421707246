//! Lists of slots, no slot in two of them, that change in a few steps.
ghost use Rattle.std.specs.Prelude.{◌≡◌, ◌+◌, ◌-◌, ◌<◌, ◌≤◌, ◌^◌, [], true, false, length};
ghost use Rattle.std.specs.Prelude.{replicate};
ghost use Rattle.std.specs.Prelude.{slice_get, slice_index, IfOk, MatchOption, IsTrue, ◌⊎◌};
ghost use Rattle.std.specs.List.{range_with_len};
ghost use Rattle.block_index.specs.SlotLists.{SlotListsValue, has_slot, is_listed, list_at};
ghost use Rattle.block_index.specs.SlotLists.{with_first, without_slot, AreApart, slot_at_node};
ghost use Rattle.block_index.specs.SlotLists.{NoneOfListHas};

use crate::chains::find_on_chain;
use std::alloc::{AllocError, Global};
use std::marker::Model;

/// Lists of the slots 0 to `slots - 1`. Each is circular and linked both ways, with a head among
/// the nodes behind the slots, so that no change needs a branch (Knuth, The Art of Computer
/// Programming, volume 1, 2.2.5).
#[derive(Drop)]
pub struct SlotLists {
    slots: usize,
    before: Vec<u32>,
    after: Vec<u32>,
}

impl Model for SlotLists {
    ghost use Rattle.block_index.specs.SlotLists.{SlotListsValue, linked_lists, AreLinked};

    ghost Value = { SlotListsValue };

    ghost view = { λ s. linked_lists s.after.items s.slots };

    ghost invariant = { λ s. AreLinked s.before.items s.after.items
        (linked_lists s.after.items s.slots) };
}

impl SlotLists {
    /// Empty lists, at most 2^22 of them, for at most 2^22 slots.
    pub fn new(alloc: Global, lists: usize, slots: usize) -> Result<SlotLists, AllocError>
        requires lists { lists ≤ 2 ^ 22 }
        requires slots { slots ≤ 2 ^ 22 }
        ensures { IfOk result (λ r. r ≡ record { slots = slots; lists = replicate lists [] }) }
    {
        let nodes = (slots + lists) as u32;
        Ok(SlotLists {
            slots,
            before: numbers(alloc, nodes)?,
            after: numbers(alloc, nodes)?,
        })
    }

    /// The first slot of a list.
    #[inline(always)]
    pub fn first(&self, list: usize) -> Option<usize>
        requires { list < length self.now.lists }
        ensures { result ≡ slice_get (list_at self.now list) 0 }
    {
        slot_at(self.after[self.slots + list], self.slots)
    }

    /// The last slot of a list.
    #[inline(always)]
    pub fn last(&self, list: usize) -> Option<usize>
        requires { list < length self.now.lists }
        ensures { result ≡ slice_get (list_at self.now list) (length (list_at self.now list) - 1) }
    {
        slot_at(self.before[self.slots + list], self.slots)
    }

    /// The slot of a list that has a block: `blocks` has that of each slot. If the list is long,
    /// the slots from `from` on and before `end` are searched in order instead. If none is found,
    /// none of these that is in the list has the block.
    #[inline(always)]
    pub(crate) fn find(
        &self,
        list: usize,
        blocks: &[u64],
        block: u64,
        from: usize,
        end: usize,
    ) -> Option<usize>
        requires list { list < length self.now.lists }
        requires blocks { length blocks.now ≡ self.now.slots }
        requires end { end ≤ self.now.slots }
        ensures { MatchOption result (NoneOfListHas self.now list blocks.now block from end)
            (λ slot. (slot < self.now.slots) × (slice_index blocks.now slot ≡ block)
            × (IsTrue (has_slot slot (list_at self.now list)) ⊎ ((from ≤ slot) × (slot < end)))) }
    {
        find_on_chain(
            &self.after,
            self.after[self.slots + list],
            blocks,
            block,
            from,
            end,
        )
    }

    /// Puts a slot that is in no list in front of one.
    #[inline(always)]
    pub fn push_front(&mut self, list: usize, slot: usize)
        requires list { list < length self.old.lists }
        requires slot { slot < self.old.slots }
        requires free { is_listed self.old.lists slot ≡ false }
        ensures { self.new ≡ with_first self.old list slot }
    {
        let head = self.slots + list;
        let first = self.after[head];
        self.after[slot] = first;
        self.before[slot] = head as u32;
        self.before[first as usize] = slot as u32;
        self.after[head] = slot as u32;
    }

    /// Takes a slot out of its list. The list isn't looked at: it is named for the contract.
    #[inline(always)]
    pub fn remove(&mut self, list: usize, slot: usize)
        requires list { list < length self.old.lists }
        requires listed { has_slot slot (list_at self.old list) ≡ true }
        ensures { self.new ≡ without_slot self.old list slot }
    {
        let before = self.before[slot];
        let after = self.after[slot];
        self.after[before as usize] = after;
        self.before[after as usize] = before;
    }

    /// A law: all slots that are listed are below the number of slots, and none is listed twice.
    #[inline(always)]
    pub fn are_apart(&self)
        ensures { AreApart self.now }
    {
        let _ = &self.slots;
    }
}

/// A node, if it is a slot.
#[inline(always)]
fn slot_at(node: u32, slots: usize) -> Option<usize>
    ensures { result ≡ slot_at_node slots node }
{
    if (node as usize) < slots {
        Some(node as usize)
    } else {
        None
    }
}

/// The numbers below one.
fn numbers(alloc: Global, count: u32) -> Result<Vec<u32>, AllocError>
    ensures { IfOk result (λ v. v.items ≡ range_with_len 0 count) }
{
    let mut all = Vec::with_capacity(alloc, count as usize)?;
    for number in 0..count {
        all.push(number)?;
    }
    Ok(all)
}
