//! A list of different blocks, the most recent first, with a value beside each. A table finds a
//! block, and flags and counts tell its place in the list (Bennett and Kruskal 1975), both without
//! a walk over the list.
ghost use Rattle.std.specs.Prelude.{◌≡◌, ◌+◌, ◌-◌, ◌<◌, ◌≤◌, ◌^◌, ◌≢◌, ℕ, false, [], ◌∷◌, length};
ghost use Rattle.std.specs.Prelude.{sum, IfOk, MatchOption, slice_index, slice_index_or};
ghost use Rattle.deep_list.specs.Slots.{SlotsValue, AreFlags, slots_with_block, slots_without};
ghost use Rattle.deep_list.specs.Slots.{live_items};
ghost use Rattle.deep_list.specs.Chains.{AreChains, AreFiled};
ghost use Rattle.deep_list.specs.Deep.{has_block, without_block, cut_to, list_after_exchange};
ghost use Rattle.deep_list.specs.Deep.{IsFound, IsLastOfFull, IsRanked, IsGathered, IsOnce};

use crate::chains::Chains;
use crate::slots::{Slots, Span};
use std::alloc::{AllocError, Global};
use std::marker::Model;

/// What an exchange finds: the place where the wanted block stood, and the value beside it, if it
/// was in the list; and the value beside the block that fell out of the list, if one did.
#[derive(Clone, Copy, Debug)]
pub struct Exchanged<V: Copy> {
    pub found: Option<(usize, V)>,
    pub fallen: Option<V>,
}

/// A list of at most `cap` different blocks, with a value beside each, `()` where none is needed.
/// The blocks of the live slots are the list. A block that comes to the front takes the slot before
/// all live ones; when there is none, all are moved to the end of the slots.
#[derive(Drop)]
pub struct DeepList<V: Copy> {
    cap: usize,
    held: usize,
    span: Span,
    slots: Slots,
    chains: Chains,
    values: Vec<V>,
}

impl<V: Copy> Model for DeepList<V> {
    ghost use Rattle.std.specs.Prelude.{◌≡◌, length};
    ghost use Rattle.deep_list.specs.Slots.{live_items};
    ghost use Rattle.deep_list.specs.Deep.{Deep, IsDeep};

    ghost Value = { Deep V };

    ghost view = { λ d. record {
      cap = d.cap;
      blocks = live_items d.slots.blocks d.slots.live;
      values = live_items d.values.items d.slots.live;
    } };

    ghost invariant = { λ d.
        IsDeep d.cap d.held d.span.top d.span.end (length d.values.items) d.slots d.chains };
}

impl<V: Copy> DeepList<V> {
    /// An empty list, whose slots have this value at first. It takes all its memory here: three
    /// slots for each two blocks, of 13 bytes and a value each, and 4 bytes for each chain, of
    /// which there is one for each two blocks.
    pub fn new(alloc: Global, cap: usize, value: V) -> Result<DeepList<V>, AllocError>
        requires some { 1 ≤ cap }
        requires small { cap ≤ 2 ^ 22 }
        ensures { IfOk result (λ d. d ≡ record { cap = cap; blocks = []; values = [] }) }
    {
        let count = cap + cap / 2 + 1;
        Ok(DeepList {
            cap,
            held: 0,
            span: Span {
                top: count,
                end: count,
            },
            slots: Slots::new(alloc, count)?,
            chains: Chains::new(alloc, cap / 2 + 1, count)?,
            values: vec![in alloc; value; count]?,
        })
    }

    /// How many blocks the list has.
    pub fn len(&self) -> usize
        ensures value { result ≡ length self.now.blocks }
        ensures beside { length self.now.values ≡ length self.now.blocks }
    {
        self.held
    }

    /// Takes a block out of the list, if it is there, and puts another with a value in front. If
    /// the list is full, its last block falls out.
    pub fn exchange(&mut self, wanted: u64, given: u64, value: V) -> Exchanged<V>
        requires { has_block given self.old.blocks ≡ false }
        ensures found { IsFound wanted self.old result.found }
        ensures fallen { IsLastOfFull (without_block self.old wanted) result.fallen }
        ensures moved { self.new ≡ list_after_exchange self.old wanted given value }
    {
        let found = self.take_out(wanted);
        let fallen = self.drop_if_full();
        self.put_first(given, value);
        Exchanged { found, fallen }
    }

    /// Takes a block out of the list, if it is there. Returns the place where it was, and its
    /// value.
    fn take_out(&mut self, block: u64) -> Option<(usize, V)>
        ensures found { IsFound block self.old result }
        ensures moved { self.new ≡ without_block self.old block }
    {
        match self.chains.find(&self.slots, self.span, block) {
            Some(slot) => {
                let place = self.slots.live_before(slot);
                self.slots.vacate(slot);
                self.held -= 1;
                Some((place, self.values[slot]))
            }
            None => None,
        }
    }

    /// Takes the last block out of the list if it is full. Returns its value then.
    fn drop_if_full(&mut self) -> Option<V>
        ensures last { IsLastOfFull self.old result }
        ensures dropped { self.new ≡ cut_to (self.old.cap - 1) self.old }
        ensures room { length self.new.blocks < self.new.cap }
    {
        if self.held == self.cap {
            Some(self.drop_last())
        } else {
            None
        }
    }

    /// Takes the last block out of the list. Returns its value.
    pub fn drop_last(&mut self) -> V
        requires { self.old.blocks ≢ [] }
        ensures last { result ≡ slice_index_or self.old.values (length self.old.blocks - 1) result }
        ensures dropped { self.new ≡ cut_to (length self.old.blocks - 1) self.old }
    {
        let Some(slot) = last_live(&self.slots, self.span.end) else {
            unreachable!()
        };
        self.slots.vacate(slot);
        self.span.end = slot;
        self.held -= 1;
        self.values[slot]
    }

    /// Puts a block with a value in front of the list.
    fn put_first(&mut self, block: u64, value: V)
        requires other { has_block block self.old.blocks ≡ false }
        requires room { length self.old.blocks < self.old.cap }
        ensures { self.new ≡ record self.old {
          blocks = block ∷ self.old.blocks;
          values = value ∷ self.old.values;
        } }
    {
        self.span = make_room(
            &mut self.slots,
            &mut self.chains,
            &mut self.values,
            self.span,
        );
        let slot = self.span.top - 1;
        self.slots.fill(slot, block);
        self.chains.add(slot, block);
        self.values[slot] = value;
        self.span.top = slot;
        self.held += 1;
    }

    /// Empties the list. It visits the slots that were used since the list was last empty.
    pub fn clear(&mut self)
        ensures { self.new ≡ record self.old { blocks = []; values = [] } }
    {
        while self.len() > 0 {
            self.drop_last();
        }
    }
}

/// The last live slot before an end.
fn last_live(slots: &Slots, end: usize) -> Option<usize>
    requires { end ≤ length slots.now.live }
    ensures { MatchOption result ((s : ℕ) → s < end → slice_index slots.now.live s ≢ 1)
        (λ slot. (slot < end) × (slice_index slots.now.live slot ≡ 1)
        × ((s : ℕ) → slot < s → s < end → slice_index slots.now.live s ≢ 1)) }
{
    let mut slot = end;
    while slot > 0 {
        slot -= 1;
        if slots.is_live(slot) {
            return Some(slot);
        }
    }
    None
}

/// Makes sure that a slot before the live ones is free: if there is none, moves these to the end.
fn make_room<V: Copy>(slots: &mut Slots, chains: &mut Chains, values: &mut [V], span: Span) -> Span
    requires ranked { IsRanked span.top span.end slots.old chains.old }
    requires beside { length values.old ≡ length slots.old.live }
    requires room { sum slots.old.live < length slots.old.live }
    requires once { IsOnce (live_items slots.old.blocks slots.old.live) }
    ensures ranked { IsRanked result.top result.end slots.new chains.new }
    ensures free { 1 ≤ result.top }
    ensures kept_same { live_items slots.new.blocks slots.new.live ≡ live_items slots.old.blocks
        slots.old.live }
    ensures values { live_items values.new slots.new.live ≡ live_items values.old slots.old.live }
    ensures long { length slots.new.live ≡ length slots.old.live }
    ensures beside { length values.new ≡ length values.old }
{
    if span.top > 0 {
        return span;
    }
    let top = gather(slots, values);
    file_all(chains, slots, top);
    Span {
        top,
        end: slots.len(),
    }
}

/// Moves the live slots to the end, and their values. Returns the first of them.
fn gather<V: Copy>(slots: &mut Slots, values: &mut [V]) -> usize
    requires same { length slots.old.blocks ≡ length slots.old.live }
    requires flags { AreFlags slots.old.live }
    requires beside { length values.old ≡ length slots.old.live }
    ensures slots { IsGathered result slots.old slots.new }
    ensures values { live_items values.new slots.new.live ≡ live_items values.old slots.old.live }
    ensures beside { length values.new ≡ length values.old }
{
    let mut to = slots.len();
    let mut from = to;
    while from > 0 {
        from -= 1;
        if slots.is_live(from) {
            to -= 1;
            shift(slots, from, to);
            values[to] = values[from];
        }
    }
    to
}

/// Moves the block of a live slot to a later slot. No slot in between is live.
fn shift(slots: &mut Slots, from: usize, to: usize)
    requires order { from ≤ to }
    requires within { to < length slots.old.live }
    requires same { length slots.old.blocks ≡ length slots.old.live }
    requires live { slice_index slots.old.live from ≡ 1 }
    requires dead { (s : ℕ) → from < s → s ≤ to → slice_index slots.old.live s ≡ 0 }
    ensures { slots.new ≡ slots_with_block (slots_without slots.old from) to
        (slice_index slots.old.blocks from) }
{
    let block = slots.block(from);
    slots.vacate(from);
    slots.fill(to, block);
}

/// Makes the chains anew, with each live slot on the chain of its block. The live slots are all
/// those from `top` on.
fn file_all(chains: &mut Chains, slots: &Slots, top: usize)
    requires chains { AreChains 0 (length slots.now.live) chains.old }
    requires small { length slots.now.live ≤ 2 ^ 24 }
    requires same { length slots.now.blocks ≡ length slots.now.live }
    requires order { top ≤ length slots.now.live }
    requires before { (s : ℕ) → s < top → slice_index slots.now.live s ≡ 0 }
    ensures chains { AreChains top (length slots.now.live) chains.new }
    ensures filed { AreFiled chains.new slots.now }
{
    chains.clear();
    let mut slot = slots.len();
    while slot > top {
        slot -= 1;
        chains.add(slot, slots.block(slot));
    }
}
