//! Chains of slots, by which the slot of a block is found. Each live slot is on the chain of its
//! block. A chain may also have slots that are no longer live.
ghost use Rattle.std.specs.Prelude.{◌≡◌, ◌<◌, ◌≤◌, ◌^◌, length, replicate};
ghost use Rattle.std.specs.Prelude.{IfOk, MatchOption};
ghost use Rattle.block_index.specs.Chains.{chain_of_block};
ghost use Rattle.deep_list.specs.Slots.{IsAt, NoneHas};
ghost use Rattle.deep_list.specs.Chains.{with_slot, empty_chains};
ghost use Rattle.deep_list.specs.Deep.{IsRanked};

use crate::slots::{Slots, Span};
use block_index::{chain_among, find_on_chain};
use std::alloc::{AllocError, Global};
use std::marker::Model;

/// Each block has one of the chains. `heads` has the first slot of each chain, and `next` for each
/// slot the one after it on its chain; the number of slots stands for none.
#[derive(Drop)]
pub struct Chains {
    heads: Vec<u32>,
    next: Vec<u32>,
}

impl Model for Chains {
    ghost use Rattle.deep_list.specs.Chains.{ChainsValue};

    ghost Value = { ChainsValue };

    ghost view = { λ c. record { heads = c.heads.items; next = c.next.items } };

    ghost invariant = { λ c. Unit {0} };
}

impl Chains {
    /// Empty chains, for a number of slots.
    pub fn new(alloc: Global, count: usize, slots: usize) -> Result<Chains, AllocError>
        requires { slots ≤ 2 ^ 24 }
        ensures { IfOk result (λ c. c ≡ record {
          heads = replicate count slots;
          next =
              replicate slots 0;
        }) }
    {
        Ok(Chains {
            heads: vec![in alloc; slots as u32; count]?,
            next: vec![in alloc; 0; slots]?,
        })
    }

    /// The live slot that has a block, or none. The first slot of the chain that has the block is
    /// the last one that took it: if this one is no longer live, no slot with the block is.
    pub fn find(&self, slots: &Slots, span: Span, block: u64) -> Option<usize>
        requires { IsRanked span.top span.end slots.now self.now }
        ensures { MatchOption result (NoneHas slots.now block)
            (λ slot. (slot < length slots.now.live) × IsAt slots.now block slot) }
    {
        let first = self.heads[chain_among(self.heads.len(), block)];
        let blocks = slots.blocks();
        let slot = find_on_chain(&self.next, first, blocks, block, span.top, span.end)?;
        if slots.is_live(slot) {
            Some(slot)
        } else {
            None
        }
    }

    /// Puts a slot in front of the chain of its block.
    pub fn add(&mut self, slot: usize, block: u64)
        requires some { 1 ≤ length self.old.heads }
        requires few { length self.old.heads ≤ 2 ^ 24 }
        requires within { slot < length self.old.next }
        requires small { length self.old.next ≤ 2 ^ 24 }
        ensures { self.new ≡ with_slot self.old slot
            (chain_of_block (length self.old.heads) block) }
    {
        let chain = chain_among(self.heads.len(), block);
        self.next[slot] = self.heads[chain];
        self.heads[chain] = slot as u32;
    }

    /// Empties all chains.
    pub fn clear(&mut self)
        requires { length self.old.next ≤ 2 ^ 24 }
        ensures { self.new ≡ empty_chains self.old }
    {
        let none = self.next.len() as u32;
        self.heads.fill(none);
    }
}
