//! An index that finds the slot of a block without a walk over the slots.
ghost use Rattle.std.specs.Prelude.{◌≡◌, ◌*◌, ◌<◌, ◌≤◌, ◌^◌, ℕ, Some, None, length, replicate};
ghost use Rattle.std.specs.Prelude.{slice_get, slice_set, IfOk, MatchOption};
ghost use Rattle.block_index.specs.BlockIndex.{IndexValue, HasBlock, NoSlotHas, AreDifferent};

use crate::chains::chain_among;
use crate::slot_lists::SlotLists;
use std::alloc::{AllocError, Global};
use std::marker::Model;

/// Which slot has a block. Each slot that has one is on the chain of its block, and no other slot
/// is on a chain; there is a chain for each two slots, and one more.
#[derive(Drop)]
pub struct BlockIndex {
    blocks: Vec<u64>,
    chains: SlotLists,
}

impl Model for BlockIndex {
    ghost use Rattle.block_index.specs.BlockIndex.{IndexValue, blocks_listed, AreOnChains};

    ghost Value = { IndexValue };

    ghost view = { λ x. record { blocks = blocks_listed x.chains.lists 0 x.blocks.items } };

    ghost invariant = { λ x. AreOnChains x.blocks.items x.chains };
}

impl BlockIndex {
    /// An index of at most 2^22 slots, none of which has a block.
    pub fn new(alloc: Global, slots: usize) -> Result<BlockIndex, AllocError>
        requires { slots ≤ 2 ^ 22 }
        ensures { IfOk result (λ r. r.blocks ≡ replicate slots None) }
    {
        Ok(BlockIndex {
            blocks: vec![in alloc; 0; slots]?,
            chains: SlotLists::new(alloc, slots / 2 + 1, slots)?,
        })
    }

    /// The block of a slot that has one.
    #[inline(always)]
    pub fn block(&self, slot: usize) -> u64
        requires { (b : ℕ) × HasBlock self.now slot b }
        ensures { HasBlock self.now slot result }
    {
        self.blocks[slot]
    }

    /// The slot that has a block, if there is one. No slot outside of those from `from` on and
    /// before `end` may have it, and each of these must have a block: they are searched in order
    /// if the chain is long.
    #[inline]
    pub fn find(&self, block: u64, from: usize, end: usize) -> Option<usize>
        requires order { from ≤ end }
        requires end { end ≤ length self.now.blocks }
        requires within { (s : ℕ) → HasBlock self.now s block → (from ≤ s) × (s < end) }
        requires filled { (s : ℕ) → from ≤ s → s < end → (b : ℕ) × HasBlock self.now s b }
        ensures { MatchOption result (NoSlotHas self.now block)
            (λ slot. HasBlock self.now slot block) }
    {
        self.chains.are_apart();
        let chain = chain_among(self.blocks.len() / 2 + 1, block);
        self.chains.find(chain, &self.blocks, block, from, end)
    }

    /// Gives a slot that has no block one that no slot has.
    #[inline(always)]
    pub fn add(&mut self, slot: usize, block: u64)
        requires free { slice_get self.old.blocks slot ≡ Some None }
        requires other { NoSlotHas self.old block }
        ensures { self.new ≡ record { blocks = slice_set self.old.blocks slot (Some block) } }
    {
        self.chains.are_apart();
        let chain = chain_among(self.blocks.len() / 2 + 1, block);
        self.blocks[slot] = block;
        self.chains.push_front(chain, slot);
    }

    /// Takes the block of a slot away.
    #[inline(always)]
    pub fn remove(&mut self, slot: usize)
        requires { (b : ℕ) × HasBlock self.old slot b }
        ensures { self.new ≡ record { blocks = slice_set self.old.blocks slot None } }
    {
        self.chains.are_apart();
        let chain = chain_among(self.blocks.len() / 2 + 1, self.blocks[slot]);
        self.chains.remove(chain, slot);
    }

    /// A law: no two slots have the same block.
    #[inline(always)]
    pub fn are_different(&self)
        ensures { AreDifferent self.now }
    {
        let _ = &self.blocks;
    }
}
