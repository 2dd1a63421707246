//! Slots for blocks, and how many of the slots before one are live.
ghost use Rattle.std.specs.Prelude.{◌≡◌, ◌+◌, ◌<◌, ◌≤◌, ◌^◌, ◌*◌, ℕ, length, sum, take, drop};
ghost use Rattle.std.specs.Prelude.{replicate, slice_set, IfOk, MatchOption, slice_index, nat_eq};
ghost use Rattle.std.specs.Prelude.{IsTrue, ◌↔◌};
ghost use Rattle.deep_list.specs.Slots.{SlotsValue, slots_with_block, slots_without};

use std::alloc::{AllocError, Global};
use std::marker::Model;

/// How many slots share a count.
const CHUNK: usize = 256;

/// Part of the slots: from `top` on and before `end`.
#[derive(Clone, Copy, Debug)]
pub struct Span {
    pub top: usize,
    pub end: usize,
}

/// Slots, each with a block, and with 1 if it is live and else 0; `counts` has for each `CHUNK`
/// slots how many of them are live.
#[derive(Drop)]
pub struct Slots {
    blocks: Vec<u64>,
    live: Vec<u8>,
    counts: Vec<u32>,
}

impl Model for Slots {
    ghost use Rattle.deep_list.specs.Slots.{SlotsValue, HasCounts};

    ghost Value = { SlotsValue };

    ghost view = { λ s. record { blocks = s.blocks.items; live = s.live.items } };

    ghost invariant = { λ s. HasCounts s.blocks.items s.live.items s.counts.items };
}

impl Slots {
    /// Slots of which none is live.
    pub fn new(alloc: Global, count: usize) -> Result<Slots, AllocError>
        requires { count ≤ 2 ^ 24 }
        ensures { IfOk result (λ r. r ≡ record {
          blocks = replicate count 0;
          live =
              replicate count 0;
        }) }
    {
        Ok(Slots {
            blocks: vec![in alloc; 0; count]?,
            live: vec![in alloc; 0; count]?,
            counts: vec![in alloc; 0; count / CHUNK + 1]?,
        })
    }

    /// How many slots there are.
    pub fn len(&self) -> usize
        ensures { result ≡ length self.now.live }
    {
        self.live.len()
    }

    /// Whether a slot is live.
    #[inline(always)]
    pub fn is_live(&self, slot: usize) -> bool
        requires { slot < length self.now.live }
        ensures { result ≡ nat_eq (slice_index self.now.live slot) 1 }
    {
        self.live[slot] == 1
    }

    /// The block of a slot.
    #[inline(always)]
    pub fn block(&self, slot: usize) -> u64
        requires { slot < length self.now.blocks }
        ensures { result ≡ slice_index self.now.blocks slot }
    {
        self.blocks[slot]
    }

    /// The block of each slot.
    #[inline(always)]
    pub fn blocks(&self) -> &[u64]
        ensures { result.now ≡ self.now.blocks }
    {
        &self.blocks
    }

    /// How many slots before one are live.
    pub fn live_before(&self, slot: usize) -> usize
        requires { slot < length self.now.live }
        ensures { result ≡ sum (take slot self.now.live) }
    {
        let chunk = slot / CHUNK;
        let before = total(&self.counts[..chunk]);
        let within = total_flags(&self.live[chunk * CHUNK..slot]);
        before as usize + within as usize
    }

    /// Puts a block into a slot that is not live.
    pub fn fill(&mut self, slot: usize, block: u64)
        requires within { slot < length self.old.live }
        requires vacant { slice_index self.old.live slot ≡ 0 }
        ensures { self.new ≡ slots_with_block self.old slot block }
    {
        self.blocks[slot] = block;
        self.live[slot] = 1;
        self.counts[slot / CHUNK] += 1;
    }

    /// Takes the block out of a live slot.
    pub fn vacate(&mut self, slot: usize)
        requires within { slot < length self.old.live }
        requires live { slice_index self.old.live slot ≡ 1 }
        ensures { self.new ≡ slots_without self.old slot }
    {
        self.live[slot] = 0;
        self.counts[slot / CHUNK] -= 1;
    }
}

/// The sum of counts.
fn total(counts: &[u32]) -> u32
    requires { sum counts.now < 2 ^ 32 }
    ensures { result ≡ sum counts.now }
{
    let mut total = 0;
    for count in counts {
        total += *count;
    }
    total
}

/// The sum of flags.
fn total_flags(flags: &[u8]) -> u8
    requires { sum flags.now < 2 ^ 8 }
    ensures { result ≡ sum flags.now }
{
    let mut total = 0;
    for flag in flags {
        total += *flag;
    }
    total
}
