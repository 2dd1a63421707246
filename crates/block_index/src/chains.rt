//! Chains of slots, on which the slot of a block is looked for.
ghost use Rattle.std.specs.Prelude.{◌≡◌, ◌+◌, ◌<◌, ◌≤◌, ◌^◌, ℕ, length, slice_index, MatchOption};
ghost use Rattle.block_index.specs.Chains.{chain_of_block, IsSought, IsFirst};

/// How many slots of a chain are looked at. A chain is hardly ever longer, unless its blocks were
/// chosen for it. Then the slots are searched in order, which is faster.
const LONGEST: usize = 32;

/// The chain of a block, of at most 2^24: blocks at a stride of any power of two are spread over
/// all.
#[inline(always)]
pub fn chain_among(chains: usize, block: u64) -> usize
    requires some { 1 ≤ chains }
    requires few { chains ≤ 2 ^ 24 }
    ensures is { result ≡ chain_of_block chains block }
    ensures within { result < chains }
{
    let mixed = block.wrapping_mul(0x9E37_79B9_7F4A_7C15) / 0x1_0000_0000;
    (mixed * chains as u64 / 0x1_0000_0000) as usize
}

/// The first slot of a chain that has a block: `blocks` has that of each slot, and `links` the node
/// after each slot. The chain begins with node `first`, and ends before a node that is no slot. If
/// it is long, the slots from `from` on and before `end` are searched in order instead.
#[inline(always)]
pub fn find_on_chain(
    links: &[u32],
    first: u32,
    blocks: &[u64],
    block: u64,
    from: usize,
    end: usize,
) -> Option<usize>
    requires linked { length blocks.now ≤ length links.now }
    requires end { end ≤ length blocks.now }
    ensures { MatchOption result
        ((s : ℕ) → IsSought links.now blocks.now first from end block s → ⊥)
        (λ slot. IsFirst links.now blocks.now first from end block slot) }
{
    let mut node = first as usize;
    for step in 0..LONGEST {
        if node >= blocks.len() {
            return None;
        }
        if blocks[node] == block {
            return Some(node);
        }
        node = links[node] as usize;
    }
    search(blocks, block, from, end)
}

/// The first slot that has a block, of those from `from` on and before `end`.
#[inline(never)]
fn search(blocks: &[u64], block: u64, from: usize, end: usize) -> Option<usize>
    requires { end ≤ length blocks.now }
    ensures { MatchOption result
        ((s : ℕ) → from ≤ s → s < end → slice_index blocks.now s ≡ block → ⊥)
        (λ slot. (from ≤ slot) × (slot < end) × (slice_index blocks.now slot ≡ block)
        × ((s : ℕ) → from ≤ s → s < slot → slice_index blocks.now s ≡ block → ⊥)) }
{
    for slot in from..end {
        if blocks[slot] == block {
            return Some(slot);
        }
    }
    None
}
