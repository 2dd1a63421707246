//! Replacement: which blocks each policy evicts, and a policy of another crate.
ghost use Rattle.std.specs.Prelude.{◌≤◌};

use cache_core::{AllocMode, Cache, Fifo, Geometry, Lru, Random, Replacement, Slot, WriteMode};
use rand_core::utils::NextWord;
use rand_pcg::Pcg32;
use std::alloc::Global;
use std::process::Abort;
use std::test::Fail;
use trace_core::{Access, Ref};

/// One set of so many ways, with blocks of 16 bytes.
fn one_set<P: Replacement>(alloc: Global, ways: u64, policy: P) -> Result<Cache<P>, Fail> {
    let geometry = Geometry::new(0, ways, 4).ok_or("no geometry")?;
    let (write, allocate) = (WriteMode::Back, AllocMode::Always);
    Ok(Cache::new(alloc, geometry, policy, write, allocate)?)
}

/// The effect of a read of a block: whether it hits, and which block it evicts.
type Step = (bool, Option<u64>);

const HIT: Step = (true, None);

const FILL: Step = (false, None);

fn evicts(block: u64) -> Step {
    (false, Some(block))
}

/// Reads blocks by their numbers, and compares the effect of each read.
fn expect_steps<P: Replacement>(rt: &impl Abort, cache: &mut Cache<P>, steps: &[(u64, Step)]) {
    for (i, (block, step)) in steps.iter().enumerate() {
        let access = Access::Read;
        let addr = block.wrapping_mul(16);
        let outcome = cache.access(Ref { access, addr });
        let gone = outcome.evicted.map(|slot| slot.block);
        assert!(rt; (outcome.hit, gone) == *step, "at read {i}");
    }
}

#[test]
fn the_oldest_use_leaves_first(rt: HostRuntime) -> Result<(), Fail> {
    let mut cache = one_set(rt.alloc(), 2, Lru::new())?;
    let six = [
        (1, FILL),
        (2, FILL),
        (3, evicts(1)),
        (1, evicts(2)),
        (2, evicts(3)),
        (1, HIT),
    ];
    expect_steps(&rt, &mut cache, &six);
    expect_steps(&rt, &mut cache, &[(3, evicts(2)), (1, HIT), (2, evicts(3))]);
    Ok(())
}

#[test]
fn the_oldest_placing_leaves_first(rt: HostRuntime) -> Result<(), Fail> {
    let mut cache = one_set(rt.alloc(), 2, Fifo::new())?;
    let six = [
        (1, FILL),
        (2, FILL),
        (3, evicts(1)),
        (1, evicts(2)),
        (2, evicts(3)),
        (1, HIT),
    ];
    expect_steps(&rt, &mut cache, &six);
    expect_steps(&rt, &mut cache, &[(3, evicts(1)), (2, HIT), (1, evicts(2))]);
    Ok(())
}

/// Hits, misses and evictions of reads of these blocks.
fn counted<P: Replacement>(cache: &mut Cache<P>, blocks: &[u64]) -> (u64, u64, u64) {
    let (mut hits, mut misses, mut evictions) = (0u64, 0u64, 0u64);
    for block in blocks {
        let access = Access::Read;
        let addr = block.wrapping_mul(16);
        let outcome = cache.access(Ref { access, addr });
        if outcome.hit {
            hits = hits.saturating_add(1);
        } else {
            misses = misses.saturating_add(1);
        }
        if outcome.evicted.is_some() {
            evictions = evictions.saturating_add(1);
        }
    }
    (hits, misses, evictions)
}

// The trace by which Belady, Nelson and Shedler (1969) show that more lines can miss more.
#[test]
fn more_ways_can_hit_less(rt: HostRuntime) -> Result<(), Fail> {
    let trace = [1, 2, 3, 4, 1, 2, 5, 1, 2, 3, 4, 5];
    for (ways, wanted) in [(3, (3, 9, 6)), (4, (2, 10, 6))] {
        let mut cache = one_set(rt.alloc(), ways, Fifo::new())?;
        assert!(rt; counted(&mut cache, &trace) == wanted, "{ways} ways");
    }
    for (ways, wanted) in [(3, (2, 10, 7)), (4, (4, 8, 4)), (5, (7, 5, 0))] {
        let mut cache = one_set(rt.alloc(), ways, Lru::new())?;
        assert!(rt; counted(&mut cache, &trace) == wanted, "{ways} ways");
    }
    Ok(())
}

#[test]
fn the_generator_gives_its_first_numbers(rt: HostRuntime) {
    let mut generator = Pcg32::new(42, 54);
    for number in [0xA15C_02B7, 0x7B47_F409, 0xBA1D_3330, 0x83D2_F293u32] {
        assert!(rt; generator.next_word() == number);
    }
}

// The first two numbers are odd, so way 1 is taken out twice; the third is even. A flush draws
// none.
#[test]
fn a_random_number_takes_out_its_way(rt: HostRuntime) -> Result<(), Fail> {
    let mut cache = one_set(rt.alloc(), 2, Random::new(42))?;
    let six = [
        (1, FILL),
        (2, FILL),
        (3, evicts(2)),
        (1, HIT),
        (2, evicts(3)),
        (1, HIT),
    ];
    expect_steps(&rt, &mut cache, &six);
    assert!(rt; cache.flush() == 0);
    expect_steps(&rt, &mut cache, &[(1, FILL), (2, FILL), (3, evicts(1))]);
    Ok(())
}

/// Most recently used: the slot of the last use or placing is evicted. It stands in front.
#[derive(Clone, Copy, Debug)]
struct Mru;

impl Replacement for Mru {
    fn touch(&mut self, set: &mut [Slot], at: usize) -> usize {
        Lru::new().touch(set, at)
    }

    fn place(&mut self, set: &mut [Slot], filled: usize, new: Slot) -> (usize, Option<Slot>) {
        if filled < set.len() {
            return Lru::new().place(set, filled, new);
        }
        let gone = set[0];
        set[0] = new;
        (0, Some(gone))
    }
}

#[test]
fn a_policy_of_ones_own_chooses_what_leaves(rt: HostRuntime) -> Result<(), Fail> {
    let mut cache = one_set(rt.alloc(), 2, Mru)?;
    let reads = [
        (1, FILL),
        (2, FILL),
        (3, evicts(2)),
        (1, HIT),
        (2, evicts(1)),
        (3, HIT),
        (1, evicts(3)),
        (2, HIT),
    ];
    expect_steps(&rt, &mut cache, &reads);
    Ok(())
}
