//! A profile whose lists are kept in one way, and how it is fed: by single references, or by
//! batches.
ghost use Rattle.std.specs.Prelude.{◌≡◌, ◌+◌, ◌*◌, ◌^◌, ◌<◌, ◌≤◌, IfOk, true, false, length, take};
ghost use Rattle.std.specs.Prelude.{replicate, [], slice_index, if◌then◌else◌};
ghost use Rattle.cache_core.specs.Geometry.{block_of, set_of_block};
ghost use Rattle.profile_core.specs.profile.State.{empty, after_reference, after_flush, list_of};
ghost use Rattle.profile_core.specs.profile.State.{fed_of, held_of};
ghost use Rattle.profile_core.specs.profile.Fronts.{is_front_of, after_unless_front, after_fronts};
ghost use Rattle.profile_core.specs.profile.Fronts.{after_batch, fed_of_batch};
ghost use Rattle.profile_core.specs.internal.set_lists.Moves.{is_second};
ghost use Rattle.profile_core.specs.internal.profile.StackProfile.{IsNext, AreHistogramsOf, IsFit};

use crate::profile::MAX_REFERENCES;
use crate::profile::histograms::Histograms;
use crate::set_lists::SetLists;
use crate::set_lists::recency::Standing;
use cache_core::Geometry;
use std::alloc::{AllocError, Global};
use std::marker::Model;

/// The recency lists of all sets (LRU stacks, Mattson 1970), kept in the way `L`, and the numbers
/// counted. The lists are last: so the numbers are at the same place whatever the way.
#[derive(Drop)]
pub struct StackProfile<L: SetLists> {
    geometry: Geometry,
    histograms: Histograms,
    lists: L,
}

impl<L: SetLists> Model for StackProfile<L> {
    ghost use Rattle.profile_core.specs.profile.State.{ProfileState};
    ghost use Rattle.profile_core.specs.internal.profile.StackProfile.{profile_of, AreSound};

    ghost Value = { ProfileState };

    ghost view = { λ p. profile_of p.geometry (L.view p.lists) p.histograms };

    ghost invariant = { λ p. AreSound p.geometry (L.view p.lists) p.histograms };
}

impl<L: SetLists> StackProfile<L> {
    /// A profile with these lists, which are empty. It takes 16 bytes for each associativity and 8
    /// more.
    pub fn new(alloc: Global, geometry: Geometry, lists: L) -> Result<StackProfile<L>, AllocError>
        requires { L.view lists
            ≡ record { depth = geometry.e; lists = replicate (2 ^ geometry.s) [] } }
        ensures { IfOk result (λ profile. profile ≡ empty geometry) }
    {
        let depth = geometry.e() as usize;
        Ok(StackProfile {
            geometry,
            histograms: Histograms {
                distances: vec![in alloc; 0; depth]?,
                misses_by_occupancy: vec![in alloc; 0; depth + 1]?,
            },
            lists,
        })
    }

    /// The geometry of its deepest caches.
    #[inline(always)]
    pub fn geometry(&self) -> Geometry
        ensures value { result ≡ self.now.geometry }
        ensures fit { IsFit self.now }
    {
        self.geometry
    }

    /// The numbers counted.
    #[inline(always)]
    pub fn histograms(&self) -> &Histograms
        ensures { AreHistogramsOf result.now self.now }
    {
        &self.histograms
    }

    /// The front of the list of a block's set, or 0 if the list is empty.
    #[inline(always)]
    pub fn front_for(&self, block: u64) -> u64
        ensures { result ≡ slice_index (list_of self.now (set_of_block self.now.geometry block)) 0 }
    {
        self.lists.front(self.geometry.set_of_block(block) as usize)
    }

    /// Whether a block is the front of the list of its set.
    #[inline(always)]
    pub fn is_front(&self, block: u64) -> bool
        ensures { result ≡ is_front_of self.now block }
    {
        self.lists
            .is_front(self.geometry.set_of_block(block) as usize, block)
    }

    /// How many blocks the lists hold. It visits all sets.
    pub fn held(&self) -> u64
        ensures value { result ≡ held_of self.now }
        ensures at_most { result ≤ self.now.geometry.e * 2 ^ self.now.geometry.s }
    {
        self.lists.held()
    }

    /// Empties the lists.
    pub fn flush(&mut self)
        ensures { self.new ≡ after_flush self.old }
    {
        self.lists.clear();
    }

    /// Counts this many references that find their block in front, and one comparison for each.
    #[inline(always)]
    pub fn count_fronts(&mut self, count: u64)
        requires { fed_of self.old + count ≤ MAX_REFERENCES }
        ensures step { self.new ≡ after_fronts count self.old }
        ensures more { fed_of self.new ≡ fed_of self.old + count }
    {
        self.histograms.distances[0] += count;
    }

    /// Feeds references by their addresses, one after the other, except those that find their block
    /// in front. The addresses that were fed are moved to the front of `addrs`, in order; returns
    /// how many they are. Each way of keeping lists has its own copy of this function, so that the
    /// compiler has all registers for it.
    #[inline(never)]
    pub fn feed_each(&mut self, addrs: &mut [u64]) -> usize
        requires { fed_of self.old + length addrs.old ≤ MAX_REFERENCES }
        ensures step { self.new ≡ after_batch self.old addrs.old }
        ensures more { fed_of self.new ≡ fed_of self.old + result }
        ensures fed { take result addrs.new ≡ fed_of_batch self.old addrs.old }
        ensures within { result ≤ length addrs.new }
        ensures length { length addrs.new ≡ length addrs.old }
    {
        let mut fed = 0;
        for at in 0..addrs.len() {
            let addr = addrs[at];
            if !self.feed_unless_front(addr) {
                addrs[fed] = addr;
                fed += 1;
            }
        }
        fed
    }

    /// Feeds references to two profiles: to the second only those that do not find their block in
    /// front in the first. The addresses of those that find it in front in neither are moved to the
    /// front of `addrs`, in order; returns how many they are. One loop feeds both, since where a
    /// reference finds its block in one predicts where it does in the next.
    #[inline(never)]
    pub fn feed_each_to_two(&mut self, next: &mut StackProfile<L>, addrs: &mut [u64]) -> usize
        requires few { fed_of self.old + length addrs.old ≤ MAX_REFERENCES }
        requires next_few { fed_of next.old + length addrs.old ≤ MAX_REFERENCES }
        ensures step { self.new ≡ after_batch self.old addrs.old }
        ensures more { fed_of self.new
            ≡ fed_of self.old + length (fed_of_batch self.old addrs.old) }
        ensures at_most { fed_of self.new ≤ fed_of self.old + length addrs.old }
        ensures next_step { next.new ≡ after_batch next.old (fed_of_batch self.old addrs.old) }
        ensures next_more { fed_of next.new ≡ fed_of next.old + result }
        ensures fed { take result addrs.new
            ≡ fed_of_batch next.old (fed_of_batch self.old addrs.old) }
        ensures within { result ≤ length addrs.new }
        ensures length { length addrs.new ≡ length addrs.old }
    {
        let mut left = 0;
        for at in 0..addrs.len() {
            let addr = addrs[at];
            if !self.feed_unless_front(addr) {
                if !next.feed_unless_front(addr) {
                    addrs[left] = addr;
                    left += 1;
                }
            }
        }
        left
    }

    /// Feeds one reference of a batch, unless it finds its block in front. Returns whether it does
    /// so.
    #[inline(always)]
    fn feed_unless_front(&mut self, addr: u64) -> bool
        requires { fed_of self.old < MAX_REFERENCES }
        ensures front { result ≡ is_front_of self.old (block_of self.old.geometry addr) }
        ensures step { self.new ≡ after_unless_front self.old (block_of self.old.geometry addr) }
        ensures more { fed_of self.new ≡ fed_of self.old + (if result then 0 else 1) }
    {
        let block = self.geometry.block_of(addr);
        let set = self.geometry.set_of(addr) as usize;
        if self.lists.is_front(set, block) {
            return true;
        }
        self.feed_behind(set, block);
        false
    }

    /// Feeds a single reference as `feed_behind` does one of a batch. It is not inlined, so that a
    /// caller has all registers for references that find their block in front.
    #[inline(never)]
    pub fn feed_single_behind(&mut self, block: u64)
        requires few { fed_of self.old < MAX_REFERENCES }
        requires behind { is_front_of self.old block ≡ false }
        ensures { self.new ≡ after_reference self.old block }
    {
        let set = self.geometry.set_of_block(block) as usize;
        self.feed_behind(set, block);
    }

    /// Feeds a reference to a block that is behind the front of its set's list, or not in the list.
    #[inline(always)]
    fn feed_behind(&mut self, set: usize, block: u64)
        requires { IsNext self.old set block }
        ensures { self.new ≡ after_reference self.old block }
    {
        if self.lists.is_second(set, block) {
            self.feed_second(set, block);
        } else {
            self.feed_further(set, block);
        }
    }

    /// Feeds a reference to the second block of its set's list.
    #[inline(always)]
    fn feed_second(&mut self, set: usize, block: u64)
        requires next { IsNext self.old set block }
        requires second { is_second block (list_of self.old set) ≡ true }
        ensures { self.new ≡ after_reference self.old block }
    {
        self.lists.bring_second(set, block);
        self.histograms.distances[1] += 1;
    }

    /// Feeds a reference to a block that is behind the second of its set's list, or not in the
    /// list.
    #[inline(always)]
    fn feed_further(&mut self, set: usize, block: u64)
        requires next { IsNext self.old set block }
        requires further { is_second block (list_of self.old set) ≡ false }
        ensures { self.new ≡ after_reference self.old block }
    {
        match self.lists.bring(set, block) {
            Standing::Behind(distance) => self.histograms.distances[distance] += 1,
            Standing::New(held) => self.histograms.misses_by_occupancy[held] += 1,
        }
    }
}
