//! A full profile whose lists are kept in one way, and how it is fed.
ghost use Rattle.std.specs.Prelude.{◌≡◌, ◌+◌, ◌^◌, ◌<◌, ◌≤◌, IfOk, true, false, length, take, sum};
ghost use Rattle.std.specs.Prelude.{replicate, if◌then◌else◌};
ghost use Rattle.trace_core.specs.declared.events.Ref.{Ref};
ghost use Rattle.profile_core.specs.profile.State.{fed_of};
ghost use Rattle.profile_core.specs.internal.profile.StackProfile.{weighed, IsNext};
ghost use Rattle.full_profile.specs.State.{empty_full, after_full_reference, after_emptying};
ghost use Rattle.full_profile.specs.State.{after_reference_in_lists, cleans_of, full_counts_at};
ghost use Rattle.full_profile.specs.State.{kind_number, kind_of};
ghost use Rattle.profile_core.specs.profile.State.{list_of};
ghost use Rattle.full_profile.specs.Batches.{is_settled, after_unless_settled, after_full_batch};
ghost use Rattle.full_profile.specs.Batches.{unsettled, after_settled};
ghost use Rattle.full_profile.specs.Sums.{full_sums_at};
ghost use Rattle.full_profile.specs.internal.Copies.{up_to_of};
ghost use Rattle.full_profile.specs.internal.Marked.{empty_marked};

use crate::copies::{Copies, Emptying, total};
use crate::counts::FullCounts;
use crate::kind_counts::KindCounts;
use crate::marked_lists::{MarkedLists, MarkedTouch, writes};
use crate::profile::full_sums::FullSums;
use crate::profile::numbers::Numbers;
use cache_core::Geometry;
use profile_core::MAX_REFERENCES;
use std::alloc::{AllocError, Global};
use std::marker::Model;
use trace_core::{Access, Ref};

/// Reads, writes and fetches.
const KINDS: usize = 3;

/// The lists of all sets, kept in the way `L`, and the numbers counted.
#[derive(Drop)]
pub struct FullStackProfile<L: MarkedLists> {
    geometry: Geometry,
    numbers: Numbers,
    lists: L,
}

impl<L: MarkedLists> Model for FullStackProfile<L> {
    ghost use Rattle.full_profile.specs.State.{FullState};
    ghost use Rattle.full_profile.specs.internal.Profile.{full_profile_of, AreFullSound};

    ghost Value = { FullState };

    ghost view = { λ p. full_profile_of p.geometry (L.view p.lists) p.numbers };

    ghost invariant = { λ p. AreFullSound p.geometry (L.view p.lists) p.numbers };
}

impl<L: MarkedLists> FullStackProfile<L> {
    /// A profile with these lists, which are empty. It takes 56 bytes for each associativity and 24
    /// more.
    pub fn new(
        alloc: Global,
        geometry: Geometry,
        lists: L,
    ) -> Result<FullStackProfile<L>, AllocError>
        requires { L.view lists ≡ empty_marked (2 ^ geometry.s) geometry.e }
        ensures { IfOk result (λ profile. profile ≡ empty_full geometry) }
    {
        let depth = geometry.e() as usize;
        Ok(FullStackProfile {
            geometry,
            numbers: Numbers {
                distances: vec![in alloc; 0; depth]?,
                misses_by_occupancy: vec![in alloc; 0; depth + 1]?,
                kinds: kinds(alloc, depth)?,
                copies: Copies::new(alloc, depth)?,
            },
            lists,
        })
    }

    /// The geometry of its deepest caches.
    pub fn geometry(&self) -> Geometry
        ensures { result ≡ self.now.plain.geometry }
    {
        self.geometry
    }

    /// Feeds one reference.
    pub fn feed(&mut self, r: Ref)
        requires { fed_of self.old.plain < MAX_REFERENCES }
        ensures step { self.new ≡ after_full_reference self.old r }
        ensures one_more { fed_of self.new.plain ≡ fed_of self.old.plain + 1 }
    {
        if self.feed_unless_settled(r) {
            self.count_settled(1);
        }
    }

    /// Feeds references, one after the other, except those that are settled. The references that
    /// were fed are moved to the front of `refs`, in order; returns how many they are. Each way of
    /// keeping lists has its own copy of this function, so that the compiler has all registers for
    /// it.
    #[inline(never)]
    pub fn feed_each(&mut self, refs: &mut [Ref]) -> usize
        requires { fed_of self.old.plain + length refs.old ≤ MAX_REFERENCES }
        ensures step { self.new ≡ after_full_batch self.old refs.old }
        ensures more { fed_of self.new.plain ≡ fed_of self.old.plain + result }
        ensures fed { take result refs.new ≡ unsettled self.old refs.old }
        ensures within { result ≤ length refs.new }
        ensures length { length refs.new ≡ length refs.old }
    {
        let mut fed = 0;
        for at in 0..refs.len() {
            let r = refs[at];
            if !self.feed_unless_settled(r) {
                refs[fed] = r;
                fed += 1;
            }
        }
        fed
    }

    /// Feeds references to two profiles: to the second only those that are not settled in the
    /// first. The references that are settled in neither are moved to the front of `refs`, in
    /// order; returns how many they are. One loop feeds both, since where a reference finds its
    /// block in one predicts where it does in the next.
    #[inline(never)]
    pub fn feed_each_to_two(&mut self, next: &mut FullStackProfile<L>, refs: &mut [Ref]) -> usize
        requires few { fed_of self.old.plain + length refs.old ≤ MAX_REFERENCES }
        requires next_few { fed_of next.old.plain + length refs.old ≤ MAX_REFERENCES }
        ensures step { self.new ≡ after_full_batch self.old refs.old }
        ensures more { fed_of self.new.plain
            ≡ fed_of self.old.plain + length (unsettled self.old refs.old) }
        ensures at_most { fed_of self.new.plain ≤ fed_of self.old.plain + length refs.old }
        ensures next_step { next.new ≡ after_full_batch next.old (unsettled self.old refs.old) }
        ensures next_more { fed_of next.new.plain ≡ fed_of next.old.plain + result }
        ensures fed { take result refs.new
            ≡ unsettled next.old (unsettled self.old refs.old) }
        ensures within { result ≤ length refs.new }
        ensures length { length refs.new ≡ length refs.old }
    {
        let mut left = 0;
        for at in 0..refs.len() {
            let r = refs[at];
            if !self.feed_unless_settled(r) {
                if !next.feed_unless_settled(r) {
                    refs[left] = r;
                    left += 1;
                }
            }
        }
        left
    }

    /// Feeds one reference, unless it is settled. Returns whether it is.
    #[inline(always)]
    fn feed_unless_settled(&mut self, r: Ref) -> bool
        requires { fed_of self.old.plain < MAX_REFERENCES }
        ensures settled { result ≡ is_settled self.old r }
        ensures step { self.new ≡ after_unless_settled self.old r }
        ensures more { fed_of self.new.plain
            ≡ fed_of self.old.plain + (if result then 0 else 1) }
        ensures counts { is_settled self.old r ≡ true
            → after_full_reference self.old r ≡ after_settled 1 self.old }
    {
        let block = self.geometry.block_of(r.addr);
        let set = self.geometry.set_of(r.addr) as usize;
        if !self.lists.is_front(set, block) {
            self.feed_behind(set, block, r.access);
            return false;
        }
        if !writes(r.access) || self.lists.front_clean(set) == 0 {
            return true;
        }
        self.lists.write_front(set);
        self.numbers.distances[0] += 1;
        false
    }

    /// Feeds a reference to a block that is behind the front of its set's list, or not in the list.
    #[inline(always)]
    fn feed_behind(&mut self, set: usize, block: u64, access: Access)
        requires { IsNext self.old.plain set block }
        ensures { self.new ≡ after_reference_in_lists self.old access block
            (list_of self.old.plain set) (cleans_of self.old set) }
    {
        match self.lists.bring(set, block, access) {
            MarkedTouch::Behind(distance, clean) => {
                self.numbers.distances[distance] += 1;
                self.numbers.kinds[kind_index(access)].count_behind(distance);
                self.numbers.copies.add(clean as usize, distance);
            }
            MarkedTouch::New(held) => {
                self.numbers.misses_by_occupancy[held] += 1;
                self.numbers.kinds[kind_index(access)].count_missed();
            }
            MarkedTouch::Full(clean) => {
                let depth = self.numbers.distances.len();
                self.numbers.misses_by_occupancy[depth] += 1;
                self.numbers.kinds[kind_index(access)].count_missed();
                self.numbers.copies.add(clean as usize, depth);
            }
        }
    }

    /// Counts this many references that were settled, and one comparison for each.
    pub fn count_settled(&mut self, count: u64)
        requires { fed_of self.old.plain + count ≤ MAX_REFERENCES }
        ensures step { self.new ≡ after_settled count self.old }
        ensures more { fed_of self.new.plain ≡ fed_of self.old.plain + count }
    {
        self.numbers.distances[0] += count;
    }

    /// Empties the lists, and counts the copybacks of their blocks.
    pub fn empty(&mut self, emptying: Emptying)
        ensures { self.new ≡ after_emptying (up_to_of emptying self.old.plain.geometry.e) self.old }
    {
        self.lists.empty(emptying, &mut self.numbers.copies);
    }

    /// The number of comparisons counted.
    pub fn probes(&self) -> u64
        ensures { result ≡ self.now.plain.probes }
    {
        let found = total(&self.numbers.distances) + weighed(&self.numbers.distances);
        found + weighed(&self.numbers.misses_by_occupancy)
    }

    /// How many references were fed.
    pub fn fed(&self) -> u64
        ensures { result ≡ fed_of self.now.plain }
    {
        total(&self.numbers.distances) + total(&self.numbers.misses_by_occupancy)
    }

    /// What is counted of a kind of access.
    fn kind(&self, access: Access) -> &KindCounts
        ensures value { result.now ≡ kind_of self.now access }
        ensures long { length result.now.behind ≡ self.now.plain.geometry.e }
        ensures few { sum result.now.behind + result.now.missed < 2 ^ 63 }
    {
        &self.numbers.kinds[kind_index(access)]
    }

    /// The sums at associativity 0, with which `counts_next` begins.
    pub fn begin_sums(&self) -> FullSums
        ensures { result ≡ full_sums_at self.now 0 }
    {
        FullSums {
            ways: 0,
            hits: 0,
            free_misses: 0,
            fed: self.fed(),
            fetch_misses: self.kind(Access::Fetch).all(),
            read_misses: self.kind(Access::Read).all(),
            write_misses: self.kind(Access::Write).all(),
            copied_above: 0,
            copied_up_to: 0,
        }
    }

    /// Raises sums of this profile to an associativity.
    fn raise(&self, sums: &mut FullSums, e: u64)
        requires some { 1 ≤ e }
        requires within { e ≤ self.now.plain.geometry.e }
        requires of_this { sums.old ≡ full_sums_at self.now sums.old.ways }
        requires rising { sums.old.ways ≤ e }
        ensures sums { sums.new ≡ full_sums_at self.now e }
        ensures in_order { sums.new.copied_up_to ≤ sums.new.copied_above }
    {
        let (from, to) = (sums.ways, e as usize);
        let (above, up_to) = self.numbers.copies.ends_between(from, to);
        sums.ways = to;
        sums.hits += total(&self.numbers.distances[from..to]);
        sums.free_misses += total(&self.numbers.misses_by_occupancy[from..to]);
        sums.fetch_misses -= self.kind(Access::Fetch).between(from, to);
        sums.read_misses -= self.kind(Access::Read).between(from, to);
        sums.write_misses -= self.kind(Access::Write).between(from, to);
        sums.copied_above += above;
        sums.copied_up_to += up_to;
    }

    /// The counts of an LRU cache of `e` lines per set, from sums that are raised to it.
    pub fn counts_next(&self, sums: &mut FullSums, e: u64) -> FullCounts
        requires some { 1 ≤ e }
        requires within { e ≤ self.now.plain.geometry.e }
        requires of_this { sums.old ≡ full_sums_at self.now sums.old.ways }
        requires rising { sums.old.ways ≤ e }
        ensures value { result ≡ full_counts_at self.now e }
        ensures sums { sums.new ≡ full_sums_at self.now e }
    {
        self.raise(sums, e);
        let misses = sums.fed - sums.hits;
        FullCounts {
            hits: sums.hits,
            misses,
            evictions: misses - sums.free_misses,
            fetch_misses: sums.fetch_misses,
            read_misses: sums.read_misses,
            write_misses: sums.write_misses,
            copybacks: sums.copied_above - sums.copied_up_to,
        }
    }
}

/// Nothing counted yet, of each kind of access.
fn kinds(alloc: Global, depth: usize) -> Result<Vec<KindCounts>, AllocError>
    ensures { IfOk result (λ kinds.
        kinds.items ≡ replicate KINDS (record { behind = replicate depth 0; missed = 0 })) }
{
    let mut kinds = Vec::with_capacity(alloc, KINDS)?;
    for made in 0..KINDS {
        kinds.push(KindCounts::new(alloc, depth)?)?;
    }
    Ok(kinds)
}

/// The sum of a histogram's numbers, each times its index.
fn weighed(numbers: &[u64]) -> u64
    requires { weighed 0 numbers.now < 2 ^ 64 }
    ensures { result ≡ weighed 0 numbers.now }
{
    let mut sum = 0;
    for (index, number) in numbers.iter().enumerate() {
        sum += *number * index as u64;
    }
    sum
}

/// The place of a kind of access, as the din format numbers it.
#[inline(always)]
fn kind_index(access: Access) -> usize
    ensures { result ≡ kind_number access }
{
    match access {
        Access::Read => 0,
        Access::Write => 1,
        Access::Fetch => 2,
    }
}
