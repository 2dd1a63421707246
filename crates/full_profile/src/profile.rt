//! A full profile: one pass over references that counts all that caches of every associativity up
//! to a depth do.
mod full_sums;
mod kept_full;
mod numbers;
mod stack_profile;

ghost use Rattle.std.specs.Prelude.{◌≡◌, ◌+◌, ◌<◌, ◌≤◌, IfOk, length, take};
ghost use Rattle.trace_core.specs.declared.events.Ref.{Ref};
ghost use Rattle.cache_core.specs.Geometry.{IsGeometry, geometry_value};
ghost use Rattle.profile_core.specs.profile.State.{fed_of};
ghost use Rattle.profile_core.specs.profile.Fronts.{is_refined};
ghost use Rattle.full_profile.specs.State.{empty_full, after_full_reference, after_full_flush};
ghost use Rattle.full_profile.specs.State.{after_end, full_counts_at};
ghost use Rattle.full_profile.specs.Batches.{after_full_batch, unsettled, after_settled};
ghost use Rattle.full_profile.specs.Sums.{full_sums_at};

use crate::copies::Emptying;
use crate::counts::FullCounts;
pub use crate::profile::full_sums::FullSums;
use crate::profile::kept_full::KeptFull;
use cache_core::Geometry;
use profile_core::MAX_REFERENCES;
use std::alloc::{AllocError, Global};
use std::marker::Model;
use trace_core::Ref;

/// The recency lists of all sets (LRU stacks, Mattson 1970), a clean depth beside each block
/// (Thompson and Smith 1989), and the numbers counted.
pub struct FullProfile {
    kept: KeptFull,
}

/// Written out, so that a proof of what drops a profile need not tell the ways apart.
impl Drop for FullProfile {
    fn drop(self) {
        let FullProfile { kept: _ } = self;
    }
}

impl Model for FullProfile {
    ghost use Rattle.full_profile.specs.State.{FullState};
    ghost use Rattle.full_profile.specs.internal.KeptFull.{full_kept};

    ghost Value = { FullState };

    ghost view = { λ p. full_kept p.kept };
}

/// An expression over the profile that is kept, in whatever way its lists are.
macro_rules! in_any_way {
    ($kept:expr, $profile:ident => $result:expr) => {
        match $kept {
            KeptFull::Rows($profile) => $result,
            KeptFull::Slots($profile) => $result,
            KeptFull::Sparse($profile) => $result,
            KeptFull::Long($profile) => $result,
        }
    };
}

impl FullProfile {
    /// A profile of caches of `2^s` sets of 1 to `depth` lines of `2^b` bytes. It takes all its
    /// memory here: 12 bytes for each of `depth * 2^s` blocks, 4 and a quarter for each set, and 56
    /// for each associativity and 24 more. With a depth of 12 to 16 and up to 4,096 sets it is 193
    /// and a quarter for each set instead of the first two, with a depth of 32 to 255 and more sets
    /// it is `12 * depth` and 4 for each set more, and with a depth of 256 or more at most 27.6
    /// bytes for each block. Where memory is refused, nothing is kept.
    pub fn new(alloc: Global, b: u64, s: u64, depth: u64) -> Result<FullProfile, AllocError>
        requires { IsGeometry (geometry_value s depth b) }
        ensures { IfOk result (λ profile. profile ≡ empty_full (geometry_value s depth b)) }
    {
        let Some(geometry) = Geometry::new(s, depth, b) else {
            unreachable!()
        };
        Ok(FullProfile {
            kept: KeptFull::new(alloc, geometry)?,
        })
    }

    /// The number of block bits: its caches have blocks of `2^b` bytes.
    pub fn block_bits(&self) -> u64
        ensures { result ≡ self.now.plain.geometry.b }
    {
        self.geometry().b()
    }

    /// The geometry of its deepest caches.
    fn geometry(&self) -> Geometry
        ensures { result ≡ self.now.plain.geometry }
    {
        in_any_way!(&self.kept, profile => profile.geometry())
    }

    /// Whether a reference that is settled in this profile is always settled in `finer` too, if
    /// both are fed the same. It is so if `finer` has the same block size and at least as many
    /// sets, or if this profile has one set and `finer`'s blocks are at least as large.
    pub fn is_refined_by(&self, finer: &FullProfile) -> bool
        ensures { result ≡ is_refined self.now.plain.geometry finer.now.plain.geometry }
    {
        let (geometry, finer) = (self.geometry(), finer.geometry());
        let (s, b) = (geometry.s(), geometry.b());
        let (finer_s, finer_b) = (finer.s(), finer.b());
        b == finer_b && s <= finer_s || s == 0 && b <= finer_b
    }

    /// Feeds one reference. Takes no memory and cannot fail. At most `MAX_REFERENCES` may be fed.
    pub fn feed(&mut self, r: Ref)
        requires { fed_of self.old.plain < MAX_REFERENCES }
        ensures step { self.new ≡ after_full_reference self.old r }
        ensures one_more { fed_of self.new.plain ≡ fed_of self.old.plain + 1 }
    {
        in_any_way!(&mut self.kept, profile => profile.feed(r));
    }

    /// Feeds references, one after the other, except those that are settled: they find their block
    /// in front, and do not write it or find it dirty in all caches. Such a reference would only
    /// change two numbers; `count_settled` counts it later. The references that were fed are moved
    /// to the front of `refs`, in order; returns how many they are.
    pub fn feed_batch(&mut self, refs: &mut [Ref]) -> usize
        requires { fed_of self.old.plain + length refs.old ≤ MAX_REFERENCES }
        ensures step { self.new ≡ after_full_batch self.old refs.old }
        ensures more { fed_of self.new.plain ≡ fed_of self.old.plain + result }
        ensures fed { take result refs.new ≡ unsettled self.old refs.old }
        ensures within { result ≤ length refs.new }
        ensures length { length refs.new ≡ length refs.old }
    {
        in_any_way!(&mut self.kept, profile => profile.feed_each(refs))
    }

    /// Feeds references to this profile as `feed_batch` does, and to `next` only those that are not
    /// settled in this one. The references that are settled in neither are moved to the front of
    /// `refs`, in order; returns how many they are. If both keep their lists in the same way, this
    /// costs less than feeding one after the other: where a reference finds its block in one
    /// predicts where it does in the next.
    pub fn feed_batch_with(&mut self, next: &mut FullProfile, refs: &mut [Ref]) -> usize
        requires few { fed_of self.old.plain + length refs.old ≤ MAX_REFERENCES }
        requires next_few { fed_of next.old.plain + length refs.old ≤ MAX_REFERENCES }
        ensures step { self.new ≡ after_full_batch self.old refs.old }
        ensures more { fed_of self.new.plain
            ≡ fed_of self.old.plain + length (unsettled self.old refs.old) }
        ensures at_most { fed_of self.new.plain ≤ fed_of self.old.plain + length refs.old }
        ensures next_step { next.new ≡ after_full_batch next.old (unsettled self.old refs.old) }
        ensures next_more { fed_of next.new.plain ≡ fed_of next.old.plain + result }
        ensures fed { take result refs.new
            ≡ unsettled next.old (unsettled self.old refs.old) }
        ensures within { result ≤ length refs.new }
        ensures length { length refs.new ≡ length refs.old }
    {
        match (&mut self.kept, &mut next.kept) {
            (KeptFull::Rows(first), KeptFull::Rows(second)) => first.feed_each_to_two(second, refs),
            (KeptFull::Slots(first), KeptFull::Slots(second)) => first.feed_each_to_two(
                second, refs,
            ),
            (KeptFull::Sparse(first), KeptFull::Sparse(second)) => first.feed_each_to_two(
                second, refs,
            ),
            (KeptFull::Long(first), KeptFull::Long(second)) => first.feed_each_to_two(second, refs),
            _ => {
                let left = self.feed_batch(refs);
                next.feed_batch(&mut refs[..left])
            }
        }
    }

    /// Counts this many references that were settled, and one comparison for each.
    pub fn count_settled(&mut self, count: u64)
        requires { fed_of self.old.plain + count ≤ MAX_REFERENCES }
        ensures step { self.new ≡ after_settled count self.old }
        ensures more { fed_of self.new.plain ≡ fed_of self.old.plain + count }
    {
        in_any_way!(&mut self.kept, profile => profile.count_settled(count));
    }

    /// Empties the lists, as a flush of the caches does, which copy back all dirty blocks. The
    /// counts stay.
    pub fn flush(&mut self)
        ensures { self.new ≡ after_full_flush self.old }
    {
        in_any_way!(&mut self.kept, profile => profile.empty(Emptying::Flush));
    }

    /// Counts the copybacks of the blocks that caches have evicted since the references that
    /// brought them: after the last event, before `counts_next`. The lists are empty then. What a
    /// cache still holds is not copied back.
    pub fn end(&mut self)
        ensures { self.new ≡ after_end self.old }
    {
        in_any_way!(&mut self.kept, profile => profile.empty(Emptying::End));
    }

    /// How many references were fed. It goes over the histograms, `3 * depth` numbers, so it should
    /// not be called for each reference.
    pub fn fed(&self) -> u64
        ensures { result ≡ fed_of self.now.plain }
    {
        in_any_way!(&self.kept, profile => profile.fed())
    }

    /// The number of comparisons counted, as `profile_core::Profile::probes` counts them.
    pub fn probes(&self) -> u64
        ensures { result ≡ self.now.plain.probes }
    {
        in_any_way!(&self.kept, profile => profile.probes())
    }

    /// The sums at associativity 0, with which `counts_next` begins. It takes as long as `fed`,
    /// twice.
    pub fn begin_sums(&self) -> FullSums
        ensures { result ≡ full_sums_at self.now 0 }
    {
        in_any_way!(&self.kept, profile => profile.begin_sums())
    }

    /// The counts of an LRU cache of `e` lines per set, over all references fed, once `end` was
    /// called. `begin_sums` of this profile began the sums. They are raised to `e` lines per set,
    /// so `e` may only rise from call to call, and nothing may be fed in between. A call adds only
    /// the numbers of the histograms between the two associativities.
    pub fn counts_next(&self, sums: &mut FullSums, e: u64) -> FullCounts
        requires some { 1 ≤ e }
        requires within { e ≤ self.now.plain.geometry.e }
        requires of_this { sums.old ≡ full_sums_at self.now sums.old.ways }
        requires rising { sums.old.ways ≤ e }
        ensures value { result ≡ full_counts_at self.now e }
        ensures sums { sums.new ≡ full_sums_at self.now e }
    {
        in_any_way!(&self.kept, profile => profile.counts_next(sums, e))
    }
}
