//! A profile: one pass over references that counts for every associativity up to a depth.
mod counts;
mod histograms;
mod hit_sums;
mod kept_profile;
mod stack_profile;

ghost use Rattle.std.specs.Prelude.{◌≡◌, ◌+◌, ◌*◌, ◌^◌, ◌<◌, ◌≤◌, List, IfOk, true, false, length};
ghost use Rattle.std.specs.Prelude.{take, if◌then◌else◌};
ghost use Rattle.trace_core.specs.declared.events.Event.{Event};
ghost use Rattle.cache_core.specs.Geometry.{IsGeometry, geometry_value, block_of};
ghost use Rattle.cache_core.specs.Windows.{held};
ghost use Rattle.profile_core.specs.profile.State.{empty, after_reference, after_flush, fed_of};
ghost use Rattle.profile_core.specs.profile.State.{held_of};
ghost use Rattle.profile_core.specs.profile.Fronts.{is_front_of, after_unless_front, after_fronts};
ghost use Rattle.profile_core.specs.profile.Fronts.{is_refined, after_batch, fed_of_batch};
ghost use Rattle.profile_core.specs.profile.ProfileStandsFor.{ProfileStandsFor};
ghost use Rattle.profile_core.specs.internal.profile.StackProfile.{AreHistogramsOf, IsFit};

use crate::profile::histograms::Histograms;
pub use crate::profile::hit_sums::HitSums;
use crate::profile::kept_profile::KeptProfile;
use cache_core::Geometry;
use std::alloc::{AllocError, Global};
use std::marker::Model;
use trace_core::MAX_LINES;

/// The most references that a profile may be fed, two for each line of a trace. So no count
/// overflows.
pub const MAX_REFERENCES: u64 = 2 * MAX_LINES;

/// The recency lists of all sets (LRU stacks, Mattson 1970), and the numbers counted.
pub struct Profile {
    kept: KeptProfile,
}

/// Written out, so that a proof of what drops a profile need not tell the ways apart.
impl Drop for Profile {
    fn drop(self) {
        let Profile { kept: _ } = self;
    }
}

impl Model for Profile {
    ghost use Rattle.profile_core.specs.profile.State.{ProfileState};
    ghost use Rattle.profile_core.specs.internal.profile.KeptProfile.{profile_kept};

    ghost Value = { ProfileState };

    ghost view = { λ p. profile_kept p.kept };
}

/// An expression over the profile that is kept, in whatever way its lists are.
macro_rules! in_any_way {
    ($kept:expr, $profile:ident => $result:expr) => {
        match $kept {
            KeptProfile::InRows($profile) => $result,
            KeptProfile::InSlots($profile) => $result,
            KeptProfile::InSparseRows($profile) => $result,
            KeptProfile::Long($profile) => $result,
        }
    };
}

impl Profile {
    /// A profile of caches of `2^s` sets of 1 to `depth` lines of `2^b` bytes. It takes all its
    /// memory here: 8 bytes for each of `depth * 2^s` blocks, 4 and a quarter for each set, and 16
    /// for each associativity and 8 more. With a depth of 256 or more it is at most 21.6 bytes for
    /// each block instead of the first two. Where memory is refused, nothing is kept.
    pub fn new(alloc: Global, b: u64, s: u64, depth: u64) -> Result<Profile, AllocError>
        requires { IsGeometry (geometry_value s depth b) }
        ensures { IfOk result (λ profile. profile ≡ empty (geometry_value s depth b)) }
    {
        Ok(Profile {
            kept: KeptProfile::new(alloc, known_geometry(b, s, depth))?,
        })
    }

    /// A profile as `new` makes it, to be fed in batches, as a sweep does. With a depth of 12 to 16
    /// and up to 4,096 sets it takes 184 and a quarter bytes for each set. With a depth of 32 to
    /// 255 and more than 4,096 sets it takes 4 bytes more for each set than `new`, and one row of
    /// blocks more. In both, memory for the third and later blocks of a set is cleared only when
    /// the set gets its third block. Fed one reference at a time, such a profile can take twice the
    /// time.
    pub fn new_sparse(alloc: Global, b: u64, s: u64, depth: u64) -> Result<Profile, AllocError>
        requires { IsGeometry (geometry_value s depth b) }
        ensures { IfOk result (λ profile. profile ≡ empty (geometry_value s depth b)) }
    {
        Ok(Profile {
            kept: KeptProfile::sparse(alloc, known_geometry(b, s, depth))?,
        })
    }

    /// The number of block bits: its caches have blocks of `2^b` bytes.
    pub fn block_bits(&self) -> u64
        ensures { result ≡ self.now.geometry.b }
    {
        self.geometry().b()
    }

    /// Feeds one reference by its address; whether it reads or writes is ignored. Takes no
    /// memory and cannot fail. At most `MAX_REFERENCES` may be fed.
    #[inline(always)]
    pub fn feed(&mut self, addr: u64)
        requires { fed_of self.old < MAX_REFERENCES }
        ensures step { self.new ≡ after_reference self.old (block_of self.old.geometry addr) }
        ensures one_more { fed_of self.new ≡ fed_of self.old + 1 }
    {
        let block = self.geometry().block_of(addr);
        if self.feed_block_unless_front(block) {
            self.count_fronts(1);
        }
    }

    /// Feeds one reference by its address, unless it finds its block in front. Returns whether it
    /// does so. A reference that does would only change two numbers; `count_fronts` counts it
    /// later.
    #[inline(always)]
    pub fn feed_unless_front(&mut self, addr: u64) -> bool
        requires few { fed_of self.old < MAX_REFERENCES }
        ensures front { result ≡ is_front_of self.old (block_of self.old.geometry addr) }
        ensures step { self.new ≡ after_unless_front self.old (block_of self.old.geometry addr) }
        ensures more { fed_of self.new ≡ fed_of self.old + (if result then 0 else 1) }
    {
        let block = self.geometry().block_of(addr);
        self.feed_block_unless_front(block)
    }

    /// Feeds references by their addresses, one after the other, except those that find their block
    /// in front, which `count_fronts` counts later. The addresses that were fed are moved to the
    /// front of `addrs`, in order; returns how many they are. If several profiles are fed, a batch
    /// of some hundred references usually costs less than the same references one at a time: the
    /// lists of one profile then stay in the processor's caches.
    pub fn feed_batch(&mut self, addrs: &mut [u64]) -> usize
        requires { fed_of self.old + length addrs.old ≤ MAX_REFERENCES }
        ensures step { self.new ≡ after_batch self.old addrs.old }
        ensures more { fed_of self.new ≡ fed_of self.old + result }
        ensures fed { take result addrs.new ≡ fed_of_batch self.old addrs.old }
        ensures within { result ≤ length addrs.new }
        ensures length { length addrs.new ≡ length addrs.old }
    {
        in_any_way!(&mut self.kept, profile => profile.feed_each(addrs))
    }

    /// Feeds references to this profile as `feed_batch` does, and to `next` only those that do not
    /// find their block in front in this one. The addresses of those that find it in front in
    /// neither are moved to the front of `addrs`, in order; returns how many they are. If both keep
    /// their lists in the same way, this costs less than feeding one after the other: where a
    /// reference finds its block in one predicts where it does in the next.
    pub fn feed_batch_with(&mut self, next: &mut Profile, addrs: &mut [u64]) -> usize
        requires few { fed_of self.old + length addrs.old ≤ MAX_REFERENCES }
        requires next_few { fed_of next.old + length addrs.old ≤ MAX_REFERENCES }
        ensures step { self.new ≡ after_batch self.old addrs.old }
        ensures more { fed_of self.new
            ≡ fed_of self.old + length (fed_of_batch self.old addrs.old) }
        ensures at_most { fed_of self.new ≤ fed_of self.old + length addrs.old }
        ensures next_step { next.new ≡ after_batch next.old (fed_of_batch self.old addrs.old) }
        ensures next_more { fed_of next.new ≡ fed_of next.old + result }
        ensures fed { take result addrs.new
            ≡ fed_of_batch next.old (fed_of_batch self.old addrs.old) }
        ensures within { result ≤ length addrs.new }
        ensures length { length addrs.new ≡ length addrs.old }
    {
        match (&mut self.kept, &mut next.kept) {
            (KeptProfile::InRows(first), KeptProfile::InRows(second)) => first.feed_each_to_two(
                second, addrs,
            ),
            (KeptProfile::InSlots(first), KeptProfile::InSlots(second)) => first.feed_each_to_two(
                second, addrs,
            ),
            (KeptProfile::InSparseRows(first), KeptProfile::InSparseRows(second)) =>
                first.feed_each_to_two(second, addrs),
            (KeptProfile::Long(first), KeptProfile::Long(second)) => first.feed_each_to_two(
                second, addrs,
            ),
            _ => {
                let left = self.feed_batch(addrs);
                next.feed_batch(&mut addrs[..left])
            }
        }
    }

    /// Feeds one reference by its block, unless the block is in front. Returns whether it is.
    #[inline(always)]
    fn feed_block_unless_front(&mut self, block: u64) -> bool
        requires few { fed_of self.old < MAX_REFERENCES }
        ensures front { result ≡ is_front_of self.old block }
        ensures step { self.new ≡ after_unless_front self.old block }
    {
        if self.is_front(block) {
            return true;
        }
        self.feed_behind(block);
        false
    }

    /// Whether a block is in front of the list of its set. Only block 0 needs a look at the way in
    /// which the lists are kept. Any other block is compared with the fronts alone, which are at
    /// the same place in each way.
    #[inline(always)]
    fn is_front(&self, block: u64) -> bool
        ensures { result ≡ is_front_of self.now block }
    {
        let front = in_any_way!(&self.kept, profile => profile.front_for(block));
        front == block
            && (block != 0 || in_any_way!(&self.kept, profile => profile.is_front(block)))
    }

    /// Feeds a reference to a block that is behind the front of its set's list, or not in the list.
    /// Most references find their block in front: it is not inlined, so that the path of most stays
    /// short.
    #[inline(never)]
    fn feed_behind(&mut self, block: u64)
        requires few { fed_of self.old < MAX_REFERENCES }
        requires behind { is_front_of self.old block ≡ false }
        ensures { self.new ≡ after_reference self.old block }
    {
        in_any_way!(&mut self.kept, profile => profile.feed_single_behind(block))
    }

    /// Counts this many references that find their block in front, and one comparison for each.
    // Not `always`: the compiler then sees that all ways count alike before it inlines this, so
    // that `feed` takes no jump by a table of ways for a block in front.
    #[inline]
    pub fn count_fronts(&mut self, count: u64)
        requires { fed_of self.old + count ≤ MAX_REFERENCES }
        ensures step { self.new ≡ after_fronts count self.old }
        ensures more { fed_of self.new ≡ fed_of self.old + count }
    {
        in_any_way!(&mut self.kept, profile => profile.count_fronts(count))
    }

    /// Whether a block that is in front in this profile is always in front in `finer` too, if both
    /// are fed the same. It is so if `finer` has the same block size and at least as many sets, or
    /// if this profile has one set and `finer`'s blocks are at least as large.
    pub fn is_refined_by(&self, finer: &Profile) -> bool
        ensures { result ≡ is_refined self.now.geometry finer.now.geometry }
    {
        let (geometry, finer) = (self.geometry(), finer.geometry());
        let (s, b) = (geometry.s(), geometry.b());
        let (finer_s, finer_b) = (finer.s(), finer.b());
        b == finer_b && s <= finer_s || s == 0 && b <= finer_b
    }

    /// Empties the lists, as a flush of the caches does. The counts stay.
    pub fn flush(&mut self)
        ensures { self.new ≡ after_flush self.old }
    {
        in_any_way!(&mut self.kept, profile => profile.flush())
    }

    /// How many blocks the lists hold.
    #[tactic(auto, using(crate::proofs::profile::Counting::held_is))]
    pub fn held(&self) -> u64
        ensures value { result ≡ held_of self.now }
        ensures trace { (es : List Event) → ProfileStandsFor es self.now
            → result ≡ held self.now.geometry es }
        ensures at_most { result ≤ self.now.geometry.e * 2 ^ self.now.geometry.s }
    {
        in_any_way!(&self.kept, profile => profile.held())
    }

    /// The geometry of its deepest caches.
    #[inline(always)]
    fn geometry(&self) -> Geometry
        ensures value { result ≡ self.now.geometry }
        ensures fit { IsFit self.now }
    {
        in_any_way!(&self.kept, profile => profile.geometry())
    }

    /// The numbers counted.
    #[inline(always)]
    fn histograms(&self) -> &Histograms
        ensures { AreHistogramsOf result.now self.now }
    {
        in_any_way!(&self.kept, profile => profile.histograms())
    }
}

/// A geometry of which it is known that it is one.
fn known_geometry(b: u64, s: u64, e: u64) -> Geometry
    requires { IsGeometry (geometry_value s e b) }
    ensures { result ≡ geometry_value s e b }
{
    let Some(geometry) = Geometry::new(s, e, b) else {
        unreachable!()
    };
    geometry
}
