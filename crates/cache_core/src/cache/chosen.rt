//! A cache under a named policy. By its number of ways its sets are walked over, or its blocks are
//! found by an index.
ghost use Rattle.std.specs.Prelude.{◌≡◌, ◌<◌, ◌*◌, ◌^◌, IfOk, IfSome, false};
ghost use Rattle.cache_core.specs.Geometry.{IsGeometry};
ghost use Rattle.cache_core.specs.cache.Order.{Accesses, FlushesCache, DirtiesByWrites};
ghost use Rattle.cache_core.specs.cache.Slab.{contents_of, empty_sets};
ghost use Rattle.cache_core.specs.internal.cache.Lookups.{LooksUp};
ghost use Rattle.cache_core.specs.internal.cache.Held.{holds_block, AccessesHeld};
ghost use Rattle.cache_core.specs.internal.cache.Slab.{AccessesInFront};

use crate::cache::Cache;
use crate::cache::indexed::IndexedCache;
use crate::design::{AllocMode, WriteMode};
use crate::geometry::Geometry;
use crate::outcome::Outcome;
use crate::replacement::Replacement;
use crate::replacement::named::NamedPolicy;
use crate::simulation::{Lookup, lookup_of};
use std::alloc::{AllocError, Global};
use std::marker::Model;
use trace_core::Ref;

/// Blocks of sets of this many ways or more are found by an index. Sets of fewer ways are walked
/// over, which usually takes less time.
const INDEXED_WAYS: u64 = 128;

/// How a cache is kept.
#[derive(Drop)]
enum Kept<P: NamedPolicy> {
    Walked(Cache<P>),
    Indexed(IndexedCache<P>),
}

/// A cache under a named policy.
pub(crate) struct ChosenCache<P: NamedPolicy> {
    kept: Kept<P>,
}

/// Written out, so that a proof of what drops a cache need not tell both kinds apart.
impl<P: NamedPolicy> Drop for ChosenCache<P> {
    fn drop(self) {
        let ChosenCache { kept: _ } = self;
    }
}

impl<P: NamedPolicy> Model for ChosenCache<P> {
    ghost use Rattle.cache_core.specs.cache.Slab.{CacheValue};
    ghost use Rattle.cache_core.specs.internal.cache.ChosenCaches.{cache_kept};

    ghost Value = { CacheValue P };

    ghost view = { λ c. cache_kept c.kept };
}

impl<P: NamedPolicy> ChosenCache<P> {
    /// An empty cache. It takes all its memory here, and that alone can fail.
    pub(crate) fn new(
        alloc: Global,
        geometry: Geometry,
        policy: P,
        write: WriteMode,
        allocate: AllocMode,
    ) -> Result<Self, AllocError>
        ensures design { IfOk result (λ cache.
            cache.design ≡ record { geometry = geometry; write = write; allocate = allocate }) }
        ensures policy { IfOk result (λ cache. cache.policy ≡ policy) }
        ensures empty { IfOk result (λ cache. cache.sets ≡ empty_sets geometry) }
        ensures limits { IsGeometry geometry }
    {
        if geometry.e() < INDEXED_WAYS {
            let cache = Cache::new(alloc, geometry, policy, write, allocate)?;
            return Ok(ChosenCache {
                kept: Kept::Walked(cache),
            });
        }
        let cache = IndexedCache::new(alloc, geometry, policy, write, allocate)?;
        Ok(ChosenCache {
            kept: Kept::Indexed(cache),
        })
    }

    /// Makes an access if the cache holds its block, and returns its outcome. Otherwise it does
    /// nothing.
    #[inline(always)]
    pub(crate) fn hit(&mut self, reference: Ref) -> Option<Outcome>
        ensures { AccessesHeld P.policy P.words self.old reference result self.new }
    {
        match &mut self.kept {
            Kept::Walked(cache) => cache.hit(reference),
            Kept::Indexed(cache) => cache.hit(reference),
        }
    }

    /// Makes an access whose block the cache does not hold, and returns its outcome.
    #[inline(always)]
    pub(crate) fn miss(&mut self, reference: Ref) -> Outcome
        requires { holds_block self.old.design self.old.sets reference ≡ false }
        ensures step { Accesses (contents_of P.policy P.words self.old) reference result
            (contents_of P.policy P.words self.new) }
        ensures dirty { DirtiesByWrites self.old.sets reference result self.new.sets }
        ensures victim { IfSome result.evicted
            (λ slot. slot.block * 2 ^ self.old.design.geometry.b < 2 ^ 64) }
    {
        match &mut self.kept {
            Kept::Walked(cache) => cache.miss(reference),
            Kept::Indexed(cache) => cache.miss(reference),
        }
    }

    /// Makes an access if it finds its block in the first slot of its set and sends nothing down,
    /// and returns its outcome. Otherwise it does nothing.
    #[inline(always)]
    pub(crate) fn access_in_front(&mut self, reference: Ref) -> Option<Outcome>
        ensures { AccessesInFront P.policy P.words self.old reference result self.new }
    {
        match &mut self.kept {
            Kept::Walked(cache) => cache.access_in_front(reference),
            Kept::Indexed(cache) => cache.access_in_front(reference),
        }
    }

    /// Makes one access, and returns how it went.
    #[inline(always)]
    pub(crate) fn look_up(&mut self, reference: Ref) -> Lookup
        ensures { LooksUp P.policy P.words self.old reference result self.new }
    {
        if self.access_in_front(reference).is_some() {
            return Lookup::Hit;
        }
        match &mut self.kept {
            Kept::Walked(cache) => look_up_walked(cache, reference),
            Kept::Indexed(cache) => look_up_indexed(cache, reference),
        }
    }

    /// Its geometry.
    #[inline(always)]
    pub(crate) fn geometry(&self) -> Geometry
        ensures { result ≡ self.now.design.geometry }
    {
        match &self.kept {
            Kept::Walked(cache) => cache.geometry(),
            Kept::Indexed(cache) => cache.geometry(),
        }
    }

    /// Empties the cache, and returns how many dirty lines it held.
    pub(crate) fn flush(&mut self) -> u64
        ensures { FlushesCache (contents_of P.policy P.words self.old) result
            (contents_of P.policy P.words self.new) }
    {
        match &mut self.kept {
            Kept::Walked(cache) => cache.flush(),
            Kept::Indexed(cache) => cache.flush(),
        }
    }
}

/// Makes any access to a cache that is walked over, and returns how it went. It is a function of
/// its own, so that the path of the many references that find their block in the first slot of its
/// set stays short, and an outcome of which little is asked is not stored.
#[inline(never)]
fn look_up_walked<P: Replacement>(cache: &mut Cache<P>, reference: Ref) -> Lookup
    ensures { LooksUp P.policy P.words cache.old reference result cache.new }
{
    if cache.hit(reference).is_some() {
        return Lookup::Hit;
    }
    lookup_of(&cache.miss(reference))
}

/// The same of a cache with an index.
#[inline(never)]
fn look_up_indexed<P: NamedPolicy>(cache: &mut IndexedCache<P>, reference: Ref) -> Lookup
    ensures { LooksUp P.policy P.words cache.old reference result cache.new }
{
    if cache.hit(reference).is_some() {
        return Lookup::Hit;
    }
    lookup_of(&cache.miss(reference))
}
