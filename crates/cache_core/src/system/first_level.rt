//! One reference at the first level.
ghost use Rattle.std.specs.Prelude.{◌≡◌, ◌≤◌, ◌<◌, ◌+◌, ◌^◌, ℕ, List, ◌∷◌, [], Option, Some, None};
ghost use Rattle.std.specs.Prelude.{true, false, MatchBool, MatchOption, is_some};
ghost use Rattle.cache_core.specs.internal.system.SystemSteps.{AccessesFirst, AccessesFirstLevel};
ghost use Rattle.cache_core.specs.internal.system.SystemSteps.{accesses_of, nothing_down};
ghost use Rattle.cache_core.specs.internal.system.SystemSteps.{first_name, first_hits_in_front};
ghost use Rattle.cache_core.specs.internal.system.SystemSteps.{level_hits_in_front};
ghost use Rattle.cache_core.specs.internal.system.HeldFirst.{first_holds, first_level_holds};
ghost use Rattle.cache_core.specs.declared.system.arrival.Arrival.TheVariants.{Cache};
ghost use Rattle.cache_core.specs.system.SystemStands.{PlannedCacheStandsFor};
ghost use Rattle.cache_core.specs.system.Arrivals.{Saw, cache_arrivals, first_arrivals};
ghost use Rattle.cache_core.specs.system.Plans.{PlannedCaches, IsPlan, IsPlannedCache};
ghost use Rattle.cache_core.specs.system.Systems.{events_for};
ghost use Rattle.cache_core.specs.declared.system.plan.CacheName.TheVariants.{L1I, L1D, L1U};
ghost use Rattle.cache_core.specs.declared.system.plan.PlannedCache.{PlannedCache};
ghost use Rattle.trace_core.specs.declared.events.Event.{Event};

use crate::system::arrival::Observer;
use crate::system::plan::CacheName;
use crate::system::system_cache::SystemCache;
use trace_core::{Access, Ref};

/// Which first-level cache takes a reference, if it is there: the unified cache where a system has
/// one; otherwise the instruction cache at a fetch, and the data cache at a read or a write.
#[inline(always)]
pub(crate) fn first_name(u: &Option<SystemCache>, reference: Ref) -> CacheName
    ensures { result ≡ first_name u.now reference }
{
    if u.is_some() {
        return CacheName::L1U;
    }
    if reference.access == Access::Fetch {
        return CacheName::L1I;
    }
    CacheName::L1D
}

/// Makes a reference at a first-level cache if it is there and holds the block, and returns what it
/// sends down. Otherwise it does nothing.
#[inline(always)]
fn hit_first<O: Observer>(
    name: CacheName,
    cache: &mut Option<SystemCache>,
    reference: Ref,
    observer: &mut O,
) -> Option<[Option<Ref>; 2]>
    requires counts { accesses_of cache.old < 2 ^ 62 }
    requires room { 1 ≤ O.room observer.old }
    ensures value { MatchOption result
        ((cache.new ≡ cache.old) × (observer.new ≡ observer.old))
        (λ down. AccessesFirst cache.old reference (Some down) cache.new) }
    ensures answers { is_some result ≡ first_holds cache.old reference }
    ensures seen { is_some result ≡ true → (seed : ℕ) (planned : Option PlannedCache)
        (events : List Event) → IsPlannedCache planned →
        PlannedCacheStandsFor seed planned events cache.old →
        Saw O.has_seen observer.old (cache_arrivals seed name planned events reference)
        observer.new }
    ensures room { O.room observer.old ≤ O.room observer.new + 1 }
{
    match cache {
        Some(cache) => match cache.hit(name, reference, observer) {
            Some(outcome) => Some(outcome.down),
            None => None,
        },
        None => None,
    }
}

/// Makes a reference at a first-level cache that does not hold the block, if it is there, and
/// returns what it sends down.
#[inline(always)]
fn miss_first<O: Observer>(
    name: CacheName,
    cache: &mut Option<SystemCache>,
    reference: Ref,
    observer: &mut O,
) -> Option<[Option<Ref>; 2]>
    requires counts { accesses_of cache.old < 2 ^ 62 }
    requires room { 1 ≤ O.room observer.old }
    requires missed { first_holds cache.old reference ≡ false }
    ensures value { AccessesFirst cache.old reference result cache.new }
    ensures seen { (seed : ℕ) (planned : Option PlannedCache) (events : List Event) →
        IsPlannedCache planned → PlannedCacheStandsFor seed planned events cache.old →
        Saw O.has_seen observer.old (cache_arrivals seed name planned events reference)
        observer.new }
    ensures room { O.room observer.old ≤ O.room observer.new + 1 }
{
    match cache {
        Some(cache) => Some(cache.miss(name, reference, observer).down),
        None => None,
    }
}

/// `hit_first` at the first-level cache that takes the reference.
#[inline(always)]
pub(crate) fn hit_first_level<O: Observer>(
    i: &mut Option<SystemCache>,
    d: &mut Option<SystemCache>,
    u: &mut Option<SystemCache>,
    reference: Ref,
    observer: &mut O,
) -> Option<[Option<Ref>; 2]>
    requires counts { accesses_of i.old + accesses_of d.old + accesses_of u.old < 2 ^ 62 }
    requires room { 1 ≤ O.room observer.old }
    ensures value { MatchOption result
        ((i.new ≡ i.old) × (d.new ≡ d.old) × (u.new ≡ u.old) × (observer.new ≡ observer.old))
        (λ down.
        AccessesFirstLevel i.old d.old u.old reference (Some down) i.new d.new u.new) }
    ensures answers { is_some result ≡ first_level_holds i.old d.old u.old reference }
    ensures seen { is_some result ≡ true → (plan : PlannedCaches) (seed : ℕ)
        (events : List Event) → IsPlan plan →
        PlannedCacheStandsFor seed plan.i (events_for L1I events) i.old →
        PlannedCacheStandsFor seed plan.d (events_for L1D events) d.old →
        PlannedCacheStandsFor seed plan.u (events_for L1U events) u.old →
        Saw O.has_seen observer.old (first_arrivals plan seed events reference) observer.new }
    ensures room { O.room observer.old ≤ O.room observer.new + 1 }
{
    let name = first_name(u, reference);
    match name {
        CacheName::L1U => hit_first(name, u, reference, observer),
        CacheName::L1I => hit_first(name, i, reference, observer),
        _ => hit_first(name, d, reference, observer),
    }
}

/// `miss_first` at the first-level cache that takes the reference. `None` if no cache takes it.
#[inline(always)]
pub(crate) fn miss_first_level<O: Observer>(
    i: &mut Option<SystemCache>,
    d: &mut Option<SystemCache>,
    u: &mut Option<SystemCache>,
    reference: Ref,
    observer: &mut O,
) -> Option<[Option<Ref>; 2]>
    requires counts { accesses_of i.old + accesses_of d.old + accesses_of u.old < 2 ^ 62 }
    requires room { 1 ≤ O.room observer.old }
    requires missed { first_level_holds i.old d.old u.old reference ≡ false }
    ensures value { AccessesFirstLevel i.old d.old u.old reference result i.new d.new u.new }
    ensures seen { (plan : PlannedCaches) (seed : ℕ) (events : List Event) → IsPlan plan →
        PlannedCacheStandsFor seed plan.i (events_for L1I events) i.old →
        PlannedCacheStandsFor seed plan.d (events_for L1D events) d.old →
        PlannedCacheStandsFor seed plan.u (events_for L1U events) u.old →
        Saw O.has_seen observer.old (first_arrivals plan seed events reference) observer.new }
    ensures room { O.room observer.old ≤ O.room observer.new + 1 }
{
    let name = first_name(u, reference);
    match name {
        CacheName::L1U => miss_first(name, u, reference, observer),
        CacheName::L1I => miss_first(name, i, reference, observer),
        _ => miss_first(name, d, reference, observer),
    }
}

/// Makes a reference at a first-level cache if it finds its block in the first slot of its set and
/// sends nothing down. Otherwise it does nothing. Returns whether it made the reference.
#[inline(always)]
fn access_first_in_front(cache: &mut Option<SystemCache>, reference: Ref) -> bool
    requires { accesses_of cache.old < 2 ^ 62 }
    ensures value { MatchBool result
        (AccessesFirst cache.old reference (Some nothing_down) cache.new)
        (cache.new ≡ cache.old) }
    ensures answers { result ≡ first_hits_in_front cache.old reference }
    ensures seen { result ≡ true → (seed : ℕ) (name : CacheName) (planned : Option PlannedCache)
        (events : List Event) → IsPlannedCache planned →
        PlannedCacheStandsFor seed planned events cache.old →
        cache_arrivals seed name planned events reference ≡ Cache name reference true None ∷ [] }
{
    match cache {
        Some(cache) => cache.access_in_front(reference),
        None => false,
    }
}

/// `access_first_in_front` at the first-level cache that takes the reference.
#[inline(always)]
pub(crate) fn access_first_level_in_front(
    i: &mut Option<SystemCache>,
    d: &mut Option<SystemCache>,
    u: &mut Option<SystemCache>,
    reference: Ref,
) -> bool
    requires { accesses_of i.old + accesses_of d.old + accesses_of u.old < 2 ^ 62 }
    ensures value { MatchBool result
        (AccessesFirstLevel i.old d.old u.old reference (Some nothing_down) i.new d.new u.new)
        ((i.new ≡ i.old) × (d.new ≡ d.old) × (u.new ≡ u.old)) }
    ensures answers { result ≡ level_hits_in_front i.old d.old u.old reference }
    ensures seen { result ≡ true → (plan : PlannedCaches) (seed : ℕ) (events : List Event) →
        IsPlan plan → PlannedCacheStandsFor seed plan.i (events_for L1I events) i.old →
        PlannedCacheStandsFor seed plan.d (events_for L1D events) d.old →
        PlannedCacheStandsFor seed plan.u (events_for L1U events) u.old →
        first_arrivals plan seed events reference
        ≡ Cache (first_name u.old reference) reference true None ∷ [] }
{
    let name = first_name(u, reference);
    match name {
        CacheName::L1U => access_first_in_front(u, reference),
        CacheName::L1I => access_first_in_front(i, reference),
        _ => access_first_in_front(d, reference),
    }
}
