//! A cache of a system, with what it counted.
ghost use Rattle.std.specs.Prelude.{◌≡◌, ◌≤◌, ◌<◌, ◌+◌, ◌^◌, ◌∷◌, [], Some, IfOk, MatchOption};
ghost use Rattle.std.specs.Prelude.{IfSome, is_some, false, MatchBool};
ghost use Rattle.cache_core.specs.system.Arrivals.{Saw, arrival_at};
ghost use Rattle.cache_core.specs.cache.Order.{dirty_slots};
ghost use Rattle.cache_core.specs.internal.cache.Held.{holds_block};
ghost use Rattle.cache_core.specs.internal.cache.Order.{hits_in_front, hit_in_front};
ghost use Rattle.cache_core.specs.internal.system.Counted.{accesses, IsCounted};
ghost use Rattle.cache_core.specs.replacement.Chosen.{policy_of, random_numbers_of};
ghost use Rattle.cache_core.specs.system.Systems.{random_numbers_for};

use crate::cache::chosen::ChosenCache;
use crate::outcome::Outcome;
use crate::replacement::chosen::{ChosenPolicy, chosen_policy};
use crate::system::arrival::{Observer, arrival_at};
use crate::system::plan::{CacheName, PlannedCache};
use crate::system::stats::CacheStats;
use std::alloc::{AllocError, Global};
use trace_core::Ref;

/// A cache of a system, with what it counted. Each miss and each eviction is caused by an access,
/// and each copyback and each dirty line by a write.
#[derive(Drop)]
pub(crate) struct SystemCache {
    pub(crate) cache: ChosenCache<ChosenPolicy>,
    pub(crate) stats: CacheStats,
    ghost counted: { IsCounted stats },
    ghost written: { stats.copybacks + dirty_slots cache.sets ≤ stats.writes },
}

impl SystemCache {
    ghost use Rattle.cache_core.specs.internal.system.CacheSteps.{Enters, Empties};
    ghost use Rattle.cache_core.specs.internal.system.SystemSteps.{IsNewSystemCache};

    /// A new cache of a system.
    pub(crate) fn new(alloc: Global, planned: PlannedCache, seed: u64) -> Result<Self, AllocError>
        ensures { IfOk result (IsNewSystemCache seed planned) }
    {
        let PlannedCache { design, policy } = planned;
        let policy = chosen_policy(policy, seed);
        let cache = ChosenCache::new(
            alloc,
            design.geometry,
            policy,
            design.write,
            design.allocate,
        )?;
        let stats = CacheStats::default();
        Ok(SystemCache { cache, stats })
    }

    /// Makes one reference, and counts it by its kind, if it finds its block in the first slot of
    /// its set and sends nothing down. Otherwise it does nothing. Returns whether it made the
    /// reference.
    #[inline(always)]
    pub(crate) fn access_in_front(&mut self, reference: Ref) -> bool
        requires { accesses self.old.stats < 2 ^ 62 }
        ensures value { MatchBool result (Enters self.old reference hit_in_front self.new)
            (self.new ≡ self.old) }
        ensures answers { result
            ≡ hits_in_front self.old.cache.design self.old.cache.sets reference }
    {
        match self.cache.access_in_front(reference) {
            Some(outcome) => {
                self.stats.count_access(reference.access, &outcome);
                true
            }
            None => false,
        }
    }

    /// Makes one reference if the cache holds its block, counts it by its kind, and shows it to the
    /// observer at the cache of this name. Otherwise it does nothing.
    #[inline(always)]
    pub(crate) fn hit<O: Observer>(
        &mut self,
        name: CacheName,
        reference: Ref,
        observer: &mut O,
    ) -> Option<Outcome>
        requires counts { accesses self.old.stats < 2 ^ 62 }
        requires room { 1 ≤ O.room observer.old }
        ensures value { MatchOption result
            ((self.new ≡ self.old) × (observer.new ≡ observer.old))
            (λ outcome. Enters self.old reference outcome self.new) }
        ensures seen { IfSome result (λ outcome. Saw O.has_seen observer.old
            (arrival_at name self.old.cache.design.geometry reference outcome.hit outcome.evicted
            ∷ []) observer.new) }
        ensures answers { is_some result
            ≡ holds_block self.old.cache.design self.old.cache.sets reference }
        ensures room { O.room observer.old ≤ O.room observer.new + 1 }
    {
        let geometry = self.cache.geometry();
        match self.cache.hit(reference) {
            Some(outcome) => {
                self.stats.count_access(reference.access, &outcome);
                observer.see(arrival_at(name, geometry, reference, &outcome));
                Some(outcome)
            }
            None => None,
        }
    }

    /// Makes one reference whose block the cache does not hold, counts it by its kind, and shows it
    /// to the observer at the cache of this name.
    #[inline(always)]
    pub(crate) fn miss<O: Observer>(
        &mut self,
        name: CacheName,
        reference: Ref,
        observer: &mut O,
    ) -> Outcome
        requires counts { accesses self.old.stats < 2 ^ 62 }
        requires room { 1 ≤ O.room observer.old }
        requires none { holds_block self.old.cache.design self.old.cache.sets reference ≡ false }
        ensures value { Enters self.old reference result self.new }
        ensures seen { Saw O.has_seen observer.old
            (arrival_at name self.old.cache.design.geometry reference result.hit result.evicted
            ∷ []) observer.new }
        ensures room { O.room observer.old ≤ O.room observer.new + 1 }
    {
        let geometry = self.cache.geometry();
        let outcome = self.cache.miss(reference);
        self.stats.count_access(reference.access, &outcome);
        observer.see(arrival_at(name, geometry, reference, &outcome));
        outcome
    }

    /// Makes one reference, counts it by its kind, and shows it to the observer at the cache of
    /// this name.
    #[inline(always)]
    pub(crate) fn access<O: Observer>(
        &mut self,
        name: CacheName,
        reference: Ref,
        observer: &mut O,
    ) -> Outcome
        requires counts { accesses self.old.stats < 2 ^ 62 }
        requires room { 1 ≤ O.room observer.old }
        ensures value { Enters self.old reference result self.new }
        ensures seen { Saw O.has_seen observer.old
            (arrival_at name self.old.cache.design.geometry reference result.hit result.evicted
            ∷ []) observer.new }
        ensures room { O.room observer.old ≤ O.room observer.new + 1 }
    {
        match self.hit(name, reference, observer) {
            Some(outcome) => outcome,
            None => self.miss(name, reference, observer),
        }
    }

    /// Empties the cache. Its dirty lines count as copybacks.
    pub(crate) fn flush(&mut self) -> u64
        ensures { Empties self.old result self.new }
    {
        let dirty = self.cache.flush();
        self.stats.count_flush(dirty);
        dirty
    }
}
