//! A system of caches.
pub mod arrival;
mod below;
mod first_level;
pub mod plan;
pub mod stats;
mod system_cache;

ghost use Rattle.std.specs.Prelude.{◌≡◌, ◌≤◌, ◌<◌, ◌+◌, ℕ, List, length, ◌∷◌, [], IfOk, Option};
ghost use Rattle.std.specs.Prelude.{◌++◌, false};
ghost use Rattle.cache_core.specs.internal.system.SystemSteps.{EmptiesCache, IsNewCache};
ghost use Rattle.cache_core.specs.internal.system.HeldFirst.{first_level_holds};
ghost use Rattle.cache_core.specs.system.SystemSteps.{stats_held};
ghost use Rattle.cache_core.specs.system.SystemStands.{PlannedCacheStandsFor};
ghost use Rattle.cache_core.specs.system.Arrivals.{Saw, flushes};
ghost use Rattle.cache_core.specs.system.Plans.{PlannedCaches, IsPlan};
ghost use Rattle.cache_core.specs.declared.system.plan.PlannedCache.{PlannedCache};
ghost use Rattle.trace_core.specs.declared.events.Event.{Event};

use crate::system::arrival::{Arrival, MAX_ARRIVALS, Nobody, Observer};
use crate::system::below::{Memory, descend_all};
use crate::system::first_level::{
    access_first_level_in_front, first_name, hit_first_level, miss_first_level,
};
use crate::system::plan::{CacheName, Plan, PlannedCache};
use crate::system::stats::{CacheStats, Stats};
use crate::system::system_cache::SystemCache;
use std::alloc::{AllocError, Global};
use std::marker::Model;
use trace_core::{MAX_LINES, Ref};

/// The most steps of a system, flushes among them: two for each line of a trace. So no count
/// overflows.
pub const MAX_STEPS: u64 = 2 * MAX_LINES;

/// A system of caches.
#[derive(Drop)]
pub struct System {
    i: Option<SystemCache>,
    d: Option<SystemCache>,
    u: Option<SystemCache>,
    second: Option<SystemCache>,
    memory: Memory,
    bypassed: u64,
    steps: u64,
}

impl Model for System {
    ghost use Rattle.cache_core.specs.system.SystemSteps.{SystemValue};

    ghost Value = { SystemValue };

    ghost use Rattle.cache_core.specs.internal.system.SystemSteps.{IsSystem};
    ghost use Rattle.cache_core.specs.internal.system.SystemFields.{system_value};

    ghost view = { system_value };

    ghost invariant = { λ s. IsSystem (system_value s) };
}

impl System {
    ghost use Rattle.cache_core.specs.system.SystemSteps.{HasWritten, stats_of};
    ghost use Rattle.trace_core.specs.declared.events.Event.TheVariants as event;
    ghost use Rattle.cache_core.specs.system.Systems.{system_run};
    ghost use Rattle.cache_core.specs.system.Arrivals.{arrivals_of};
    ghost use Rattle.cache_core.specs.system.SystemStands.{SystemStandsFor};

    /// A system of the caches of a plan, all empty; each with random replacement has a generator of
    /// its own, of this seed. Takes the memory of all its caches; it fails only if there is too
    /// little.
    pub fn new(alloc: Global, plan: Plan, seed: u64) -> Result<Self, AllocError>
        ensures stands { IfOk result (SystemStandsFor plan seed []) }
        ensures limits { IsPlan plan }
    {
        let i = new_cache(alloc, plan.first_i(), seed)?;
        let d = new_cache(alloc, plan.first_d(), seed)?;
        let u = new_cache(alloc, plan.first_u(), seed)?;
        let second = new_cache(alloc, plan.second(), seed)?;
        let memory = Memory {
            reads: 0,
            writes: 0,
        };
        Ok(System {
            i,
            d,
            u,
            second,
            memory,
            bypassed: 0,
            steps: 0,
        })
    }

    /// How many steps it has made, flushes among them.
    pub fn steps(&self) -> u64
        ensures value { result ≡ self.now.steps }
        ensures trace { (plan : PlannedCaches) (seed : ℕ) (events : List Event) →
            SystemStandsFor plan seed events self.now → result ≡ length events }
    {
        self.steps
    }

    /// Makes one reference at the first-level cache that takes it; what this cache sends on goes to
    /// the second level, or else to memory. A reference that no cache takes is bypassed. Steps and
    /// flushes together may be at most `MAX_STEPS`.
    #[inline(always)]
    pub fn step(&mut self, reference: Ref)
        requires { self.old.steps < MAX_STEPS }
        ensures stands { (plan : PlannedCaches) (seed : ℕ) (events : List Event) → IsPlan plan →
            SystemStandsFor plan seed events self.old →
            SystemStandsFor plan seed (events ++ event.Reference reference ∷ []) self.new }
        ensures steps { self.new.steps ≡ self.old.steps + 1 }
    {
        if access_first_level_in_front(&mut self.i, &mut self.d, &mut self.u, reference) {
            self.steps += 1;
        } else {
            self.step_seen(reference, &mut Nobody);
        }
    }

    /// Makes a step as `step` does; an observer sees each arrival.
    #[inline(always)]
    pub fn step_observed<O: Observer>(&mut self, reference: Ref, observer: &mut O)
        requires steps { self.old.steps < MAX_STEPS }
        requires room { MAX_ARRIVALS ≤ O.room observer.old }
        ensures stands { (plan : PlannedCaches) (seed : ℕ) (events : List Event) → IsPlan plan →
            SystemStandsFor plan seed events self.old →
            SystemStandsFor plan seed (events ++ event.Reference reference ∷ []) self.new }
        ensures steps { self.new.steps ≡ self.old.steps + 1 }
        ensures seen { (plan : PlannedCaches) (seed : ℕ) (events : List Event) → IsPlan plan →
            SystemStandsFor plan seed events self.old →
            Saw O.has_seen observer.old (arrivals_of plan seed events (event.Reference reference))
            observer.new }
        ensures room { O.room observer.old ≤ O.room observer.new + MAX_ARRIVALS }
    {
        let cache = first_name(&self.u, reference);
        if access_first_level_in_front(&mut self.i, &mut self.d, &mut self.u, reference) {
            self.steps += 1;
            observer.see(Arrival::Cache {
                cache,
                reference,
                hit: true,
                victim: None,
            });
        } else {
            self.step_seen(reference, observer);
        }
    }

    /// Makes any step. It is a function of its own, so that the path of the many references that
    /// find their block in the first slot of its set stays short.
    #[inline(never)]
    fn step_seen<O: Observer>(&mut self, reference: Ref, observer: &mut O)
        requires steps { self.old.steps < MAX_STEPS }
        requires room { MAX_ARRIVALS ≤ O.room observer.old }
        ensures stands { (plan : PlannedCaches) (seed : ℕ) (events : List Event) → IsPlan plan →
            SystemStandsFor plan seed events self.old →
            SystemStandsFor plan seed (events ++ event.Reference reference ∷ []) self.new }
        ensures steps { self.new.steps ≡ self.old.steps + 1 }
        ensures seen { (plan : PlannedCaches) (seed : ℕ) (events : List Event) → IsPlan plan →
            SystemStandsFor plan seed events self.old →
            Saw O.has_seen observer.old (arrivals_of plan seed events (event.Reference reference))
            observer.new }
        ensures room { O.room observer.old ≤ O.room observer.new + MAX_ARRIVALS }
    {
        match hit_first_level(&mut self.i, &mut self.d, &mut self.u, reference, observer) {
            Some(down) => {
                self.steps += 1;
                descend_all(&mut self.second, &mut self.memory, down, observer);
            }
            None => self.step_missed(reference, observer),
        }
    }

    /// Makes a step at whose first-level cache the reference misses, or that none takes.
    #[inline(always)]
    fn step_missed<O: Observer>(&mut self, reference: Ref, observer: &mut O)
        requires steps { self.old.steps < MAX_STEPS }
        requires room { MAX_ARRIVALS ≤ O.room observer.old }
        requires missed { first_level_holds self.old.i self.old.d self.old.u reference ≡ false }
        ensures stands { (plan : PlannedCaches) (seed : ℕ) (events : List Event) → IsPlan plan →
            SystemStandsFor plan seed events self.old →
            SystemStandsFor plan seed (events ++ event.Reference reference ∷ []) self.new }
        ensures steps { self.new.steps ≡ self.old.steps + 1 }
        ensures seen { (plan : PlannedCaches) (seed : ℕ) (events : List Event) → IsPlan plan →
            SystemStandsFor plan seed events self.old →
            Saw O.has_seen observer.old (arrivals_of plan seed events (event.Reference reference))
            observer.new }
        ensures room { O.room observer.old ≤ O.room observer.new + MAX_ARRIVALS }
    {
        self.steps += 1;
        let down = miss_first_level(&mut self.i, &mut self.d, &mut self.u, reference, observer);
        match down {
            Some(down) => descend_all(&mut self.second, &mut self.memory, down, observer),
            None => {
                observer.see(Arrival::Bypassed { reference });
                self.bypassed += 1;
            }
        }
    }

    /// Empties every cache. Each dirty line is a copyback and a write to memory; nothing enters the
    /// second level, and nothing is an eviction. A flush is a step, too.
    pub fn flush(&mut self)
        requires { self.old.steps < MAX_STEPS }
        ensures stands { (plan : PlannedCaches) (seed : ℕ) (events : List Event) →
            SystemStandsFor plan seed events self.old →
            SystemStandsFor plan seed (events ++ event.Flush ∷ []) self.new }
        ensures steps { self.new.steps ≡ self.old.steps + 1 }
    {
        self.flush_observed(&mut Nobody);
    }

    /// Empties every cache as `flush` does; an observer sees each cache flushed.
    pub fn flush_observed<O: Observer>(&mut self, observer: &mut O)
        requires steps { self.old.steps < MAX_STEPS }
        requires room { MAX_ARRIVALS ≤ O.room observer.old }
        ensures stands { (plan : PlannedCaches) (seed : ℕ) (events : List Event) →
            SystemStandsFor plan seed events self.old →
            SystemStandsFor plan seed (events ++ event.Flush ∷ []) self.new }
        ensures steps { self.new.steps ≡ self.old.steps + 1 }
        ensures seen { (plan : PlannedCaches) (seed : ℕ) (events : List Event) →
            SystemStandsFor plan seed events self.old →
            Saw O.has_seen observer.old (arrivals_of plan seed events event.Flush) observer.new }
        ensures room { O.room observer.old ≤ O.room observer.new + MAX_ARRIVALS }
    {
        self.steps += 1;
        let i = empty(CacheName::L1I, &mut self.i, observer);
        let d = empty(CacheName::L1D, &mut self.d, observer);
        let u = empty(CacheName::L1U, &mut self.u, observer);
        let second = empty(CacheName::L2U, &mut self.second, observer);
        self.memory.writes += i + d + u + second;
    }

    /// The statistics so far. No cache copied back more blocks than it took writes.
    pub fn stats(&self) -> Stats
        ensures value { result ≡ stats_of self.now }
        ensures copybacks { HasWritten result.l1i × HasWritten result.l1d
            × HasWritten result.l1u × HasWritten result.l2u }
        ensures trace { (plan : PlannedCaches) (seed : ℕ) (events : List Event) →
            SystemStandsFor plan seed events self.now → result ≡ system_run plan seed events }
    {
        Stats {
            l1i: counts(&self.i),
            l1d: counts(&self.d),
            l1u: counts(&self.u),
            l2u: counts(&self.second),
            memory_reads: self.memory.reads,
            memory_writes: self.memory.writes,
            bypassed: self.bypassed,
        }
    }
}

/// Empties a cache of a system, if it is there, and returns how many dirty lines it held.
fn empty<O: Observer>(name: CacheName, cache: &mut Option<SystemCache>, observer: &mut O) -> u64
    requires room { 1 ≤ O.room observer.old }
    ensures value { EmptiesCache cache.old result cache.new }
    ensures seen { (seed : ℕ) (planned : Option PlannedCache) (events : List Event) →
        PlannedCacheStandsFor seed planned events cache.old →
        Saw O.has_seen observer.old (flushes seed name planned events) observer.new }
    ensures room { O.room observer.old ≤ O.room observer.new + 1 }
{
    match cache {
        Some(cache) => {
            let dirty = cache.flush();
            observer.see(Arrival::Flush { cache: name, dirty });
            dirty
        }
        None => 0,
    }
}

/// The statistics of a cache of a system, if it is there.
fn counts(cache: &Option<SystemCache>) -> Option<CacheStats>
    ensures { result ≡ stats_held cache.now }
{
    match cache {
        Some(cache) => Some(cache.stats),
        None => None,
    }
}

/// A cache of a system, if the plan has it.
fn new_cache(
    alloc: Global,
    planned: Option<PlannedCache>,
    seed: u64,
) -> Result<Option<SystemCache>, AllocError>
    ensures { IfOk result (IsNewCache seed planned) }
{
    match planned {
        Some(planned) => Ok(Some(SystemCache::new(alloc, planned, seed)?)),
        None => Ok(None),
    }
}
