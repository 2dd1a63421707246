//! What lies below the first level: the second level, if there is one, and memory.
ghost use Rattle.std.specs.Prelude.{◌≡◌, ◌≤◌, ◌<◌, ◌+◌, ◌^◌, ℕ, List, ◌∷◌, [], Option, Some};
ghost use Rattle.cache_core.specs.internal.system.Counted.{accesses};
ghost use Rattle.cache_core.specs.internal.system.SystemSteps.{present_refs, memory_after_all};
ghost use Rattle.cache_core.specs.internal.system.SystemSteps.{Descends, AllDescend, accesses_of};
ghost use Rattle.cache_core.specs.internal.system.SystemSteps.{memory_accesses};
ghost use Rattle.cache_core.specs.system.SystemStands.{PlannedCacheStandsFor};
ghost use Rattle.cache_core.specs.system.Arrivals.{Saw, arrivals_below, all_arrivals_below};
ghost use Rattle.cache_core.specs.system.Arrivals.{at_memory};
ghost use Rattle.cache_core.specs.system.Plans.{IsPlannedCache};
ghost use Rattle.cache_core.specs.declared.system.plan.PlannedCache.{PlannedCache};
ghost use Rattle.trace_core.specs.declared.events.Event.{Event};

use crate::system::arrival::{Arrival, Observer};
use crate::system::plan::CacheName;
use crate::system::system_cache::SystemCache;
use trace_core::{Access, Ref};

/// The numbers of reads and writes that reached memory.
#[derive(Clone, Copy, Debug, PartialEq, Eq)]
pub(crate) struct Memory {
    pub(crate) reads: u64,
    pub(crate) writes: u64,
}

impl Memory {
    /// Counts a reference, if there is one, and shows it to the observer.
    fn count<O: Observer>(&mut self, reference: Option<Ref>, observer: &mut O)
        requires counts { memory_accesses self.old < 2 ^ 63 }
        requires room { 1 ≤ O.room observer.old }
        ensures value { self.new ≡ memory_after_all self.old (present_refs (reference ∷ [])) }
        ensures seen { Saw O.has_seen observer.old (at_memory (present_refs (reference ∷ [])))
            observer.new }
        ensures room { O.room observer.old ≤ O.room observer.new + 1 }
    {
        if let Some(reference) = reference {
            observer.see(Arrival::Memory { reference });
            if reference.access == Access::Write {
                self.writes += 1;
            } else {
                self.reads += 1;
            }
        }
    }
}

/// A reference arrives at the second level, or at memory.
fn descend<O: Observer>(
    second: &mut Option<SystemCache>,
    memory: &mut Memory,
    reference: Ref,
    observer: &mut O,
)
    requires counts { accesses_of second.old + memory_accesses memory.old < 2 ^ 62 }
    requires room { 3 ≤ O.room observer.old }
    ensures value { Descends reference second.old memory.old second.new memory.new }
    ensures seen { (seed : ℕ) (planned : Option PlannedCache) (events : List Event) →
        IsPlannedCache planned → PlannedCacheStandsFor seed planned events second.old →
        Saw O.has_seen observer.old (arrivals_below seed planned events reference) observer.new }
    ensures room { O.room observer.old ≤ O.room observer.new + 3 }
{
    match second {
        Some(cache) => arrive(cache, memory, reference, observer),
        None => memory.count(Some(reference), observer),
    }
}

/// A reference arrives at the second level. It is a function of its own, so that the path without a
/// second level stays short.
#[inline(never)]
fn arrive<O: Observer>(
    second: &mut SystemCache,
    memory: &mut Memory,
    reference: Ref,
    observer: &mut O,
)
    requires counts { accesses second.old.stats + memory_accesses memory.old < 2 ^ 62 }
    requires room { 3 ≤ O.room observer.old }
    ensures value { Descends reference (Some second.old) memory.old (Some second.new) memory.new }
    ensures seen { (seed : ℕ) (planned : Option PlannedCache) (events : List Event) →
        IsPlannedCache planned → PlannedCacheStandsFor seed planned events (Some second.old) →
        Saw O.has_seen observer.old (arrivals_below seed planned events reference) observer.new }
    ensures room { O.room observer.old ≤ O.room observer.new + 3 }
{
    let [first, next] = second.access(CacheName::L2U, reference, observer).down;
    memory.count(first, observer);
    memory.count(next, observer);
}

/// Sends down the references that one access causes, one after another.
#[inline(always)]
pub(crate) fn descend_all<O: Observer>(
    second: &mut Option<SystemCache>,
    memory: &mut Memory,
    down: [Option<Ref>; 2],
    observer: &mut O,
)
    requires counts { accesses_of second.old + memory_accesses memory.old < 2 ^ 61 }
    requires room { 6 ≤ O.room observer.old }
    ensures value { AllDescend (present_refs down) second.old memory.old second.new memory.new }
    ensures seen { (seed : ℕ) (planned : Option PlannedCache) (events : List Event) →
        IsPlannedCache planned → PlannedCacheStandsFor seed planned events second.old →
        Saw O.has_seen observer.old (all_arrivals_below seed planned events (present_refs down))
        observer.new }
    ensures room { O.room observer.old ≤ O.room observer.new + 6 }
{
    let [first, next] = down;
    if let Some(reference) = first {
        descend(second, memory, reference, observer);
    }
    if let Some(reference) = next {
        descend(second, memory, reference, observer);
    }
}
