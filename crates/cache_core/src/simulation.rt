//! An LRU cache with its counts.
pub mod simulate;

ghost use Rattle.std.specs.Prelude.{◌≡◌};
ghost use Rattle.cache_core.specs.internal.cache.Lookups.{lookup_of};

use crate::cache::chosen::ChosenCache;
use crate::design::{AllocMode, WriteMode};
use crate::geometry::Geometry;
use crate::outcome::{Counts, Outcome};
use crate::replacement::Lru;
use std::alloc::{AllocError, Global};
use trace_core::Ref;

/// How a reference went. A miss with an eviction evicted a block from its set.
#[derive(Clone, Copy, Debug, PartialEq, Eq)]
pub enum Lookup {
    Hit,
    Miss,
    MissEviction,
}

/// An LRU cache, write-back and write-allocate, with its counts: the separate simulation of one
/// configuration.
#[derive(Drop)]
pub struct Simulation {
    cache: ChosenCache<Lru>,
    counts: Counts,
}

impl Simulation {
    ghost use Rattle.std.specs.Prelude.{◌≡◌, ◌^◌, List, [], ◌∷◌, ◌++◌, IfOk};
    ghost use Rattle.cache_core.specs.Geometry.{GeometryValue};
    ghost use Rattle.cache_core.specs.LruLaws.{occurrence_after};
    ghost use Rattle.cache_core.specs.Simulation.{lookup_at, counts_with, SimulationCountsWithin};
    ghost use Rattle.cache_core.specs.Simulation.{SimulationStandsFor};
    ghost use Rattle.cache_core.specs.Windows.{counts};
    ghost use Rattle.trace_core.specs.declared.events.Event.{Event};
    ghost use Rattle.trace_core.specs.declared.events.Event.TheVariants as event;

    /// An empty cache of this geometry, with nothing counted. It takes all its memory here, and
    /// that alone can fail: 16 bytes for each line and 4 and a quarter for each set; with 128 lines
    /// per set or more, at most 29 bytes for each line, 12 and a quarter for each set, and 8 more.
    pub fn new(alloc: Global, geometry: Geometry) -> Result<Simulation, AllocError>
        ensures { IfOk result (SimulationStandsFor geometry []) }
    {
        let policy = Lru::new();
        let cache = ChosenCache::new(alloc, geometry, policy, WriteMode::Back, AllocMode::Always)?;
        let counts = Counts {
            hits: 0,
            misses: 0,
            evictions: 0,
        };
        Ok(Simulation { cache, counts })
    }

    /// The hits, misses and evictions so far.
    pub fn counts(&self) -> Counts
        ensures value { result ≡ self.now.counts }
        ensures trace { (g : GeometryValue) (events : List Event) →
            SimulationStandsFor g events self.now → result ≡ counts g events }
    {
        self.counts
    }

    /// Makes one reference, counts how it went, and returns that. No count may be above 2^63.
    #[inline(always)]
    pub fn access(&mut self, reference: Ref) -> Lookup
        requires { SimulationCountsWithin (2 ^ 63) self.old.counts }
        ensures stands { (g : GeometryValue) (events : List Event) →
            SimulationStandsFor g events self.old →
            SimulationStandsFor g (events ++ event.Reference reference ∷ []) self.new
            × (result ≡ lookup_at g (occurrence_after g events reference)) }
        ensures counted { self.new.counts ≡ counts_with self.old.counts result }
    {
        let lookup = self.cache.look_up(reference);
        match lookup {
            Lookup::Hit => self.counts.hits += 1,
            Lookup::Miss => self.counts.misses += 1,
            Lookup::MissEviction => {
                self.counts.misses += 1;
                self.counts.evictions += 1;
            }
        }
        lookup
    }

    /// Empties the cache. Its counts stay.
    pub fn flush(&mut self)
        ensures stands { (g : GeometryValue) (events : List Event) →
            SimulationStandsFor g events self.old →
            SimulationStandsFor g (events ++ event.Flush ∷ []) self.new }
        ensures counted { self.new.counts ≡ self.old.counts }
    {
        self.cache.flush();
    }
}

/// How an access with this outcome went.
#[inline(always)]
pub(crate) fn lookup_of(outcome: &Outcome) -> Lookup
    ensures { result ≡ lookup_of outcome.now }
{
    if outcome.hit {
        Lookup::Hit
    } else if outcome.evicted.is_some() {
        Lookup::MissEviction
    } else {
        Lookup::Miss
    }
}
