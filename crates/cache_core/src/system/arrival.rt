//! The log of a system of caches: what arrives where, and how it goes there.
ghost use Rattle.std.specs.Prelude.{◌≡◌, ◌*◌, ◌<◌, ◌^◌, IfSome};
ghost use Rattle.cache_core.specs.system.Arrivals.{arrival_at};

use crate::geometry::Geometry;
use crate::outcome::Outcome;
use crate::system::plan::CacheName;
use trace_core::Ref;

/// The address of a block that is evicted, and whether it was dirty.
#[derive(Clone, Copy, Debug, PartialEq, Eq)]
pub struct Victim {
    pub addr: u64,
    pub dirty: bool,
}

/// A reference arrives at a place, or a cache is flushed.
#[derive(Clone, Copy, Debug, PartialEq, Eq)]
pub enum Arrival {
    /// At a cache: whether it hits, and the block that it evicts.
    Cache {
        cache: CacheName,
        reference: Ref,
        hit: bool,
        victim: Option<Victim>,
    },
    /// At memory.
    Memory {
        reference: Ref,
    },
    /// At no cache, if no first-level cache takes the reference.
    Bypassed {
        reference: Ref,
    },
    /// A cache is flushed, and this many dirty blocks are copied back.
    Flush {
        cache: CacheName,
        dirty: u64,
    },
}

/// The arrival of a reference at a cache of this geometry, with this outcome.
#[inline(always)]
pub(crate) fn arrival_at(
    cache: CacheName,
    geometry: Geometry,
    reference: Ref,
    outcome: &Outcome,
) -> Arrival
    requires { IfSome outcome.now.evicted (λ slot. slot.block * 2 ^ geometry.b < 2 ^ 64) }
    ensures { result ≡ arrival_at cache geometry reference outcome.now.hit outcome.now.evicted }
{
    let victim = match outcome.evicted {
        Some(slot) => Some(Victim {
            addr: geometry.address_of(slot.block),
            dirty: slot.dirty,
        }),
        None => None,
    };
    Arrival::Cache {
        cache,
        reference,
        hit: outcome.hit,
        victim,
    }
}

/// The most arrivals of one reference: one at the first level, two at the second, and from each of
/// these two at memory.
pub const MAX_ARRIVALS: usize = 7;

/// Sees each arrival when it happens.
pub trait Observer {
    ghost use Rattle.std.specs.Prelude.{◌≤◌, ◌+◌, ◌∷◌, [], ℕ, List};
    ghost use Rattle.cache_core.specs.system.Arrivals.{Saw};
    ghost use Rattle.cache_core.specs.declared.system.arrival.Arrival.{Arrival};

    /// It has seen these arrivals, in order.
    ghost has_seen: { Self → List Arrival → Type 0 };

    /// How many more it has room for.
    ghost room: { Self → ℕ };

    /// Sees one more.
    fn see(&mut self, arrival: Arrival)
        requires { 1 ≤ room self.old }
        ensures seen { Saw has_seen self.old (arrival ∷ []) self.new }
        ensures room { room self.old ≤ room self.new + 1 };
}

/// Sees nothing.
#[derive(Drop)]
pub(crate) struct Nobody;

impl Observer for Nobody {
    ghost use Rattle.cache_core.specs.declared.system.arrival.TheConstants.{MAX_ARRIVALS};

    ghost has_seen = { λ _ _. Unit {0} };

    ghost room = { λ _. MAX_ARRIVALS };

    #[inline(always)]
    fn see(&mut self, arrival: Arrival) {
        let _ = arrival;
    }
}
