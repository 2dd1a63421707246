//! The separate simulation of one configuration.
ghost use Rattle.std.specs.Prelude.{◌≡◌, IfOk, map};
ghost use Rattle.trace_core.specs.declared.events.Event.TheVariants as event;
ghost use Rattle.cache_core.specs.Windows.{counts};
ghost use Rattle.cache_core.specs.cache.Machine.{effects, counts_in};
ghost use Rattle.cache_core.specs.LruLaws.{lru_machine};

use crate::design::WriteMode;
use crate::geometry::Geometry;
use crate::outcome::Counts;
use crate::simulation::Simulation;
use std::alloc::{AllocError, Global};
use trace_core::Ref;

/// The counts of an LRU write-back cache that allocates on writes, empty at first, after these
/// references. It takes the cache's memory, and that alone can fail.
pub fn simulate(alloc: Global, geometry: &Geometry, refs: &[Ref]) -> Result<Counts, AllocError>
    ensures machine { IfOk result (λ c.
        c ≡ counts_in (effects (lru_machine geometry.now WriteMode.Back)
        (map event.Reference refs.now))) }
    ensures windows { IfOk result (λ c. c ≡ counts geometry.now (map event.Reference refs.now)) }
{
    let mut simulation = Simulation::new(alloc, *geometry)?;
    for reference in refs {
        simulation.access(*reference);
    }
    Ok(simulation.counts())
}
