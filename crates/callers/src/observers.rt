//! A system of caches with an observer of one's own.
ghost use Rattle.std.specs.Prelude.{◌≡◌, ◌<◌, ℕ, List, ◌++◌, length};
ghost use Rattle.trace_core.specs.declared.events.Event.{Event};
ghost use Rattle.trace_core.specs.declared.events.Event.TheVariants as event;
ghost use Rattle.cache_core.specs.system.Plans.{PlannedCaches, IsPlan};
ghost use Rattle.cache_core.specs.system.SystemStands.{SystemStandsFor};
ghost use Rattle.cache_core.specs.system.Arrivals.{arrivals_of};

use cache_core::{Arrival, MAX_ARRIVALS, MAX_STEPS, Observer, System};
use trace_core::Ref;

/// Counts what it sees, up to as many as one step can show.
#[derive(Drop)]
pub struct Counter {
    seen: usize,
}

impl Observer for Counter {
    ghost use Rattle.std.specs.Prelude.{◌≡◌, ◌-◌, length};
    ghost use Rattle.cache_core.specs.declared.system.arrival.TheConstants.{MAX_ARRIVALS};

    ghost has_seen = { λ counter arrivals. counter.seen ≡ length arrivals };

    ghost room = { λ counter. MAX_ARRIVALS - counter.seen };

    fn see(&mut self, arrival: Arrival) {
        let _ = arrival;
        self.seen += 1;
    }
}

/// Makes a reference, and returns how many lines the log has for it.
pub fn lines_of_step(system: &mut System, reference: Ref) -> usize
    requires { system.old.steps < MAX_STEPS }
    ensures { (plan : PlannedCaches) (seed : ℕ) (events : List Event) → IsPlan plan →
        SystemStandsFor plan seed events system.old →
        result ≡ length (arrivals_of plan seed events (event.Reference reference)) }
{
    let mut counter = Counter { seen: 0 };
    system.step_observed(reference, &mut counter);
    counter.seen
}
