//! A policy that says its name and draws its random numbers, for a cache that keeps the order of
//! its slots itself.
ghost use Rattle.std.specs.Prelude.{◌≡◌, Some};
ghost use Rattle.cache_core.specs.declared.outcome.Slot.{Slot as SlotValue};
ghost use Rattle.cache_core.specs.cache.Order.{random_numbers_after};

use crate::design::Repl;
use crate::replacement::{Fifo, Lru, Random, Replacement};

/// One of the three named policies.
pub(crate) trait NamedPolicy: Replacement {
    /// Its name.
    fn name(&self) -> Repl
        ensures { Self.policy self.now ≡ Some result };

    /// The random number by which a victim is chosen, 0 under a policy that takes none.
    fn draw(&mut self) -> usize
        ensures number { result ≡ Self.words self.old 0 }
        ensures rest { (victim : SlotValue) → Self.words self.new
            ≡ random_numbers_after (Self.policy self.old) (Some victim) (Self.words self.old) }
        ensures policy { Self.policy self.new ≡ Self.policy self.old };
}

impl NamedPolicy for Lru {
    fn name(&self) -> Repl {
        Repl::Lru
    }

    fn draw(&mut self) -> usize {
        0
    }
}

impl NamedPolicy for Fifo {
    fn name(&self) -> Repl {
        Repl::Fifo
    }

    fn draw(&mut self) -> usize {
        0
    }
}

impl NamedPolicy for Random {
    fn name(&self) -> Repl {
        Repl::Random
    }

    fn draw(&mut self) -> usize {
        self.next_number()
    }
}
