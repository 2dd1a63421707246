//! The policy of a cache of a system, which is chosen at run time.
ghost use Rattle.std.specs.Prelude.{◌≡◌, Some};
ghost use Rattle.cache_core.specs.replacement.Chosen.{policy_of, random_numbers_of};
ghost use Rattle.cache_core.specs.system.Systems.{random_numbers_for};

use crate::design::Repl;
use crate::outcome::Slot;
use crate::replacement::named::NamedPolicy;
use crate::replacement::{Fifo, Lru, Random, Replacement};

/// A policy that is chosen when the system is made.
#[derive(Drop)]
pub(crate) enum ChosenPolicy {
    Lru(Lru),
    Fifo(Fifo),
    Random(Random),
}

impl Replacement for ChosenPolicy {
    ghost use Rattle.cache_core.specs.replacement.Chosen.{policy_of, random_numbers_of};

    ghost policy = { policy_of };

    ghost words = { random_numbers_of };

    fn touch(&mut self, set: &mut [Slot], at: usize) -> usize {
        match self {
            ChosenPolicy::Lru(policy) => policy.touch(set, at),
            ChosenPolicy::Fifo(policy) => policy.touch(set, at),
            ChosenPolicy::Random(policy) => policy.touch(set, at),
        }
    }

    #[inline(always)]
    fn place(&mut self, set: &mut [Slot], filled: usize, new: Slot) -> (usize, Option<Slot>) {
        match self {
            ChosenPolicy::Lru(policy) => policy.place(set, filled, new),
            ChosenPolicy::Fifo(policy) => policy.place(set, filled, new),
            ChosenPolicy::Random(policy) => policy.place(set, filled, new),
        }
    }
}

impl NamedPolicy for ChosenPolicy {
    fn name(&self) -> Repl {
        match self {
            ChosenPolicy::Lru(policy) => policy.name(),
            ChosenPolicy::Fifo(policy) => policy.name(),
            ChosenPolicy::Random(policy) => policy.name(),
        }
    }

    fn draw(&mut self) -> usize {
        match self {
            ChosenPolicy::Lru(policy) => policy.draw(),
            ChosenPolicy::Fifo(policy) => policy.draw(),
            ChosenPolicy::Random(policy) => policy.draw(),
        }
    }
}

/// The policy that is named, with a generator of this seed.
pub(crate) fn chosen_policy(policy: Repl, seed: u64) -> ChosenPolicy
    ensures policy { policy_of result ≡ Some policy }
    ensures random_numbers { random_numbers_of result ≡ random_numbers_for policy seed }
{
    match policy {
        Repl::Lru => ChosenPolicy::Lru(Lru::new()),
        Repl::Fifo => ChosenPolicy::Fifo(Fifo::new()),
        Repl::Random => ChosenPolicy::Random(Random::new(seed)),
    }
}
