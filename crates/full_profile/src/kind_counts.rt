//! The misses of one kind of access.
ghost use Rattle.std.specs.Prelude.{◌≡◌, ◌+◌, ◌-◌, ◌^◌, ◌<◌, ◌≤◌, IfOk, length, sum, take, drop};
ghost use Rattle.std.specs.Prelude.{replicate};
ghost use Rattle.profile_core.specs.profile.State.{one_more_at};
ghost use Rattle.full_profile.specs.State.{kind_misses_at};

use crate::copies::total;
use std::alloc::{AllocError, Global};
use std::marker::Model;

/// The references of one kind of access that did not find their block in front of its set's list.
/// `behind` counts them by the stack distance, and `missed` those that did not find it in the list.
#[derive(Drop)]
pub struct KindCounts {
    behind: Vec<u64>,
    missed: u64,
}

impl Model for KindCounts {
    ghost use Rattle.full_profile.specs.State.{KindState};

    ghost Value = { KindState };

    ghost view = { λ k. record { behind = k.behind.items; missed = k.missed } };
}

impl KindCounts {
    /// No references, for stack distances below `depth`.
    pub fn new(alloc: Global, depth: usize) -> Result<KindCounts, AllocError>
        ensures { IfOk result (λ kind. kind ≡ record { behind = replicate depth 0; missed = 0 }) }
    {
        Ok(KindCounts {
            behind: vec![in alloc; 0; depth]?,
            missed: 0,
        })
    }

    /// Counts a reference that found its block at a stack distance.
    #[inline(always)]
    pub fn count_behind(&mut self, distance: usize)
        requires within { distance < length self.old.behind }
        requires few { sum self.old.behind < 2 ^ 63 }
        ensures { self.new
            ≡ record self.old { behind = one_more_at self.old.behind distance } }
    {
        self.behind[distance] += 1;
    }

    /// Counts a reference that did not find its block.
    #[inline(always)]
    pub fn count_missed(&mut self)
        requires { self.old.missed < 2 ^ 63 }
        ensures { self.new ≡ record self.old { missed = self.old.missed + 1 } }
    {
        self.missed += 1;
    }

    /// All references counted: as many misses as a cache without lines would have, except of
    /// references to a block in front.
    pub fn all(&self) -> u64
        requires { sum self.now.behind + self.now.missed < 2 ^ 63 }
        ensures { result ≡ kind_misses_at 0 self.now }
    {
        total(&self.behind) + self.missed
    }

    /// How many found their block at a stack distance in `from..to`.
    pub fn between(&self, from: usize, to: usize) -> u64
        requires rising { from ≤ to }
        requires within { to ≤ length self.now.behind }
        requires few { sum self.now.behind < 2 ^ 63 }
        ensures { result ≡ sum (take (to - from) (drop from self.now.behind)) }
    {
        total(&self.behind[from..to])
    }
}
