//! The sums of a profile's histograms, for counts at rising associativities.

use std::marker::Model;

/// The sums of a profile's histograms up to an associativity, which only rises: `hits` of the `fed`
/// references hit in a cache of `ways` lines per set, and `free_misses` missed while their set had
/// a free line. `Profile::begin_sums` begins them, and `Profile::counts_next` raises them.
#[derive(Clone, Copy, Debug)]
pub struct HitSums {
    pub(crate) ways: usize,
    pub(crate) hits: u64,
    pub(crate) free_misses: u64,
    pub(crate) fed: u64,
}

impl Model for HitSums {
    ghost use Rattle.profile_core.specs.profile.State.{HitSumsState};

    ghost Value = { HitSumsState };

    ghost view = { λ t.
        record { ways = t.ways; hits = t.hits; free_misses = t.free_misses; fed = t.fed } };

    ghost inverse = { λ t.
        record { ways = t.ways; hits = t.hits; free_misses = t.free_misses; fed = t.fed } };
}
