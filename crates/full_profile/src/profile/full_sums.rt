//! The sums of a full profile's histograms, for counts at rising associativities.

use std::marker::Model;

/// The sums of a full profile's histograms up to an associativity, which only rises.
/// `FullProfile::begin_sums` begins them, and `FullProfile::counts_next` raises them.
#[derive(Clone, Copy, Debug)]
pub struct FullSums {
    pub(crate) ways: usize,
    pub(crate) hits: u64,
    pub(crate) free_misses: u64,
    pub(crate) fed: u64,
    pub(crate) fetch_misses: u64,
    pub(crate) read_misses: u64,
    pub(crate) write_misses: u64,
    pub(crate) copied_above: u64,
    pub(crate) copied_up_to: u64,
}

impl Model for FullSums {
    ghost use Rattle.full_profile.specs.Sums.{FullSumsState};

    ghost Value = { FullSumsState };

    ghost view = { λ t. record {
      ways = t.ways;
      hits = t.hits;
      free_misses = t.free_misses;
      fed = t.fed;
      fetch_misses = t.fetch_misses;
      read_misses = t.read_misses;
      write_misses = t.write_misses;
      copied_above = t.copied_above;
      copied_up_to = t.copied_up_to;
    } };

    ghost inverse = { λ t. record {
      ways = t.ways;
      hits = t.hits;
      free_misses = t.free_misses;
      fed = t.fed;
      fetch_misses = t.fetch_misses;
      read_misses = t.read_misses;
      write_misses = t.write_misses;
      copied_above = t.copied_above;
      copied_up_to = t.copied_up_to;
    } };
}
