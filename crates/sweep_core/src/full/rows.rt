//! The rows of a full sweep: each configuration with all its counts.
ghost use Rattle.std.specs.Prelude.{◌≡◌, ◌-◌, ◌≤◌};
ghost use Rattle.std.specs.List.{AllByRecursion};
ghost use Rattle.full_profile.specs.State.{full_counts_at};
ghost use Rattle.full_profile.specs.Sums.{full_sums_at};
ghost use Rattle.sweep_core.specs.internal.Runs.{next_ways};
ghost use Rattle.sweep_core.specs.internal.FullRuns.{IsFullWalk};

use crate::full::profiles::FullPair;
use crate::space::{Config, Space};
use full_profile::{FullCounts, FullProfile, FullSums};
use std::marker::Model;

/// An iterator over the rows of a full sweep, in the order of the table. It goes through a pair's
/// histograms once.
#[derive(Drop)]
pub struct FullRows<'a> {
    space: &'a Space,
    /// The pair whose rows come, if it isn't the next one.
    pair: Option<FullWalk<'a>>,
    later: &'a [FullPair],
}

impl<'a> Model for FullRows<'a> {
    ghost use Rattle.std.specs.Prelude.{List};
    ghost use Rattle.full_profile.specs.declared.counts.FullCounts.{FullCounts};
    ghost use Rattle.sweep_core.specs.declared.space.Config.{Config};
    ghost use Rattle.sweep_core.specs.internal.FullRuns.{full_rows_to_come, MayComeFull};

    ghost Value = { List (Config × FullCounts) };

    ghost view = { λ r. full_rows_to_come r.space.now.powers r.pair r.later.now };

    ghost invariant = { λ r. MayComeFull r.space.now.powers r.pair r.later.now };
}

impl<'a> FullRows<'a> {
    ghost use Rattle.sweep_core.specs.internal.FullRuns.{full_counted_profiles, ServesFull};

    /// The rows of the profiles of a space.
    pub(crate) fn new(space: &'a Space, profiles: &'a [FullPair]) -> FullRows<'a>
        requires { AllByRecursion (ServesFull space.now.powers) profiles.now }
        ensures { result ≡ full_counted_profiles space.now.powers profiles.now }
    {
        FullRows {
            space,
            pair: None,
            later: profiles,
        }
    }
}

impl<'a> Iterator for FullRows<'a> {
    ghost use Rattle.std.specs.Iterator.{YieldsFirst, item_count};

    type Item = (Config, FullCounts);

    ghost next_gives = { YieldsFirst (λ r. r) };

    ghost remaining = { item_count (λ r. r) };

    #[inline(always)]
    fn next(&mut self) -> Option<(Config, FullCounts)> {
        let mut pair = match self.pair.take() {
            Some(pair) => pair,
            None => {
                let (first, later) = self.later.split_first()?;
                self.later = later;
                FullWalk::new(first)
            }
        };
        let row = pair.next_row(self.space);
        self.pair = (pair.left > 0).then_some(pair);
        Some(row)
    }
}

/// A walk over the rows of a pair: those from `next` on are left.
#[derive(Drop)]
pub(crate) struct FullWalk<'a> {
    profile: &'a FullProfile,
    sums: FullSums,
    next: Config,
    left: u64,
}

impl<'a> FullWalk<'a> {
    /// All rows of a pair.
    fn new(pair: &'a FullPair) -> FullWalk<'a>
        ensures profile { result.profile.now ≡ pair.now.profile }
        ensures sums { result.sums ≡ full_sums_at pair.now.profile 0 }
        ensures first { result.next ≡ pair.now.first }
        ensures left { result.left ≡ pair.now.row_count }
    {
        FullWalk {
            profile: &pair.profile,
            sums: pair.profile.begin_sums(),
            next: pair.first,
            left: pair.row_count,
        }
    }

    /// Takes the next row.
    #[inline(always)]
    fn next_row(&mut self, space: &Space) -> (Config, FullCounts)
        requires walk { IsFullWalk space.now.powers self.old }
        requires some { 1 ≤ self.old.left }
        ensures row { result
            ≡ (self.old.next, full_counts_at self.old.profile.now self.old.next.assoc) }
        ensures profile { self.new.profile.now ≡ self.old.profile.now }
        ensures left { self.new.left ≡ self.old.left - 1 }
        ensures next { self.new.next
            ≡ record self.old.next { assoc = next_ways space.now.powers self.old.next.assoc } }
        ensures walk { IsFullWalk space.now.powers self.new }
    {
        let config = self.next;
        let counts = self.profile.counts_next(&mut self.sums, config.assoc);
        self.left -= 1;
        self.next.assoc = space.next_ways(config.assoc);
        (config, counts)
    }
}
