//! The rows of a sweep: each configuration with its counts.
ghost use Rattle.std.specs.Prelude.{◌≡◌, ◌-◌, ◌≤◌};
ghost use Rattle.std.specs.List.{AllByRecursion};
ghost use Rattle.profile_core.specs.profile.State.{counts_at, hit_sums_at};
ghost use Rattle.sweep_core.specs.internal.Runs.{IsWalk, next_ways};

// Callers know it by this path too.
use crate::profiles::PairProfile;
use crate::space::{Config, Space};
pub use crate::sweep::SweepCounts;
use cache_core::Counts;
use profile_core::Profile;
use profile_core::profile::HitSums;
use std::marker::Model;

/// An iterator over the rows of a sweep, in the order of the table. It goes through a pair's
/// histograms once.
#[derive(Drop)]
pub struct Rows<'a> {
    space: &'a Space,
    /// The pair whose rows come, if it isn't the next one.
    pair: Option<PairWalk<'a>>,
    later: &'a [PairProfile],
}

impl<'a> Model for Rows<'a> {
    ghost use Rattle.std.specs.Prelude.{List};
    ghost use Rattle.cache_core.specs.declared.outcome.Counts.{Counts};
    ghost use Rattle.sweep_core.specs.declared.space.Config.{Config};
    ghost use Rattle.sweep_core.specs.internal.Runs.{rows_to_come, MayCome};

    ghost Value = { List (Config × Counts) };

    ghost view = { λ r. rows_to_come r.space.now.powers r.pair r.later.now };

    ghost invariant = { λ r. MayCome r.space.now.powers r.pair r.later.now };
}

impl<'a> Rows<'a> {
    ghost use Rattle.sweep_core.specs.internal.Runs.{counted_profiles, ServesRows};

    /// The rows of the profiles of a space.
    pub(crate) fn new(space: &'a Space, profiles: &'a [PairProfile]) -> Rows<'a>
        requires { AllByRecursion (ServesRows space.now.powers) profiles.now }
        ensures { result ≡ counted_profiles space.now.powers profiles.now }
    {
        Rows {
            space,
            pair: None,
            later: profiles,
        }
    }
}

impl<'a> Iterator for Rows<'a> {
    ghost use Rattle.std.specs.Iterator.{YieldsFirst, item_count};

    type Item = (Config, Counts);

    ghost next_gives = { YieldsFirst (λ r. r) };

    ghost remaining = { item_count (λ r. r) };

    #[inline(always)]
    fn next(&mut self) -> Option<(Config, Counts)> {
        let mut pair = match self.pair.take() {
            Some(pair) => pair,
            None => {
                let (first, later) = self.later.split_first()?;
                self.later = later;
                PairWalk::new(first)
            }
        };
        let row = pair.next_row(self.space);
        self.pair = (pair.left > 0).then_some(pair);
        Some(row)
    }
}

/// An iterator over the pairs of a sweep: the rows of each.
#[derive(Drop)]
pub(crate) struct Pairs<'a> {
    space: &'a Space,
    later: &'a [PairProfile],
}

impl<'a> Model for Pairs<'a> {
    ghost use Rattle.std.specs.Prelude.{List};
    ghost use Rattle.std.specs.List.{AllByRecursion};
    ghost use Rattle.cache_core.specs.declared.outcome.Counts.{Counts};
    ghost use Rattle.sweep_core.specs.declared.space.Config.{Config};
    ghost use Rattle.sweep_core.specs.internal.Runs.{rows_by_pair, ServesRows};

    ghost Value = { List (List (Config × Counts)) };

    ghost view = { λ p. rows_by_pair p.space.now.powers p.later.now };

    ghost invariant = { λ p. AllByRecursion (ServesRows p.space.now.powers) p.later.now };
}

impl<'a> Pairs<'a> {
    ghost use Rattle.sweep_core.specs.internal.Runs.{rows_by_pair, ServesRows};

    /// The rows of the profiles of a space, profile by profile.
    pub(crate) fn new(space: &'a Space, profiles: &'a [PairProfile]) -> Pairs<'a>
        requires { AllByRecursion (ServesRows space.now.powers) profiles.now }
        ensures { result ≡ rows_by_pair space.now.powers profiles.now }
    {
        Pairs {
            space,
            later: profiles,
        }
    }
}

impl<'a> Iterator for Pairs<'a> {
    ghost use Rattle.std.specs.Iterator.{YieldsFirst, item_count};

    type Item = Rows<'a>;

    ghost next_gives = { YieldsFirst (λ p. p) };

    ghost remaining = { item_count (λ p. p) };

    #[inline(always)]
    fn next(&mut self) -> Option<Rows<'a>> {
        let (first, later) = self.later.split_first()?;
        self.later = later;
        Some(Rows {
            space: self.space,
            pair: Some(PairWalk::new(first)),
            later: &[],
        })
    }
}

/// A walk over the rows of a pair: those from `next` on are left.
#[derive(Drop)]
pub(crate) struct PairWalk<'a> {
    profile: &'a Profile,
    sums: HitSums,
    next: Config,
    left: u64,
}

impl<'a> PairWalk<'a> {
    /// All rows of a pair.
    fn new(pair: &'a PairProfile) -> PairWalk<'a>
        ensures profile { result.profile.now ≡ pair.now.profile }
        ensures sums { result.sums ≡ hit_sums_at pair.now.profile 0 }
        ensures first { result.next ≡ pair.now.first }
        ensures left { result.left ≡ pair.now.row_count }
    {
        PairWalk {
            profile: &pair.profile,
            sums: pair.profile.begin_sums(),
            next: pair.first,
            left: pair.row_count,
        }
    }

    /// Takes the next row.
    #[inline(always)]
    fn next_row(&mut self, space: &Space) -> (Config, Counts)
        requires walk { IsWalk space.now.powers self.old }
        requires some { 1 ≤ self.old.left }
        ensures row { result
            ≡ (self.old.next, counts_at self.old.profile.now self.old.next.assoc) }
        ensures profile { self.new.profile.now ≡ self.old.profile.now }
        ensures left { self.new.left ≡ self.old.left - 1 }
        ensures next { self.new.next
            ≡ record self.old.next { assoc = next_ways space.now.powers self.old.next.assoc } }
        ensures walk { IsWalk space.now.powers self.new }
    {
        let config = self.next;
        let counts = self.profile.counts_next(&mut self.sums, config.assoc);
        self.left -= 1;
        self.next.assoc = space.next_ways(config.assoc);
        (config, counts)
    }
}
