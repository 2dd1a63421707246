//! The configurations of a space in order: the pairs of block size and set count one after another,
//! and of each the associativities that the ranges and the limit on lines leave.
ghost use Rattle.std.specs.Prelude.{◌≡◌, ◌<◌, ◌≤◌, ◌^◌, ℕ, nat_le, true, false, MatchOption};
ghost use Rattle.std.specs.Iterator.{YieldsFirst, item_count};
ghost use Rattle.sweep_core.specs.Table.{is_after};
ghost use Rattle.sweep_core.specs.Space.{config};
ghost use Rattle.cache_core.specs.Powers.{log2};
ghost use Rattle.sweep_core.specs.internal.Walk.{pair_at, NoWays, AreWays};

use super::{Config, Space, is_in_range};
use cache_core::{MAX_BITS, MAX_CACHE_LINES};
use std::marker::Model;

/// How many powers of two there are up to the greatest block size and set count.
const POWERS: u32 = MAX_BITS as u32 + 1;

/// An iterator over the configurations of a space that are greater than a triple, rising.
#[derive(Debug, Drop)]
pub struct Configs {
    space: Space,
    after: Option<Config>,
    /// How many configurations of a pair are left, from `next` on.
    left: u64,
    next: Config,
    /// Which pair follows.
    pair: u32,
}

impl Model for Configs {
    ghost use Rattle.std.specs.Prelude.{◌++◌, ◌≤◌, ◌^◌, List};
    ghost use Rattle.sweep_core.specs.declared.space.Config.{Config};
    ghost use Rattle.sweep_core.specs.internal.Runs.{run_of, ways_after};
    ghost use Rattle.sweep_core.specs.internal.Walk.{rows_from};

    ghost Value = { List Config };

    ghost view = { λ c. run_of c.space.powers c.next c.left ++ rows_from c.space c.after c.pair };

    ghost invariant = { λ c. ways_after c.space.powers c.next.assoc c.left ≤ 2 ^ 63 };
}

impl Iterator for Configs {
    type Item = Config;

    ghost next_gives = { YieldsFirst (λ c. c) };

    ghost remaining = { item_count (λ c. c) };

    fn next(&mut self) -> Option<Config> {
        if self.left == 0 {
            let rows = self.space.next_pair(self.after, &mut self.pair)?;
            self.left = rows.count;
            self.next = rows.first;
        }
        let found = self.next;
        self.left -= 1;
        self.next.assoc = self.space.next_ways(found.assoc);
        Some(found)
    }
}

/// The configurations of a pair of block size and set count, rising.
#[derive(Clone, Copy, Debug)]
pub(crate) struct PairRows {
    /// The one with the fewest lines per set.
    pub(crate) first: Config,
    /// How many there are; each has the next associativity.
    pub(crate) count: u64,
    /// The greatest associativity of the pair.
    pub(crate) depth: u64,
}

impl Space {
    ghost use Rattle.std.specs.Prelude.{◌≡◌, ◌<◌, ◌≤◌, ◌^◌, ◌&&◌, ◌||◌, [], ℕ, not, true};
    ghost use Rattle.std.specs.Prelude.{Option, MatchOption, IfSome, None};
    ghost use Rattle.sweep_core.specs.Space.{is_valid, is_in_range, config, space_fault};
    ghost use Rattle.cache_core.specs.Powers.{is_power};
    ghost use Rattle.sweep_core.specs.Table.{table};
    ghost use Rattle.sweep_core.specs.internal.Runs.{next_ways, ways_after, BeginsWith};
    ghost use Rattle.sweep_core.specs.internal.Walk.{rows_from, rows_of_pair, HasDepth, HasRows};

    /// Its configurations that are greater than `after`, which may be any triple, rising; without
    /// it, all.
    pub fn configs(&self, after: Option<Config>) -> Configs
        ensures table { result ≡ table self.now after }
        ensures limits { space_fault self.now ≡ None }
    {
        Configs {
            space: *self,
            after,
            left: 0,
            next: Config {
                bsize: 1,
                sets: 1,
                assoc: 1,
            },
            pair: self.first_pair(after),
        }
    }

    /// The index of the first pair in its ranges, or with blocks as large as those of `after`. No
    /// pair before it has a configuration greater than `after`.
    pub(crate) fn first_pair(&self, after: Option<Config>) -> u32
        ensures rows { rows_from self.now after result ≡ table self.now after }
        ensures limits { space_fault self.now ≡ None }
    {
        let least = match after {
            None => self.bsize.0,
            Some(config) => config.bsize.max(self.bsize.0),
        };
        pair_index(least, self.sets.0)
    }

    /// The index of the last pair in its ranges.
    fn last_pair(&self) -> u32
        ensures few { result < 441 }
        ensures last { (after : Option Config) (k : ℕ) → result < k →
            rows_from self.now after k ≡ [] }
    {
        pair_index(self.bsize.1, self.sets.1)
    }

    /// Takes the next pair that has a configuration greater than `after`, from the pair with the
    /// index `pair` on: returns those of its configurations.
    pub(crate) fn next_pair(&self, after: Option<Config>, pair: &mut u32) -> Option<PairRows>
        ensures rows { MatchOption result
            ((rows_from self.now after pair.old ≡ []) × (rows_from self.now after pair.new ≡ []))
            (λ rows. BeginsWith self.now.powers (rows_from self.now after pair.old)
            (rows.first, rows.count) (rows_from self.now after pair.new)) }
        ensures depth { IfSome result (λ rows. HasDepth self.now rows.first rows.depth) }
        ensures fits { IfSome result (λ rows.
            ways_after self.now.powers rows.first.assoc rows.count ≤ 2 ^ 63) }
        ensures limits { space_fault self.now ≡ None }
    {
        let (_, most_sets) = self.sets;
        let last = self.last_pair();
        while *pair <= last {
            let bsize = power(*pair / POWERS);
            let set_bits = *pair % POWERS;
            let sets = power(set_bits);
            if sets > most_sets {
                *pair += POWERS - set_bits;
                continue;
            }
            *pair += 1;
            if let Some(rows) = self.rows_of_pair(bsize, sets, after) {
                return Some(rows);
            }
        }
        None
    }

    /// Its configurations of a pair that are greater than `after`, if there are any.
    fn rows_of_pair(&self, bsize: u64, sets: u64, after: Option<Config>) -> Option<PairRows>
        requires { (is_power bsize ≡ true) × (is_power sets ≡ true) }
        ensures { MatchOption result (rows_of_pair self.now after (bsize, sets) ≡ [])
            (HasRows self.now after (bsize, sets)) }
    {
        if !is_in_range(self.bsize, bsize) || !is_in_range(self.sets, sets) {
            return None;
        }
        let least = least_after(bsize, sets, after)?;
        let (lowest, most) = self.ways_of(bsize, sets);
        let ways = ways_between(lowest.max(least), most, self.powers)?;
        Some(PairRows {
            first: Config {
                bsize,
                sets,
                assoc: ways.first,
            },
            count: ways.count,
            depth: ways.last,
        })
    }

    /// The least and the greatest associativity that the ranges and the limit on lines leave a pair
    /// in its ranges.
    fn ways_of(&self, bsize: u64, sets: u64) -> (u64, u64)
        requires block { is_in_range self.now.bsize bsize ≡ true }
        requires set { is_in_range self.now.sets sets ≡ true }
        requires powers { (is_power bsize ≡ true) × (is_power sets ≡ true) }
        ensures valid { (e : ℕ) → is_valid self.now (config bsize sets e)
            ≡ (is_in_range result e && (not self.now.powers || is_power e)) }
        ensures some { 1 ≤ result.0 }
        ensures few { result.1 < 2 ^ 17 }
    {
        let most = self.assoc.1.min(MAX_CACHE_LINES / sets);
        let way_bytes = bsize * sets;
        (
            self.assoc.0.max(self.size.0.div_ceil(way_bytes)),
            most.min(self.size.1 / way_bytes),
        )
    }

    /// The associativity after another: the next number, or the next power of two.
    pub(crate) fn next_ways(&self, ways: u64) -> u64
        requires { ways < 2 ^ 63 }
        ensures { result ≡ next_ways self.now.powers ways }
    {
        if self.powers { ways * 2 } else { ways + 1 }
    }
}

/// The index of the greatest pair whose numbers are not greater than these.
fn pair_index(bsize: u64, sets: u64) -> u32
    requires { (1 ≤ bsize) × (1 ≤ sets) }
    ensures least { (k : ℕ) → bsize ≤ (pair_at k).0 → sets ≤ (pair_at k).1 → result ≤ k }
    ensures greatest { (k : ℕ) → (pair_at k).0 ≤ bsize → (pair_at k).1 ≤ sets → k ≤ result }
{
    bsize.ilog2() * POWERS + sets.ilog2()
}

/// The least associativity with which a configuration of a pair is greater than `after`, if it is
/// so with any.
fn least_after(bsize: u64, sets: u64, after: Option<Config>) -> Option<u64>
    ensures { MatchOption result
        ((e : ℕ) → e < 2 ^ 64 → is_after after (config bsize sets e) ≡ false)
        (λ least. (e : ℕ) → is_after after (config bsize sets e) ≡ nat_le least e) }
{
    let Some(after) = after else {
        return Some(0);
    };
    if bsize < after.bsize || bsize == after.bsize && sets < after.sets {
        None
    } else if bsize == after.bsize && sets == after.sets {
        after.assoc.checked_add(1)
    } else {
        Some(0)
    }
}

/// Associativities that follow one another.
#[derive(Clone, Copy, Debug)]
struct Ways {
    first: u64,
    last: u64,
    count: u64,
}

/// The associativities from `lowest` to `most`, if there are any; with `powers`, those that are
/// powers of two.
fn ways_between(lowest: u64, most: u64, powers: bool) -> Option<Ways>
    requires some { 1 ≤ lowest }
    requires few { most < 2 ^ 17 }
    ensures { MatchOption result (NoWays lowest most powers) (AreWays lowest most powers) }
{
    if most < lowest {
        return None;
    }
    if !powers {
        return Some(Ways {
            first: lowest,
            last: most,
            count: most - lowest + 1,
        });
    }
    let first = lowest.next_power_of_two();
    let last = power(most.ilog2());
    if last < first {
        return None;
    }
    Some(Ways {
        first,
        last,
        count: bits_of(last) - bits_of(first) + 1,
    })
}

/// 2 to a power.
#[inline]
fn power(bits: u32) -> u64
    requires { bits < 64 }
    ensures { result ≡ 2 ^ bits }
{
    1 << bits
}

/// The exponent of a power of two.
pub(crate) fn bits_of(power: u64) -> u64
    ensures { result ≡ log2 power }
{
    u64::from(power.trailing_zeros())
}
