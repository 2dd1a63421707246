//! What a profile counts: of its references, of their comparisons, and of the LRU caches of each
//! associativity up to its depth.
ghost use Rattle.std.specs.Prelude.{◌≡◌, ◌-◌, ◌*◌, ◌^◌, ◌<◌, ◌≤◌, List, length, take, drop, sum};
ghost use Rattle.trace_core.specs.declared.events.Event.{Event};
ghost use Rattle.cache_core.specs.Windows.{occurrences, counts, probes};
ghost use Rattle.profile_core.specs.profile.State.{fed_of, counts_at, hit_sums_at};
ghost use Rattle.profile_core.specs.profile.ProfileStandsFor.{ProfileStandsFor};
ghost use Rattle.profile_core.specs.internal.profile.StackProfile.{weighed, compared};

use crate::profile::Profile;
use crate::profile::histograms::Histograms;
use crate::profile::hit_sums::HitSums;
use cache_core::Counts;

impl Profile {
    /// How many references were fed. It goes over the histograms, `2 * depth` numbers, so it should
    /// not be called for each reference.
    pub fn fed(&self) -> u64
        ensures value { result ≡ fed_of self.now }
        ensures trace { (es : List Event) → ProfileStandsFor es self.now
            → result ≡ length (occurrences self.now.geometry es) }
    {
        let histograms = self.histograms();
        total(&histograms.distances) + total(&histograms.misses_by_occupancy)
    }

    /// The number of comparisons counted. Each reference counts the comparisons of its block with
    /// the entries of its set's list in a walk up to the block, or over the whole list if the block
    /// isn't there. This is the cost of the stack algorithm, by which spaces can be compared. The
    /// profile makes as many comparisons or fewer, though no contract says so: for a reference that
    /// `count_fronts` counts, one is counted and none is made; and with 12 to 16 ways and up to
    /// 4,096 sets, or with 256 ways or more, most blocks are found without a walk. It goes over the
    /// histograms, as `fed` does.
    pub fn probes(&self) -> u64
        ensures value { result ≡ self.now.probes }
        ensures trace { (es : List Event) → ProfileStandsFor es self.now
            → result ≡ probes self.now.geometry es }
        ensures at_most { result ≤ fed_of self.now * self.now.geometry.e }
    {
        comparisons(self.histograms())
    }

    /// The counts of an LRU cache of `e` lines per set, over all references fed. It goes over both
    /// histograms up to twice. For many associativities of one profile, `counts_next` takes less
    /// time.
    pub fn counts(&self, e: u64) -> Counts
        requires some { 1 ≤ e }
        requires within { e ≤ self.now.geometry.e }
        ensures value { result ≡ counts_at self.now e }
        ensures trace { (es : List Event) → ProfileStandsFor es self.now
            → result ≡ counts (record self.now.geometry { e = e }) es }
    {
        let mut sums = self.begin_sums();
        self.counts_next(&mut sums, e)
    }

    /// The sums at associativity 0, with which `counts_next` begins. It takes as long as `fed`.
    pub fn begin_sums(&self) -> HitSums
        ensures { result ≡ hit_sums_at self.now 0 }
    {
        HitSums {
            ways: 0,
            hits: 0,
            free_misses: 0,
            fed: self.fed(),
        }
    }

    /// Returns the same as `counts`, from sums that `begin_sums` of this profile began. The sums
    /// are raised to `e` lines per set, so `e` may only rise from call to call, and nothing may be
    /// fed in between. A call adds only the numbers of the histograms between the two
    /// associativities. All calls for the same sums, with `begin_sums`, cost about `4 * depth`
    /// additions.
    pub fn counts_next(&self, sums: &mut HitSums, e: u64) -> Counts
        requires some { 1 ≤ e }
        requires within { e ≤ self.now.geometry.e }
        requires of_this { sums.old ≡ hit_sums_at self.now sums.old.ways }
        requires rising { sums.old.ways ≤ e }
        ensures value { result ≡ counts_at self.now e }
        ensures trace { (es : List Event) → ProfileStandsFor es self.now
            → result ≡ counts (record self.now.geometry { e = e }) es }
        ensures sums { sums.new ≡ hit_sums_at self.now e }
    {
        let from = sums.ways;
        let to = e as usize;
        let histograms = self.histograms();
        let hits = total(&histograms.distances[from..to]);
        let free = total(&histograms.misses_by_occupancy[from..to]);
        sums.ways = to;
        sums.hits += hits;
        sums.free_misses += free;
        let misses = sums.fed - sums.hits;
        Counts {
            hits: sums.hits,
            misses,
            evictions: misses - sums.free_misses,
        }
    }
}

/// The comparisons of all references: `d + 1` of each that was found at distance `d`, and `n` of
/// each that was not found in a list of `n` blocks.
fn comparisons(histograms: &Histograms) -> u64
    requires { compared histograms.now.distances.items histograms.now.misses_by_occupancy.items
        < 2 ^ 64 }
    ensures { result
        ≡ compared histograms.now.distances.items histograms.now.misses_by_occupancy.items }
{
    let found = total(&histograms.distances) + weighed(&histograms.distances);
    found + weighed(&histograms.misses_by_occupancy)
}

/// The sum of a part of a histogram.
fn total(numbers: &[u64]) -> u64
    requires { sum numbers.now < 2 ^ 64 }
    ensures { result ≡ sum numbers.now }
{
    numbers.iter().sum()
}

/// The sum of a histogram's numbers, each times its index.
fn weighed(numbers: &[u64]) -> u64
    requires { weighed 0 numbers.now < 2 ^ 64 }
    ensures { result ≡ weighed 0 numbers.now }
{
    let mut sum = 0;
    for (index, number) in numbers.iter().enumerate() {
        sum += *number * index as u64;
    }
    sum
}
