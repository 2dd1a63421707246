//! One profile for many associativities.
ghost use Rattle.std.specs.Prelude.{◌≡◌, ◌≤◌, ◌+◌};
ghost use Rattle.profile_core.specs.profile.State.{counts_at};

use cache_core::Counts;
use profile_core::Profile;
use profile_core::laws::more_ways_miss_no_more;

/// The counts of a profile's references at two associativities. A cache with more lines in each set
/// hits at least as often, and misses and evicts no more (inclusion: Mattson and others 1970).
pub fn counts_at_two(profile: &Profile, few: u64, many: u64) -> (Counts, Counts)
    requires some { 1 ≤ few }
    requires more { few ≤ many }
    requires within { many ≤ profile.now.geometry.e }
    ensures few { result.0 ≡ counts_at profile.now few }
    ensures many { result.1 ≡ counts_at profile.now many }
    ensures hits { result.0.hits ≤ result.1.hits }
    ensures misses { result.1.misses ≤ result.0.misses }
    ensures evictions { result.1.evictions ≤ result.0.evictions }
    ensures all { result.0.hits + result.0.misses ≡ result.1.hits + result.1.misses }
{
    more_ways_miss_no_more();
    (profile.counts(few), profile.counts(many))
}
