//! Fully associative caches of some lines and of twice as many.
ghost use Rattle.std.specs.Prelude.{◌≡◌, ◌≤◌, ◌*◌, IfOk, map, length};
ghost use Rattle.trace_core.specs.declared.events.Event.TheVariants as event;
ghost use Rattle.cache_core.specs.Geometry.{IsGeometry, geometry_value};
ghost use Rattle.cache_core.specs.Windows.{counts};

use cache_core::Counts;
use cache_laws::more_ways_miss_no_more;
use profile_core::laws::stands_after;
use profile_core::{MAX_REFERENCES, Profile};
use std::alloc::{AllocError, Global};
use trace_core::Ref;

/// The counts of fully associative LRU caches of `e` lines of `2^b` bytes and of twice as many,
/// over a trace. Twice the lines never miss more.
pub fn counts_at_double(
    alloc: Global,
    b: u64,
    e: u64,
    refs: &[Ref],
) -> Result<(Counts, Counts), AllocError>
    requires some { 1 ≤ e }
    requires geometry { IsGeometry (geometry_value 0 (e * 2) b) }
    requires few { length refs.now ≤ MAX_REFERENCES }
    ensures small { IfOk result (λ c.
        c.0 ≡ counts (geometry_value 0 e b) (map event.Reference refs.now)) }
    ensures large { IfOk result (λ c.
        c.1 ≡ counts (geometry_value 0 (e * 2) b) (map event.Reference refs.now)) }
    ensures misses { IfOk result (λ c. c.1.misses ≤ c.0.misses) }
{
    stands_after();
    more_ways_miss_no_more();
    let mut profile = Profile::new(alloc, b, 0, e * 2)?;
    for reference in refs {
        profile.feed(reference.addr);
    }
    Ok((profile.counts(e), profile.counts(e * 2)))
}
