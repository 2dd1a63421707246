//! The cache that moves the fewest bytes of those that fit into a size, from a full sweep.
ghost use Rattle.std.specs.Prelude.{◌≡◌, ◌≤◌, IfOk, IfSome, MatchOption, true, nat_lt};
ghost use Rattle.std.specs.List.{AllByRecursion};
ghost use Rattle.trace_core.specs.Reading.{events};
ghost use Rattle.sweep_core.specs.Space.{largest_block};
ghost use Rattle.sweep_core.specs.FullRows.{full_counted_rows};
ghost use Rattle.sweep_core.specs.SweepText.{rows_of};
ghost use Rattle.callers.specs.Traffic.{traffic_of, HasLeastTrafficIfAny};

use full_profile::FullCounts;
use std::alloc::Global;
use sweep_core::laws::{configs_are_geometries, log2_is, table_is};
use sweep_core::{Config, FullSweepCounts, Request, SweepFault};
use trace_core::{MAX_LINES, Source};

/// The row of the caches of a request, of at most `size` bytes each, that moves the fewest bytes
/// over a trace, if one fits. The trace is read once, whatever the number of caches.
pub fn least_traffic_of_trace<S: Source>(
    alloc: Global,
    request: &Request,
    source: &mut S,
    size: u64,
) -> Result<Option<(Config, FullCounts)>, SweepFault>
    requires some { 1 ≤ request.now.max_lines }
    requires lines { request.now.max_lines ≤ MAX_LINES }
    ensures { IfOk result (λ found. IfSome (S.view source.old).remaining (λ text.
        HasLeastTrafficIfAny size (full_counted_rows
        (events request.now.format request.now.kind text) (rows_of request.now)) found)) }
{
    table_is();
    configs_are_geometries();
    log2_is();
    // Its contract says that the space is within the limits.
    let _ = request.space.configs(request.after);
    let counts = FullSweepCounts::read(alloc, request, source)?;
    Ok(least_traffic(&counts, size))
}

/// The row of the caches of at most `size` bytes that moves the fewest bytes, if one fits. A cache
/// moves a block for each miss and for each copyback.
pub fn least_traffic(counts: &FullSweepCounts, size: u64) -> Option<(Config, FullCounts)>
    requires { AllByRecursion (λ row. row.0.bsize ≤ largest_block) counts.now.rows }
    ensures { HasLeastTrafficIfAny size counts.now.rows result }
{
    let mut best: Option<(Config, FullCounts)> = None;
    for row in counts.rows() {
        if row.0.bytes() <= size && moves_less(&row, &best) {
            best = Some(row);
        }
    }
    best
}

/// Whether a cache moves fewer bytes than the best so far, or is the first.
fn moves_less(row: &(Config, FullCounts), best: &Option<(Config, FullCounts)>) -> bool
    requires row { row.now.0.bsize ≤ largest_block }
    requires best { IfSome best.now (λ best. best.0.bsize ≤ largest_block) }
    ensures { MatchOption best.now (result ≡ true)
        (λ best. result ≡ nat_lt (traffic_of row.now) (traffic_of best)) }
{
    match best {
        Some(best) => traffic(row) < traffic(best),
        None => true,
    }
}

/// The bytes that a cache moves. A sum of two counts is less than 2^65 and a block has at most 2^20
/// bytes, so their product fits in 128 bits.
fn traffic(row: &(Config, FullCounts)) -> u128
    requires { row.now.0.bsize ≤ largest_block }
    ensures { result ≡ traffic_of row.now }
{
    let (config, counts) = row;
    let blocks = u128::from(counts.misses) + u128::from(counts.copybacks);
    blocks * u128::from(config.bsize)
}
