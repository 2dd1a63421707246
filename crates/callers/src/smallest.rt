//! The smallest cache that misses at most so often, from the rows of a sweep.
ghost use Rattle.std.specs.Prelude.{◌≡◌, ◌≤◌, IfOk, IfSome, MatchOption, true, nat_lt};
ghost use Rattle.std.specs.List.{AllByRecursion};
ghost use Rattle.trace_core.specs.Reading.{events};
ghost use Rattle.sweep_core.specs.Space.{HasSize, bytes_of};
ghost use Rattle.sweep_core.specs.Rows.{counted_rows};
ghost use Rattle.sweep_core.specs.SweepText.{rows_of};
ghost use Rattle.callers.specs.Smallest.{IsSmallestIfAny};

use std::alloc::Global;
use sweep_core::{Config, Request, Rows, SweepCounts, SweepFault};
use trace_core::{MAX_LINES, Source};

/// The smallest of the caches of a request that misses at most `most` of the references of a trace,
/// if one does. The trace is read once, whatever the number of caches.
pub fn smallest_within<S: Source>(
    alloc: Global,
    request: &Request,
    source: &mut S,
    most: u64,
) -> Result<Option<Config>, SweepFault>
    requires some { 1 ≤ request.now.max_lines }
    requires lines { request.now.max_lines ≤ MAX_LINES }
    ensures { IfOk result (λ found. IfSome (S.view source.old).remaining (λ text.
        IsSmallestIfAny most (counted_rows (events request.now.format request.now.kind text)
        (rows_of request.now)) found)) }
{
    let counts = SweepCounts::read(alloc, request, source)?;
    Ok(smallest_of(counts.rows(), most))
}

/// The smallest cache of some rows that misses at most `most` references.
fn smallest_of(rows: Rows, most: u64) -> Option<Config>
    requires { AllByRecursion (λ row. HasSize row.0) rows }
    ensures { IsSmallestIfAny most rows.entry result }
{
    let mut best: Option<Config> = None;
    for (config, counts) in rows {
        if counts.misses <= most && is_smaller(&config, &best) {
            best = Some(config);
        }
    }
    best
}

/// Whether a cache is smaller than the best so far, or is the first.
fn is_smaller(config: &Config, best: &Option<Config>) -> bool
    requires config { HasSize config.now }
    requires best { IfSome best.now HasSize }
    ensures { MatchOption best.now (result ≡ true)
        (λ best. result ≡ nat_lt (bytes_of config.now) (bytes_of best)) }
{
    match best {
        Some(best) => config.bytes() < best.bytes(),
        None => true,
    }
}
