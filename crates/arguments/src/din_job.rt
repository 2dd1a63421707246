//! The options of `din` and `log`.
ghost use Rattle.std.specs.Prelude.{◌≡◌, IfOk, Some};
ghost use Rattle.arguments.specs.DinJob.{cache_of, caches_given, din_of, log_of, options_given};
ghost use Rattle.arguments.specs.DinJob.{plan_given, power_of, reading_of};
ghost use Rattle.arguments.specs.DinJob.{size_asked, size_of_sets, spec_asked};
ghost use Rattle.arguments.specs.DinJob.{repl_named, walloc_named, wback_named};
ghost use Rattle.arguments.specs.Faults.{job_result};
ghost use Rattle.arguments.specs.Job.{max_lines_of};
ghost use Rattle.arguments.specs.Readings.{optional_value, rows_given};

use crate::faults::WordsFault;
use crate::job::Job;
use crate::numbers::read_scaled;
use crate::readings::{format_at, optional_number_at, text_at};
use cache_core::powers::is_power;
use cache_core::{AllocMode, CacheName, CacheSpec, FirstLevel, Plan, Repl, WriteMode};
use clap::ArgMatches;
use options::caches::cache_options;
use options::table::{INFORMAT, SEED};
use trace_core::{Format, MAX_LINES};

/// The values of the options of one cache that were given.
#[derive(Clone, Copy)]
pub struct CacheReading {
    size: Option<u64>,
    sets: Option<u64>,
    bsize: Option<u64>,
    assoc: Option<u64>,
    repl: Option<Repl>,
    walloc: Option<AllocMode>,
    wback: Option<WriteMode>,
}

/// The values of the options of the four caches.
#[derive(Clone, Copy)]
pub struct CacheReadings {
    i: CacheReading,
    d: CacheReading,
    u: CacheReading,
    second: CacheReading,
}

/// The job of `din`.
pub fn din_job(matches: &ArgMatches<'_>) -> Result<Job, WordsFault>
    ensures job { job_result result ≡ Some (din_of (rows_given matches.now)) }
    ensures limit { IfOk result (λ job. max_lines_of job ≡ MAX_LINES) }
{
    let (plan, seed, format) = options_given(matches)?;
    Ok(Job::Din {
        plan,
        seed,
        format,
        max_lines: MAX_LINES,
    })
}

/// The job of `log`.
pub fn log_job(matches: &ArgMatches<'_>) -> Result<Job, WordsFault>
    ensures job { job_result result ≡ Some (log_of (rows_given matches.now)) }
    ensures limit { IfOk result (λ job. max_lines_of job ≡ MAX_LINES) }
{
    let (plan, seed, format) = options_given(matches)?;
    Ok(Job::Log {
        plan,
        seed,
        format,
        max_lines: MAX_LINES,
    })
}

/// The plan, the seed of random replacement, and the format of the trace.
fn options_given(matches: &ArgMatches<'_>) -> Result<(Plan, u64, Format), WordsFault>
    ensures { job_result result ≡ Some (options_given (rows_given matches.now)) }
{
    let caches = caches_given(matches)?;
    let format = format_at(matches, INFORMAT.name)?;
    let seed = optional_number_at(matches, SEED.name)?.unwrap_or(42);
    let plan = plan_given(&caches)?;
    Ok((plan, seed, format))
}

/// Reads the options of the four caches.
fn caches_given(matches: &ArgMatches<'_>) -> Result<CacheReadings, WordsFault>
    ensures { job_result result ≡ Some (caches_given (rows_given matches.now)) }
{
    let i = read_cache(matches, CacheName::L1I)?;
    let d = read_cache(matches, CacheName::L1D)?;
    let u = read_cache(matches, CacheName::L1U)?;
    let second = read_cache(matches, CacheName::L2U)?;
    Ok(CacheReadings { i, d, u, second })
}

/// The plan for these values of the four caches.
fn plan_given(caches: &CacheReadings) -> Result<Plan, WordsFault>
    ensures { job_result result ≡ Some (plan_given caches.now) }
{
    let first = FirstLevel {
        i: complete(CacheName::L1I, &caches.i)?,
        d: complete(CacheName::L1D, &caches.d)?,
        u: complete(CacheName::L1U, &caches.u)?,
    };
    let second = complete(CacheName::L2U, &caches.second)?;
    Ok(Plan::new(first, second)?)
}

/// Reads the seven options of a cache.
fn read_cache(matches: &ArgMatches<'_>, cache: CacheName) -> Result<CacheReading, WordsFault>
    ensures { job_result result ≡ Some (reading_of cache (rows_given matches.now)) }
{
    let options = cache_options(cache);
    Ok(CacheReading {
        size: power_at(matches, options.size.name)?,
        sets: power_at(matches, options.sets.name)?,
        bsize: power_at(matches, options.bsize.name)?,
        assoc: optional_number_at(matches, options.assoc.name)?,
        repl: repl_at(matches, options.repl.name)?,
        walloc: walloc_at(matches, options.walloc.name)?,
        wback: wback_at(matches, options.wback.name)?,
    })
}

/// The cache, if one of its options was given.
fn complete(cache: CacheName, reading: &CacheReading) -> Result<Option<CacheSpec>, WordsFault>
    ensures { job_result result ≡ Some (cache_of cache reading.now) }
{
    match reading {
        CacheReading {
            size: None,
            sets: None,
            bsize: None,
            assoc: None,
            repl: None,
            walloc: None,
            wback: None,
        } => Ok(None),
        _ => match spec_asked(reading) {
            Some(spec) => Ok(Some(spec)),
            None => Err(WordsFault::Incomplete { cache }),
        },
    }
}

/// The cache with its defaults. `None` without a block size, or without both a size and sets.
fn spec_asked(reading: &CacheReading) -> Option<CacheSpec>
    ensures { result ≡ spec_asked reading.now }
{
    let bsize = reading.bsize?;
    let assoc = reading.assoc.unwrap_or(1);
    let size = size_asked(reading.size, reading.sets, bsize, assoc)?;
    Some(CacheSpec {
        size,
        bsize,
        assoc,
        repl: reading.repl.unwrap_or(Repl::Lru),
        wback: reading.wback.unwrap_or(WriteMode::Back),
        walloc: reading.walloc.unwrap_or(AllocMode::Always),
    })
}

/// The size that was given, or that of the sets; 0 where both are given and differ. No cache has
/// this size, so `Plan::new` refuses it as a geometry, in its turn.
fn size_asked(size: Option<u64>, sets: Option<u64>, bsize: u64, assoc: u64) -> Option<u64>
    ensures { result ≡ size_asked size sets bsize assoc }
{
    let Some(sets) = sets else {
        return size;
    };
    let of_sets = size_of_sets(sets, bsize, assoc);
    match size {
        Some(size) if size != of_sets => Some(0),
        _ => Some(of_sets),
    }
}

/// The size of so many sets, blocks of this size and lines per set; 0 from 2^64 on.
fn size_of_sets(sets: u64, bsize: u64, assoc: u64) -> u64
    ensures { result ≡ size_of_sets sets bsize assoc }
{
    match sets.checked_mul(bsize) {
        Some(row) => row.checked_mul(assoc).unwrap_or(0),
        None => 0,
    }
}

/// A power of two that may be left out.
fn power_at(matches: &ArgMatches<'_>, option: &'static str) -> Result<Option<u64>, WordsFault>
    ensures { job_result result
        ≡ Some (optional_value option.entry.now power_of (rows_given matches.now)) }
{
    let Some(text) = text_at(matches, option) else {
        return Ok(None);
    };
    match read_scaled(text) {
        Some(number) if is_power(number) => Ok(Some(number)),
        _ => Err(WordsFault::Value { option }),
    }
}

/// The replacement policy, which may be left out.
fn repl_at(matches: &ArgMatches<'_>, option: &'static str) -> Result<Option<Repl>, WordsFault>
    ensures { job_result result
        ≡ Some (optional_value option.entry.now repl_named (rows_given matches.now)) }
{
    match text_at(matches, option) {
        None => Ok(None),
        Some("l") => Ok(Some(Repl::Lru)),
        Some("f") => Ok(Some(Repl::Fifo)),
        Some("r") => Ok(Some(Repl::Random)),
        Some(_) => Err(WordsFault::Value { option }),
    }
}

/// Whether a write miss allocates, which may be left out.
fn walloc_at(
    matches: &ArgMatches<'_>,
    option: &'static str,
) -> Result<Option<AllocMode>, WordsFault>
    ensures { job_result result
        ≡ Some (optional_value option.entry.now walloc_named (rows_given matches.now)) }
{
    match text_at(matches, option) {
        None => Ok(None),
        Some("a") => Ok(Some(AllocMode::Always)),
        Some("n") => Ok(Some(AllocMode::Never)),
        Some(_) => Err(WordsFault::Value { option }),
    }
}

/// Write-back or write-through, which may be left out.
fn wback_at(matches: &ArgMatches<'_>, option: &'static str) -> Result<Option<WriteMode>, WordsFault>
    ensures { job_result result
        ≡ Some (optional_value option.entry.now wback_named (rows_given matches.now)) }
{
    match text_at(matches, option) {
        None => Ok(None),
        Some("a") => Ok(Some(WriteMode::Back)),
        Some("n") => Ok(Some(WriteMode::Through)),
        Some(_) => Err(WordsFault::Value { option }),
    }
}
