//! The options of `sweep`.
ghost use Rattle.std.specs.Prelude.{◌≡◌, IfOk, Some};
ghost use Rattle.arguments.specs.Faults.{job_result};
ghost use Rattle.arguments.specs.Job.{max_lines_of};
ghost use Rattle.arguments.specs.Readings.{rows_given};
ghost use Rattle.arguments.specs.SweepJob.{page_of, ranges_of, sweep_of, trace_of};

use crate::faults::WordsFault;
use crate::job::Job;
use crate::readings::{config_at, format_at, is_flagged, kind_at, optional_number_at, range_at};
use clap::ArgMatches;
use options::table::{AFTER, ASSOC, BSIZE, FORMAT, FULL, KIND, POW2, ROWS, SETS, SIZE};
use sweep_core::{Config, Request, Space};
use trace_core::{Format, Kind, MAX_LINES};

/// A lowest and a greatest value.
type Range = (u64, u64);

/// The job of `sweep`.
pub fn sweep_job(matches: &ArgMatches<'_>) -> Result<Job, WordsFault>
    ensures job { job_result result ≡ Some (sweep_of (rows_given matches.now)) }
    ensures limit { IfOk result (λ job. max_lines_of job ≡ MAX_LINES) }
{
    let (bsize, sets, assoc, size) = ranges_at(matches)?;
    let (kind, format) = trace_at(matches)?;
    let (after, rows) = page_at(matches)?;
    let powers = is_flagged(matches, POW2.name);
    let space = Space::new(bsize, sets, assoc, size, powers)?;
    let request = Request {
        space,
        kind,
        format,
        after,
        rows,
        max_lines: MAX_LINES,
    };
    if is_flagged(matches, FULL.name) {
        Ok(Job::FullSweep { request })
    } else {
        Ok(Job::Sweep { request })
    }
}

/// The ranges of block sizes, set counts, associativities and sizes.
fn ranges_at(matches: &ArgMatches<'_>) -> Result<(Range, Range, Range, Range), WordsFault>
    ensures { job_result result ≡ Some (ranges_of (rows_given matches.now)) }
{
    let bsize = range_at(matches, BSIZE.name)?;
    let sets = range_at(matches, SETS.name)?;
    let assoc = range_at(matches, ASSOC.name)?;
    let size = range_at(matches, SIZE.name)?;
    Ok((bsize, sets, assoc, size))
}

/// The references that count, and the format of the trace.
fn trace_at(matches: &ArgMatches<'_>) -> Result<(Kind, Format), WordsFault>
    ensures { job_result result ≡ Some (trace_of (rows_given matches.now)) }
{
    let kind = kind_at(matches, KIND.name)?;
    let format = format_at(matches, FORMAT.name)?;
    Ok((kind, format))
}

/// After which row a page of the table begins, and how many it may have.
fn page_at(matches: &ArgMatches<'_>) -> Result<(Option<Config>, Option<u64>), WordsFault>
    ensures { job_result result ≡ Some (page_of (rows_given matches.now)) }
{
    let after = config_at(matches, AFTER.name)?;
    let rows = optional_number_at(matches, ROWS.name)?;
    Ok((after, rows))
}
