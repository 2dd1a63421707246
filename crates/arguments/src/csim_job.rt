//! The options of `csim`.
ghost use Rattle.std.specs.Prelude.{◌≡◌, IfOk, Some};
ghost use Rattle.arguments.specs.CsimJob.{csim_of};
ghost use Rattle.arguments.specs.Faults.{job_result};
ghost use Rattle.arguments.specs.Job.{max_lines_of};
ghost use Rattle.arguments.specs.Readings.{rows_given};

use crate::faults::WordsFault;
use crate::job::Job;
use crate::readings::{is_flagged, number_at};
use cache_core::Geometry;
use clap::ArgMatches;
use options::table::{BLOCK_BITS, LINES, SET_BITS, VERBOSE};
use trace_core::MAX_LINES;

/// The job of `csim`.
pub fn csim_job(matches: &ArgMatches<'_>) -> Result<Job, WordsFault>
    ensures job { job_result result ≡ Some (csim_of (rows_given matches.now)) }
    ensures limit { IfOk result (λ job. max_lines_of job ≡ MAX_LINES) }
{
    let s = number_at(matches, SET_BITS.name)?;
    let e = number_at(matches, LINES.name)?;
    let b = number_at(matches, BLOCK_BITS.name)?;
    let verbose = is_flagged(matches, VERBOSE.name);
    match Geometry::new(s, e, b) {
        Some(geometry) => Ok(Job::Csim {
            geometry,
            verbose,
            max_lines: MAX_LINES,
        }),
        None => Err(WordsFault::BadShape),
    }
}
