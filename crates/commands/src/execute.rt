//! How jobs are done.
ghost use Rattle.std.specs.Prelude.{◌≤◌};
ghost use Rattle.trace_core.specs.Task.{Performs};
ghost use Rattle.arguments.specs.Job.{max_lines_of};
ghost use Rattle.commands.specs.Execute.{task_of};

use crate::csim::csim;
use crate::din::din;
use crate::log::log;
use arguments::Job;
use std::alloc::Global;
use sweep_core::full::sweep_full;
use sweep_core::sweep::sweep;
use trace_core::{MAX_LINES, RunFault, Sink, Source};

/// Does a job: it returns, reads and writes what the command of that name does.
///
/// Errors: those of `csim`, `din`, `log`, `sweep` and `sweep_full`. The comparisons that the sweeps
/// return are dropped.
pub fn execute<S: Source, K: Sink>(
    alloc: Global,
    job: &Job,
    source: &mut S,
    sink: &mut K,
) -> Result<(), RunFault>
    requires some { 1 ≤ max_lines_of job.now }
    requires most { max_lines_of job.now ≤ MAX_LINES }
    ensures { Performs (task_of job.now) result
        S.view source.old source.new K.view sink.old sink.new }
{
    match *job {
        Job::Csim {
            geometry,
            verbose,
            max_lines,
        } => csim(alloc, geometry, verbose, max_lines, source, sink),
        Job::Din {
            plan,
            seed,
            format,
            max_lines,
        } => din(alloc, plan, seed, format, max_lines, source, sink),
        Job::Log {
            plan,
            seed,
            format,
            max_lines,
        } => log(alloc, plan, seed, format, max_lines, source, sink),
        Job::Sweep { request } => {
            sweep(alloc, &request, source, sink)?;
            Ok(())
        }
        Job::FullSweep { request } => {
            sweep_full(alloc, &request, source, sink)?;
            Ok(())
        }
    }
}
