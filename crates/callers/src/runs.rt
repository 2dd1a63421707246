//! Commands in memory.
ghost use Rattle.std.specs.Prelude.{◌≡◌, ◌≤◌, true, Some, IfOk};
ghost use Rattle.arguments.specs.Job.{max_lines_of};
ghost use Rattle.commands.specs.CsimText.{csim_text};
ghost use Rattle.commands.specs.Execute.{task_of};

use arguments::Job;
use cache_core::Geometry;
use commands::csim::csim;
use commands::execute::execute;
use std::alloc::Global;
use trace_core::devices::{ArraySink, TapeSource};
use trace_core::{MAX_LINES, RunFault, Sink};

/// All that `csim -v` writes of a trace in memory, in an array.
pub fn csim_in_memory(alloc: Global, geometry: Geometry, text: &[u8]) -> Result<ArraySink, RunFault>
    ensures { IfOk result (λ sink. (⟦<ArraySink as Sink>⟧.view sink).written
        ≡ Some (csim_text geometry true text.now)) }
{
    let mut source = TapeSource::new(text, usize::MAX, 0);
    let mut sink = ArraySink::new(usize::MAX, 0);
    csim(alloc, geometry, true, MAX_LINES, &mut source, &mut sink)?;
    Ok(sink)
}

/// All that a job writes of a trace in memory, in an array.
pub fn job_in_memory(alloc: Global, job: &Job, text: &[u8]) -> Result<ArraySink, RunFault>
    requires some { 1 ≤ max_lines_of job.now }
    requires most { max_lines_of job.now ≤ MAX_LINES }
    ensures { IfOk result (λ sink. (⟦<ArraySink as Sink>⟧.view sink).written
        ≡ Some ((task_of job.now).whole text.now)) }
{
    let mut source = TapeSource::new(text, usize::MAX, 0);
    let mut sink = ArraySink::new(usize::MAX, 0);
    execute(alloc, job, &mut source, &mut sink)?;
    Ok(sink)
}
