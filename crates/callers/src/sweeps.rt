//! A sweep in memory.
ghost use Rattle.std.specs.Prelude.{◌≡◌, ◌≤◌, ◌<◌, None, Some, IfOk};
ghost use Rattle.trace_core.specs.Reading.{first_fault};
ghost use Rattle.sweep_core.specs.SweepText.{sweep_text};

use std::alloc::Global;
use sweep_core::sweep::sweep;
use sweep_core::{Request, SweepFault};
use trace_core::devices::{ArraySink, TapeSource};
use trace_core::{MAX_LINES, Sink};

/// The table of a trace in memory, in an array: all that a sweep of the text writes.
pub fn sweep_in_memory(
    alloc: Global,
    request: &Request,
    text: &[u8],
) -> Result<ArraySink, SweepFault>
    requires some { 1 ≤ request.now.max_lines }
    requires most { request.now.max_lines ≤ MAX_LINES }
    ensures table { IfOk result (λ sink. (⟦<ArraySink as Sink>⟧.view sink).written
        ≡ Some (sweep_text request.now text.now)) }
    ensures faultless { IfOk result (λ _.
        first_fault request.now.format request.now.max_lines text.now ≡ None) }
{
    let mut source = TapeSource::new(text, usize::MAX, 0);
    let mut sink = ArraySink::new(usize::MAX, 0);
    sweep(alloc, request, &mut source, &mut sink)?;
    Ok(sink)
}
