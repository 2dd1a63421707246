//! The command `din`.
ghost use Rattle.std.specs.Prelude.{◌≡◌, ◌≤◌, ◌<◌, ◌+◌, ◌∷◌, [], IfOk, MatchResult, flat_map};
ghost use Rattle.trace_core.specs.declared.events.Event.TheVariants as event;
ghost use Rattle.trace_core.specs.Events.{events_of};
ghost use Rattle.trace_core.specs.Reader.{new_progress};
ghost use Rattle.trace_core.specs.Task.{HasRead, Performs};
ghost use Rattle.cache_core.specs.declared.system.TheConstants.{MAX_STEPS};
ghost use Rattle.cache_core.specs.system.SystemSteps.{SystemValue, stats_of};
ghost use Rattle.commands.specs.internal.DinPass.{AddsEvents};
ghost use Rattle.commands.specs.DinText.{din_task};

use crate::din_text::set_report;
use crate::text::write_last;
use cache_core::{Plan, Stats, System};
use std::alloc::Global;
use trace_core::text::Text;
use trace_core::{
    Ahead, Entry, Format, Kind, Lines, MAX_LINES, ReaderState, Ref, RunFault, Sink, Source,
    TraceFault, refs_of,
};

/// Runs a trace through the caches of a plan, and writes the report after its end; then the sink is
/// flushed, once. Each cache with random replacement draws from a generator of its own, of this
/// seed. All memory is taken before the first read. `max_lines` is the most lines that the trace
/// may have.
///
/// Errors: `Memory`, with nothing read or written; `Trace` if the trace has a fault or the
/// source failed, with nothing written; `Write` if the sink failed, with what it took written.
pub fn din<S: Source, K: Sink>(
    alloc: Global,
    plan: Plan,
    seed: u64,
    format: Format,
    max_lines: u64,
    source: &mut S,
    sink: &mut K,
) -> Result<(), RunFault>
    requires some { 1 ≤ max_lines }
    requires most { max_lines ≤ MAX_LINES }
    ensures { Performs (din_task plan seed format max_lines) result
        S.view source.old source.new K.view sink.old sink.new }
{
    let mut lines = Lines::new(alloc, format, max_lines)?;
    let system = System::new(alloc, plan, seed)?;
    let stats = stats_of_trace(system, &mut lines, source)?;
    let mut text = Text::new();
    set_report(&mut text, &stats);
    write_last(text.as_slice(), sink)?;
    Ok(())
}

/// Steps a new system through a trace, and returns what it counted.
fn stats_of_trace<S: Source>(
    mut system: System,
    lines: &mut Lines,
    source: &mut S,
) -> Result<Stats, TraceFault>
    requires begun { lines.old ≡ new_progress lines.old.format lines.old.limit }
    requires new { system.steps ≡ 0 }
    ensures stepped { (end : SystemValue) × HasRead lines.old.format lines.old.limit
        (S.view source.old) (S.view source.new) lines.new
        (λ es. AddsEvents system (flat_map (events_of Kind.All) es) end)
        × IfOk result (λ stats. stats ≡ stats_of end) }
    ensures reports { MatchResult result (λ _. lines.new.state ≡ ReaderState.Ended)
        (λ fault. lines.new.state ≡ ReaderState.Failed fault) }
{
    let mut ahead = Ahead::none();
    while let Some((_, entry)) = lines.next_ahead(&mut ahead, source)? {
        step(&mut system, entry);
    }
    Ok(system.stats())
}

/// Steps the caches through an entry, all its references or a flush.
#[inline(always)]
fn step(system: &mut System, entry: Entry)
    requires { system.old.steps + 2 ≤ MAX_STEPS }
    ensures stands { AddsEvents system.old (events_of Kind.All entry) system.new }
    ensures steps { system.new.steps ≤ system.old.steps + 2 }
{
    match entry {
        Entry::Item(item) => {
            let (first, second) = refs_of(item);
            system.step(first);
            if let Some(second) = second {
                step_second(system, second);
            }
        }
        Entry::Flush => system.flush(),
    }
}

/// Steps the caches through the second reference of an entry. Few entries have one: it is a
/// function of its own, so that the code for the others is small enough to be inlined.
#[inline(never)]
fn step_second(system: &mut System, reference: Ref)
    requires { system.old.steps < MAX_STEPS }
    ensures stands { AddsEvents system.old (event.Reference reference ∷ []) system.new }
    ensures steps { system.new.steps ≡ system.old.steps + 1 }
{
    system.step(reference);
}
