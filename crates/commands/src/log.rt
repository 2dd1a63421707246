//! The command `log`.
ghost use Rattle.std.specs.Prelude.{◌≡◌, ◌≤◌, ◌<◌, ◌+◌, ◌++◌, ◌∷◌, [], ℕ, List};
ghost use Rattle.trace_core.specs.declared.events.Event.{Event};
ghost use Rattle.trace_core.specs.declared.events.Event.TheVariants as event;
ghost use Rattle.trace_core.specs.Events.{events_of};
ghost use Rattle.trace_core.specs.Task.{Performs};
ghost use Rattle.cache_core.specs.declared.system.TheConstants.{MAX_STEPS};
ghost use Rattle.cache_core.specs.system.Arrivals.{arrivals_from, arrivals_of, Saw};
ghost use Rattle.cache_core.specs.system.Plans.{PlannedCaches, IsPlan};
ghost use Rattle.cache_core.specs.system.SystemStands.{SystemStandsFor};
ghost use Rattle.commands.specs.LogText.{arrival_lines, log_task};

use crate::log_text::LogText;
use crate::text::write_last;
use cache_core::{MAX_ARRIVALS, Observer, Plan, System};
use std::alloc::Global;
use trace_core::{
    Ahead, Entry, Format, Kind, Lines, MAX_LINES, Ref, RunFault, Sink, Source, refs_of, write_all,
};

/// Runs a trace through the caches of a plan, and writes the lines of the arrivals of each entry as
/// soon as its references were made; after the last one the sink is flushed, once. Each cache with
/// random replacement draws from a generator of its own, of this seed. All memory is taken before
/// the first read. `max_lines` is the most lines that the trace may have.
///
/// Errors: `Memory`, with nothing read or written; `Trace` if the trace has a fault or the
/// source failed, with the lines of the entries before it written; `Write` if the sink failed,
/// with what it took written, and then nothing is read on.
pub fn log<S: Source, K: Sink>(
    alloc: Global,
    plan: Plan,
    seed: u64,
    format: Format,
    max_lines: u64,
    source: &mut S,
    sink: &mut K,
) -> Result<(), RunFault>
    requires some { 1 ≤ max_lines }
    requires most { max_lines ≤ MAX_LINES }
    ensures { Performs (log_task plan seed format max_lines) result
        S.view source.old source.new K.view sink.old sink.new }
{
    let mut lines = Lines::new(alloc, format, max_lines)?;
    let mut system = System::new(alloc, plan, seed)?;
    let mut log = LogText::new();
    let mut ahead = Ahead::none();
    while let Some((_, entry)) = lines.next_ahead(&mut ahead, source)? {
        step(&mut system, entry, &mut log);
        write_all(sink, log.text.as_slice())?;
    }
    write_last(&[], sink)?;
    Ok(())
}

/// Steps the caches through an entry, all its references or a flush. The text becomes the lines of
/// its arrivals.
#[inline(always)]
fn step(system: &mut System, entry: Entry, log: &mut LogText)
    requires { system.old.steps + 2 ≤ MAX_STEPS }
    ensures { (plan : PlannedCaches) (seed : ℕ) (events : List Event) → IsPlan plan →
        SystemStandsFor plan seed events system.old →
        SystemStandsFor plan seed (events ++ events_of Kind.All entry) system.new
        × (log.new.text
        ≡ arrival_lines (arrivals_from plan seed events (events_of Kind.All entry))) }
{
    log.clear();
    match entry {
        Entry::Item(item) => {
            let (first, second) = refs_of(item);
            step_one(system, first, log);
            if let Some(second) = second {
                step_one(system, second, log);
            }
        }
        Entry::Flush => system.flush_observed(log),
    }
}

/// Steps the caches through a reference, and adds the lines of its arrivals. It is a function of
/// its own, so that the code for the rest of an entry is small enough to be inlined.
#[inline(never)]
fn step_one(system: &mut System, reference: Ref, log: &mut LogText)
    requires steps { system.old.steps < MAX_STEPS }
    requires room { MAX_ARRIVALS ≤ ⟦<LogText as Observer>⟧.room log.old }
    ensures stands { (plan : PlannedCaches) (seed : ℕ) (events : List Event) → IsPlan plan →
        SystemStandsFor plan seed events system.old →
        SystemStandsFor plan seed (events ++ event.Reference reference ∷ []) system.new }
    ensures seen { (plan : PlannedCaches) (seed : ℕ) (events : List Event) → IsPlan plan →
        SystemStandsFor plan seed events system.old → Saw ⟦<LogText as Observer>⟧.has_seen log.old
        (arrivals_of plan seed events (event.Reference reference)) log.new }
    ensures steps { system.new.steps ≡ system.old.steps + 1 }
    ensures room { ⟦<LogText as Observer>⟧.room log.old
        ≤ ⟦<LogText as Observer>⟧.room log.new + MAX_ARRIVALS }
{
    system.step_observed(reference, log);
}
