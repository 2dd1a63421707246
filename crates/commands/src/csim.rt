//! The command `csim`.
ghost use Rattle.std.specs.Prelude.{◌≡◌, ◌≤◌, ◌^◌, List, ◌++◌};
ghost use Rattle.trace_core.specs.declared.events.Event.{Event};
ghost use Rattle.trace_core.specs.Events.{events_of};
ghost use Rattle.trace_core.specs.Task.{Performs};
ghost use Rattle.cache_core.specs.Geometry.{GeometryValue};
ghost use Rattle.cache_core.specs.Simulation.{SimulationCountsWithin, SimulationStandsFor};
ghost use Rattle.commands.specs.CsimText.{csim_task, lookups_of};
ghost use Rattle.commands.specs.internal.CsimPass.{lookups_found};

use crate::csim_text::{set_summary, write_line};
use crate::text::write_last;
use cache_core::{Geometry, Lookup, Simulation};
use std::alloc::Global;
use trace_core::text::Text;
use trace_core::{Ahead, Entry, Format, Kind, Lines, MAX_LINES, RunFault, Sink, Source, refs_of};

/// Runs a lackey trace through an LRU cache of this geometry, which allocates on write misses. With
/// `verbose` the line of each data item is written as soon as its references were made, and the
/// summary after the last one; then the sink is flushed, once. All memory is taken before the first
/// read. `max_lines` is the most lines that the trace may have.
///
/// Errors: `Memory`, with nothing read or written; `Trace` if the trace has a fault or the
/// source failed, with the lines before it written and no summary; `Write` if the sink failed,
/// with what it took written, and then nothing is read on.
pub fn csim<S: Source, K: Sink>(
    alloc: Global,
    geometry: Geometry,
    verbose: bool,
    max_lines: u64,
    source: &mut S,
    sink: &mut K,
) -> Result<(), RunFault>
    requires some { 1 ≤ max_lines }
    requires most { max_lines ≤ MAX_LINES }
    ensures { Performs (csim_task geometry verbose max_lines) result
        S.view source.old source.new K.view sink.old sink.new }
{
    if verbose {
        run::<S, K, true>(alloc, geometry, max_lines, source, sink)
    } else {
        run::<S, K, false>(alloc, geometry, max_lines, source, sink)
    }
}

/// Runs a trace as `csim` does. It is compiled for each `VERBOSE`, so that a loop that writes no
/// lines keeps nothing for them.
fn run<S: Source, K: Sink, const VERBOSE: bool>(
    alloc: Global,
    geometry: Geometry,
    max_lines: u64,
    source: &mut S,
    sink: &mut K,
) -> Result<(), RunFault>
    requires some { 1 ≤ max_lines }
    requires most { max_lines ≤ MAX_LINES }
    ensures { Performs (csim_task geometry VERBOSE max_lines) result
        S.view source.old source.new K.view sink.old sink.new }
{
    let mut lines = Lines::new(alloc, Format::Lackey, max_lines)?;
    let mut simulation = Simulation::new(alloc, geometry)?;
    let mut text = Text::new();
    let mut ahead = Ahead::none();
    while let Some((_, entry)) = lines.next_ahead(&mut ahead, source)? {
        if let Some(lookups) = step(&mut simulation, entry) {
            if VERBOSE {
                write_line(&mut text, entry, lookups, sink)?;
            }
        }
    }
    set_summary(&mut text, simulation.counts());
    write_last(text.as_slice(), sink)?;
    Ok(())
}

/// Makes the data references of an entry, one or two, and returns how they went. A fetch has none,
/// and a flush empties the cache.
#[inline(always)]
fn step(simulation: &mut Simulation, entry: Entry) -> Option<(Lookup, Option<Lookup>)>
    requires { SimulationCountsWithin (2 ^ 62) simulation.old.counts }
    ensures { (g : GeometryValue) (events : List Event) →
        SimulationStandsFor g events simulation.old →
        SimulationStandsFor g (events ++ events_of Kind.DataOnly entry) simulation.new
        × (lookups_found result ≡ lookups_of g events entry) }
{
    let Entry::Item(item) = entry else {
        simulation.flush();
        return None;
    };
    let (first, second) = refs_of(item);
    if !Kind::DataOnly.keeps(first.access) {
        return None;
    }
    let first = simulation.access(first);
    match second {
        Some(second) => Some((first, Some(simulation.access(second)))),
        None => Some((first, None)),
    }
}
