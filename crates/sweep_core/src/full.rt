//! The full sweep: a sweep whose rows tell misses by kind of access and copybacks too, of LRU
//! caches with write-allocate and write-back.
mod batch;
mod feeding;
mod pass;
mod profiles;
pub mod rows;
mod table;

ghost use Rattle.std.specs.Prelude.{◌≡◌, ◌≤◌, Err, None, IfOk, IfSome};
ghost use Rattle.std.specs.List.{AllByRecursion};
ghost use Rattle.trace_core.specs.Reading.{events, first_fault};
ghost use Rattle.trace_core.specs.Task.{Performs};
ghost use Rattle.trace_core.specs.declared.fault.RunFault.TheVariants as fault;
ghost use Rattle.sweep_core.specs.Space.{HasSize};
ghost use Rattle.sweep_core.specs.FullText.{full_sweep_task};
ghost use Rattle.sweep_core.specs.Work.{sweep_work};
ghost use Rattle.sweep_core.specs.FullRows.{full_counted_sweep, ReadsFullCounts};

use crate::full::batch::FullBatch;
use crate::full::pass::read_full;
use crate::full::profiles::{FullPair, make_full_profiles, total_full_probes};
pub use crate::full::rows::FullRows;
use crate::full::table::write_full_table;
use crate::request::Request;
use crate::space::Space;
use crate::sweep::SweepFault;
use std::alloc::Global;
use std::marker::Model;
use trace_core::{Lines, MAX_LINES, Sink, Source};

/// Reads a whole trace and writes the full table of a request, as `sweep` does its table: the rows
/// are the same, and each has four more numbers, the misses of fetches, reads and writes and the
/// copybacks. A row tells what `din` reports of that cache alone, with LRU replacement,
/// write-allocate and write-back. The caches of one pair of block size and set count cost one
/// profile.
///
/// It returns the number of comparisons that `sweep` returns for the same request and trace.
///
/// Errors: as those of `sweep`.
pub fn sweep_full<S: Source, K: Sink>(
    alloc: Global,
    request: &Request,
    source: &mut S,
    sink: &mut K,
) -> Result<u128, SweepFault>
    requires some { 1 ≤ request.now.max_lines }
    requires most { request.now.max_lines ≤ MAX_LINES }
    ensures performs { Performs (full_sweep_task request.now) result
        S.view source.old source.new K.view sink.old sink.new }
    ensures work { IfOk result (λ compared. IfSome (S.view source.old).remaining (λ text.
        compared ≡ sweep_work request.now text)) }
{
    let counts = FullSweepCounts::read(alloc, request, source)?;
    write_full_table(sink, request.after, &counts)?;
    Ok(counts.comparisons())
}

/// The counts of a full sweep that has read its trace.
#[derive(Drop)]
pub struct FullSweepCounts {
    space: Space,
    profiles: Vec<FullPair>,
}

impl Model for FullSweepCounts {
    ghost use Rattle.std.specs.Prelude.{sum_by};
    ghost use Rattle.std.specs.List.{AllByRecursion};
    ghost use Rattle.sweep_core.specs.FullRows.{FullCountedSweep};
    ghost use Rattle.sweep_core.specs.internal.FullRuns.{full_counted_profiles, ServesFull};

    ghost Value = { FullCountedSweep };

    ghost view = { λ s. record {
      rows = full_counted_profiles s.space.powers s.profiles.items;
      comparisons = sum_by (λ x. x.profile.plain.probes) s.profiles.items;
    } };

    ghost invariant = { λ s. AllByRecursion (ServesFull s.space.powers) s.profiles.items };
}

impl FullSweepCounts {
    /// Reads a whole trace, and counts for each row of a request. It may have at most `max_lines`
    /// lines, 1 to `MAX_LINES`. All memory is taken before it is read; its rows take none later.
    ///
    /// Errors: `Memory`, with nothing read; `Trace` if the trace has a fault or the source failed;
    /// never `Write`.
    pub fn read<S: Source>(
        alloc: Global,
        request: &Request,
        source: &mut S,
    ) -> Result<FullSweepCounts, SweepFault>
        requires some { 1 ≤ request.now.max_lines }
        requires most { request.now.max_lines ≤ MAX_LINES }
        ensures reads { ReadsFullCounts request.now (S.view source.old) (S.view source.new) result }
        ensures memory { result ≡ Err fault.Memory → source.new ≡ source.old }
        ensures counts { IfOk result (λ counts. IfSome (S.view source.old).remaining (λ text.
            counts ≡ full_counted_sweep request.now
            (events request.now.format request.now.kind text))) }
        ensures faultless { IfOk result (λ _. IfSome (S.view source.old).remaining (λ text.
            first_fault request.now.format request.now.max_lines text ≡ None)) }
    {
        let mut lines = Lines::new(alloc, request.format, request.max_lines)?;
        let mut profiles = make_full_profiles(alloc, request)?;
        let mut batch = FullBatch::new(alloc)?;
        read_full(&mut lines, request.kind, source, &mut profiles, &mut batch)?;
        Ok(FullSweepCounts {
            space: request.space,
            profiles,
        })
    }

    /// The rows, in the order of the table, each configuration with its counts. The size of each
    /// fits, so `Config::bytes` can be asked for it.
    pub fn rows(&self) -> FullRows<'_>
        ensures rows { result ≡ self.now.rows }
        ensures sizes { AllByRecursion (λ row. HasSize row.0) result }
    {
        FullRows::new(&self.space, &self.profiles)
    }

    /// The number of comparisons that the sweep counted, as `sweep_full` returns it.
    pub fn comparisons(&self) -> u128
        ensures { result ≡ self.now.comparisons }
    {
        total_full_probes(&self.profiles)
    }
}
