//! The sweep, and its counts as values.
ghost use Rattle.std.specs.Prelude.{◌≡◌, ◌≤◌, Err, None, IfOk, IfSome, flat_map};
ghost use Rattle.std.specs.List.{AllByRecursion};
ghost use Rattle.trace_core.specs.Reading.{events, first_fault};
ghost use Rattle.trace_core.specs.Task.{Performs};
ghost use Rattle.trace_core.specs.declared.fault.RunFault.TheVariants as fault;
ghost use Rattle.sweep_core.specs.Space.{HasSize};
ghost use Rattle.sweep_core.specs.SweepText.{sweep_task};
ghost use Rattle.sweep_core.specs.Work.{sweep_work};
ghost use Rattle.sweep_core.specs.Rows.{counted_sweep, ReadsCounts};

use crate::batch::Batch;
use crate::pass::read_trace;
use crate::profiles::{PairProfile, make_profiles, total_probes};
use crate::request::Request;
use crate::rows::{Pairs, Rows};
use crate::space::Space;
use crate::table::write_table;
use std::alloc::Global;
use std::marker::Model;
use trace_core::{Lines, MAX_LINES, RunFault, Sink, Source};

/// Why a sweep stopped before its end. It takes all its memory before it reads, and reads the whole
/// trace before it writes.
pub type SweepFault = RunFault;

/// Reads a whole trace, and writes the table of a request: the header, unless `after` is given, and
/// a row for each configuration greater than `after`, in rising order, at most `rows` of them. Then
/// it flushes, once. A failed sink is not called again. The trace may have at most `max_lines`
/// lines, 1 to `MAX_LINES`.
///
/// Each row is written at once, without a buffer. So a caller whose sink is slow to call, such as a
/// file or a socket, adds a buffer: `ToWrite` over a `BufWriter`.
///
/// Each pair of block size and set count that has a row costs one profile, as deep as the pair's
/// greatest associativity in the space. References are fed to each of them in batches, except
/// those that must find their block in front there because they do in another one.
///
/// It returns the number of comparisons of a block with an entry of a recency list. The number
/// depends only on the trace and the request: it counts as if each profile looked for each
/// reference's block from the most recent entry on, which takes at most as many comparisons as the
/// profile is deep. This is the cost of the stack algorithm, by which spaces can be compared. The
/// sweep makes as many comparisons with such entries or fewer, though no contract says so: one look
/// that decides for several profiles counts as one comparison in each of them, and a profile of 256
/// ways or more finds most distances without a walk over the list. It also compares each
/// reference's block with that of the reference before, which does not count.
///
/// Errors: `Memory`, with nothing read or written; `Trace` if the trace has a fault or the
/// source failed, with nothing written; `Write` if the sink failed, after the whole trace was
/// read, with what it took written.
pub fn sweep<S: Source, K: Sink>(
    alloc: Global,
    request: &Request,
    source: &mut S,
    sink: &mut K,
) -> Result<u128, SweepFault>
    requires some { 1 ≤ request.now.max_lines }
    requires most { request.now.max_lines ≤ MAX_LINES }
    ensures performs { Performs (sweep_task request.now) result
        S.view source.old source.new K.view sink.old sink.new }
    ensures work { IfOk result (λ compared. IfSome (S.view source.old).remaining (λ text.
        compared ≡ sweep_work request.now text)) }
{
    let counts = SweepCounts::read(alloc, request, source)?;
    write_table(sink, request.after, &counts)?;
    Ok(counts.comparisons())
}

/// The counts of a sweep that has read its trace.
#[derive(Drop)]
pub struct SweepCounts {
    space: Space,
    profiles: Vec<PairProfile>,
}

impl Model for SweepCounts {
    ghost use Rattle.std.specs.Prelude.{sum_by};
    ghost use Rattle.std.specs.List.{AllByRecursion};
    ghost use Rattle.sweep_core.specs.Rows.{CountedSweep};
    ghost use Rattle.sweep_core.specs.internal.Runs.{counted_profiles, ServesRows};

    ghost Value = { CountedSweep };

    ghost view = { λ s. record {
      rows = counted_profiles s.space.powers s.profiles.items;
      comparisons = sum_by (λ x. x.profile.probes) s.profiles.items;
    } };

    ghost invariant = { λ s. AllByRecursion (ServesRows s.space.powers) s.profiles.items };
}

impl SweepCounts {
    /// Reads a whole trace, and counts for each row of a request. It may have at most `max_lines`
    /// lines, 1 to `MAX_LINES`. All memory is taken before it is read; its rows take none later.
    ///
    /// Errors: `Memory`, with nothing read; `Trace` if the trace has a fault or the source failed;
    /// never `Write`.
    pub fn read<S: Source>(
        alloc: Global,
        request: &Request,
        source: &mut S,
    ) -> Result<SweepCounts, SweepFault>
        requires some { 1 ≤ request.now.max_lines }
        requires most { request.now.max_lines ≤ MAX_LINES }
        ensures reads { ReadsCounts request.now (S.view source.old) (S.view source.new) result }
        ensures memory { result ≡ Err fault.Memory → source.new ≡ source.old }
        ensures counts { IfOk result (λ counts. IfSome (S.view source.old).remaining (λ text.
            counts ≡ counted_sweep request.now
            (events request.now.format request.now.kind text))) }
        ensures faultless { IfOk result (λ _. IfSome (S.view source.old).remaining (λ text.
            first_fault request.now.format request.now.max_lines text ≡ None)) }
    {
        let mut lines = Lines::new(alloc, request.format, request.max_lines)?;
        let mut profiles = make_profiles(alloc, request)?;
        let mut batch = Batch::new(alloc)?;
        read_trace(&mut lines, request.kind, source, &mut profiles, &mut batch)?;
        Ok(SweepCounts {
            space: request.space,
            profiles,
        })
    }

    /// The rows, in the order of the table, each configuration with its counts. The size of each
    /// fits, so `Config::bytes` can be asked for it.
    pub fn rows(&self) -> Rows<'_>
        ensures rows { result ≡ self.now.rows }
        ensures sizes { AllByRecursion (λ row. HasSize row.0) result }
    {
        Rows::new(&self.space, &self.profiles)
    }

    /// The rows in groups, one for each pair of block size and set count.
    pub(crate) fn pairs(&self) -> Pairs<'_>
        ensures rows { flat_map (λ rows. rows) result ≡ self.now.rows }
        ensures sizes { AllByRecursion (AllByRecursion (λ row. HasSize row.0)) result }
    {
        Pairs::new(&self.space, &self.profiles)
    }

    /// The number of comparisons that the sweep counted, as `sweep` returns it.
    pub fn comparisons(&self) -> u128
        ensures { result ≡ self.now.comparisons }
    {
        total_probes(&self.profiles)
    }
}
