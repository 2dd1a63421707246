//! One pass over a trace for a full sweep: the references wait in a batch, which is fed to each
//! profile.
ghost use Rattle.std.specs.Prelude.{◌≡◌, ◌+◌, ◌<◌, ◌≤◌, ◌∷◌, [], map};
ghost use Rattle.std.specs.List.{AllByRecursion};
ghost use Rattle.trace_core.specs.Reader.{new_progress};
ghost use Rattle.sweep_core.specs.internal.Pass.{kept_events, state_after};
ghost use Rattle.sweep_core.specs.internal.Full.{full_pair_flushed, full_pairs_after, FeedsFull};
ghost use Rattle.sweep_core.specs.internal.Full.{full_pairs_fed, full_pairs_caught, IsNewPair};
ghost use Rattle.sweep_core.specs.internal.Full.{FullWaiting, AreNoSmallerFull, EndsFull};

use crate::full::batch::FullBatch;
use crate::full::feeding::{end_full, finest_full_size};
use crate::full::profiles::FullPair;
use profile_core::MAX_REFERENCES;
use trace_core::{Ahead, Entry, Kind, Lines, Ref, Source, TraceFault, refs_of};

/// Reads a trace up to its end or its first fault, and feeds each entry to the profiles: its
/// references of a kind, or a flush. Then it ends them. At most one batch of references is kept in
/// memory.
pub(crate) fn read_full<S: Source>(
    lines: &mut Lines,
    kind: Kind,
    source: &mut S,
    profiles: &mut [FullPair],
    batch: &mut FullBatch,
) -> Result<(), TraceFault>
    requires begun { lines.old ≡ new_progress lines.old.format lines.old.limit }
    requires empty { batch.old ≡ record { waiting = []; added = 0 } }
    requires fresh { AllByRecursion IsNewPair profiles.old }
    ensures fed { EndsFull kind lines.old.format lines.old.limit
        (S.view source.old) (S.view source.new) lines.new profiles.old profiles.new }
    ensures reports { lines.new.state ≡ state_after result }
{
    let read = read_full_entries(lines, kind, source, profiles, batch);
    batch.feed(profiles);
    end_full(profiles, batch.added());
    read
}

/// Reads a trace as `read_full` does, but leaves the last references in the batch, and does not
/// count those that a profile need not be fed.
fn read_full_entries<S: Source>(
    lines: &mut Lines,
    kind: Kind,
    source: &mut S,
    profiles: &mut [FullPair],
    batch: &mut FullBatch,
) -> Result<(), TraceFault>
    requires empty { batch.old ≡ record { waiting = []; added = 0 } }
    requires begun { lines.old ≡ new_progress lines.old.format lines.old.limit }
    requires fresh { AllByRecursion IsNewPair profiles.old }
    ensures fed { FeedsFull kind lines.old.format lines.old.limit (S.view source.old)
        (S.view source.new) lines.new profiles.old
        (full_pairs_caught batch.new.added (full_pairs_fed batch.new.waiting profiles.new)) }
    ensures reports { lines.new.state ≡ state_after result }
    ensures waiting { FullWaiting batch.new.added batch.new.waiting profiles.new }
    ensures few { batch.new.added ≤ MAX_REFERENCES }
{
    let size = finest_full_size(profiles);
    let mut ahead = Ahead::none();
    while let Some((_, entry)) = lines.next_ahead(&mut ahead, source)? {
        match entry {
            Entry::Item(item) => {
                let (first, second) = refs_of(item);
                feed_full_kept(profiles, batch, size, kind, first);
                if let Some(second) = second {
                    feed_full_kept(profiles, batch, size, kind, second);
                }
            }
            Entry::Flush => {
                batch.feed(profiles);
                flush_full(profiles);
            }
        }
    }
    Ok(())
}

/// If a reference is of a kind, adds it to the batch. If the batch is full, its references are fed
/// first. `size` is that of the smallest blocks.
#[inline(always)]
fn feed_full_kept(
    profiles: &mut [FullPair],
    batch: &mut FullBatch,
    size: u64,
    kind: Kind,
    reference: Ref,
)
    requires few { batch.old.added < MAX_REFERENCES }
    requires waiting { FullWaiting batch.old.added batch.old.waiting profiles.old }
    requires finest { AreNoSmallerFull size profiles.old }
    ensures caught { full_pairs_caught batch.new.added
        (full_pairs_fed batch.new.waiting profiles.new)
        ≡ full_pairs_after (kept_events kind (reference ∷ []))
        (full_pairs_caught batch.old.added (full_pairs_fed batch.old.waiting profiles.old)) }
    ensures waiting { FullWaiting batch.new.added batch.new.waiting profiles.new }
    ensures finest { AreNoSmallerFull size profiles.new }
    ensures more { batch.new.added ≤ batch.old.added + 1 }
{
    if kind.keeps(reference.access) {
        if batch.is_full() {
            batch.feed(profiles);
        }
        batch.push(reference, size);
    }
}

/// Flushes each profile.
fn flush_full(profiles: &mut [FullPair])
    ensures { profiles.new ≡ map full_pair_flushed profiles.old }
{
    for pair in profiles.iter_mut() {
        pair.profile.flush();
    }
}
