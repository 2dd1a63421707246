//! One pass over a trace: the references wait in a batch, which is fed to each profile.
ghost use Rattle.std.specs.Prelude.{◌≡◌, ◌+◌, ◌<◌, ◌≤◌, [], length, map};
ghost use Rattle.std.specs.List.{AllByRecursion};
ghost use Rattle.trace_core.specs.Reader.{new_progress};
ghost use Rattle.trace_core.specs.Events.{events_of};
ghost use Rattle.trace_core.specs.declared.events.Entry.TheVariants as entry;
ghost use Rattle.sweep_core.specs.internal.Pass.{pair_after_flush};
ghost use Rattle.sweep_core.specs.internal.Pass.{profiles_after, state_after, Feeds};
ghost use Rattle.sweep_core.specs.internal.Feeding.{HaveFollowers, IsFresh};
ghost use Rattle.sweep_core.specs.internal.Feeding.{profiles_after_batch, profiles_with_fronts};
ghost use Rattle.sweep_core.specs.internal.Waiting.{AreWaiting, AreNoSmaller};
ghost use Rattle.sweep_core.specs.internal.Waiting.{kept_count, kept_counts};
ghost use Rattle.sweep_core.specs.declared.batch.TheConstants.{BATCH};
ghost use Rattle.trace_core.specs.declared.events.Kind.{Kind};

use crate::batch::Batch;
use crate::feeding::{catch_up, finest_size};
use crate::profiles::PairProfile;
use profile_core::MAX_REFERENCES;
use trace_core::{Ahead, Entry, Item, Kind, Lines, Op, Source, TraceFault};

/// Reads a trace up to its end or its first fault, and feeds each entry to the profiles: its
/// references of a kind, or a flush. At most one batch of references is kept in memory. A profile
/// need not be fed references that find their block in front there; these are counted at the end.
pub(crate) fn read_trace<S: Source>(
    lines: &mut Lines,
    kind: Kind,
    source: &mut S,
    profiles: &mut [PairProfile],
    batch: &mut Batch,
) -> Result<(), TraceFault>
    requires begun { lines.old ≡ new_progress lines.old.format lines.old.limit }
    requires empty { batch.old ≡ record { waiting = []; added = 0 } }
    requires fresh { AllByRecursion IsFresh profiles.old }
    requires followers { HaveFollowers profiles.old }
    ensures fed { Feeds kind lines.old.format lines.old.limit
        (S.view source.old) (S.view source.new) lines.new profiles.old profiles.new }
    ensures reports { lines.new.state ≡ state_after result }
{
    let read = read_entries(lines, kind, source, profiles, batch);
    batch.feed(profiles);
    catch_up(profiles, batch.added());
    read
}

/// Reads a trace as `read_trace` does, but leaves the last references in the batch, and does not
/// count those that a profile need not be fed.
fn read_entries<S: Source>(
    lines: &mut Lines,
    kind: Kind,
    source: &mut S,
    profiles: &mut [PairProfile],
    batch: &mut Batch,
) -> Result<(), TraceFault>
    requires empty { batch.old ≡ record { waiting = []; added = 0 } }
    requires begun { lines.old ≡ new_progress lines.old.format lines.old.limit }
    requires fresh { AllByRecursion IsFresh profiles.old }
    requires followers { HaveFollowers profiles.old }
    ensures fed { Feeds kind lines.old.format lines.old.limit (S.view source.old)
        (S.view source.new) lines.new profiles.old
        (profiles_with_fronts batch.new.added
        (profiles_after_batch batch.new.waiting profiles.new)) }
    ensures reports { lines.new.state ≡ state_after result }
    ensures waiting { AreWaiting batch.new.added batch.new.waiting profiles.new }
    ensures few { batch.new.added ≤ MAX_REFERENCES }
{
    let counts = kept_counts(kind);
    let size = finest_size(profiles);
    let mut ahead = Ahead::none();
    while let Some((_, entry)) = lines.next_ahead(&mut ahead, source)? {
        match entry {
            Entry::Item(item) => {
                feed_item(profiles, batch, size, item, kept_count(&counts, item.op));
            }
            Entry::Flush => {
                batch.feed(profiles);
                flush(profiles);
            }
        }
    }
    Ok(())
}

/// Adds the references of an item that are kept, so many, to the batch. If it is then full, its
/// references are fed. `size` is that of the smallest blocks.
#[inline(always)]
fn feed_item(profiles: &mut [PairProfile], batch: &mut Batch, size: u64, item: Item, count: u64)
    requires few { batch.old.added + count ≤ MAX_REFERENCES }
    requires room { length batch.old.waiting < BATCH }
    requires waiting { AreWaiting batch.old.added batch.old.waiting profiles.old }
    requires finest { AreNoSmaller size profiles.old }
    ensures caught { (kind : Kind) → count ≡ kept_count kind item.op →
        profiles_with_fronts batch.new.added (profiles_after_batch batch.new.waiting profiles.new)
        ≡ profiles_after (events_of kind (entry.Item item))
        (profiles_with_fronts batch.old.added
        (profiles_after_batch batch.old.waiting profiles.old)) }
    ensures room { length batch.new.waiting < BATCH }
    ensures waiting { AreWaiting batch.new.added batch.new.waiting profiles.new }
    ensures finest { AreNoSmaller size profiles.new }
    ensures added { batch.new.added ≡ batch.old.added + count }
{
    if count > 0 {
        batch.push(item.addr, size, count);
        if batch.is_full() {
            batch.feed(profiles);
        }
    }
}

/// How many references of an item are of a kind, for each operation in its order. Both references
/// of a modify have one address, so that no more than one of them waits.
fn kept_counts(kind: Kind) -> [u64; 4]
    ensures { result ≡ kept_counts kind }
{
    match kind {
        Kind::All => [1, 1, 1, 2],
        Kind::DataOnly => [1, 1, 0, 2],
        Kind::FetchOnly => [0, 0, 1, 0],
    }
}

/// How many of them an item with an operation has. It is looked up, since the operations of a trace
/// come in no order that a processor predicts.
#[inline(always)]
fn kept_count(counts: &[u64; 4], op: Op) -> u64
    ensures { (kind : Kind) → counts.now ≡ kept_counts kind → result ≡ kept_count kind op }
{
    counts[op as usize]
}

/// Flushes each profile.
fn flush(profiles: &mut [PairProfile])
    ensures { profiles.new ≡ map pair_after_flush profiles.old }
{
    for pair in profiles.iter_mut() {
        pair.profile.flush();
    }
}
