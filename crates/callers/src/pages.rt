//! How many pages a trace touches.
ghost use Rattle.std.specs.Prelude.{◌≡◌, ◌≤◌, ◌+◌, IfOk, IfSome, fold};
ghost use Rattle.trace_core.specs.Events.{events_of};
ghost use Rattle.trace_core.specs.Reading.{events};
ghost use Rattle.cache_core.specs.Geometry.{geometry_value};
ghost use Rattle.cache_core.specs.Windows.{held};
ghost use Rattle.profile_core.specs.profile.State.{after_event, fed_of};

use profile_core::laws::{events_keep_the_geometry, new_profile_was_fed_nothing, stands_after};
use profile_core::{MAX_REFERENCES, Profile};
use std::alloc::Global;
use trace_core::laws::{
    begun_reader_has_read_nothing, events_come_entry_by_entry, whole_trace_gives_its_events,
};
use trace_core::{Entry, Format, Kind, Lines, MAX_LINES, RunFault, Source, refs_of};

/// How many different pages of 4 KiB a trace touches after its last flush, up to 65,536: the blocks
/// that a cache of one set of as many lines holds at the end.
pub fn pages_touched<S: Source>(
    alloc: Global,
    format: Format,
    source: &mut S,
) -> Result<u64, RunFault>
    ensures { IfOk result (λ pages. IfSome (S.view source.old).remaining (λ text.
        pages ≡ held (geometry_value 0 65536 12) (events format Kind.All text))) }
{
    begun_reader_has_read_nothing();
    events_come_entry_by_entry();
    whole_trace_gives_its_events();
    new_profile_was_fed_nothing();
    events_keep_the_geometry();
    stands_after();
    let mut lines = Lines::new(alloc, format, MAX_LINES)?;
    let mut profile = Profile::new(alloc, 12, 0, 65_536)?;
    while let Some((_, entry)) = lines.next(source)? {
        feed_entry(&mut profile, entry);
    }
    Ok(profile.held())
}

/// Feeds what an entry gives a cache.
fn feed_entry(profile: &mut Profile, entry: Entry)
    requires { fed_of profile.old + 2 ≤ MAX_REFERENCES }
    ensures fed { profile.new ≡ fold after_event profile.old (events_of Kind.All entry) }
    ensures few { fed_of profile.new ≤ fed_of profile.old + 2 }
{
    match entry {
        Entry::Item(item) => {
            let (first, second) = refs_of(item);
            profile.feed(first.addr);
            if let Some(second) = second {
                profile.feed(second.addr);
            }
        }
        Entry::Flush => profile.flush(),
    }
}
