//! One cache: what each kind of reference does under each mode, and the separate simulation of a
//! configuration.
use crate::samples::{fetch, nine_references, read, write};
use cache_core::simulate::simulate;
use cache_core::{AllocMode, Cache, Counts, Geometry, Lru, Outcome, Slot, WriteMode};
use std::alloc::Global;
use std::process::Abort;
use std::test::Fail;
use trace_core::Ref;

/// A cache of one line of 16 bytes.
fn one_line(alloc: Global, mode: WriteMode, allocate: AllocMode) -> Result<Cache<Lru>, Fail> {
    let geometry = Geometry::new(0, 1, 4).ok_or("no geometry")?;
    Ok(Cache::new(alloc, geometry, Lru::new(), mode, allocate)?)
}

/// The outcome of a reference in a new cache, or after another one.
fn outcome_of(
    alloc: Global,
    mode: WriteMode,
    allocate: AllocMode,
    first: Option<Ref>,
    second: Ref,
) -> Result<Outcome, Fail> {
    let mut cache = one_line(alloc, mode, allocate)?;
    if let Some(first) = first {
        cache.access(first);
    }
    Ok(cache.access(second))
}

/// A reference that hits.
fn hit(down: [Option<Ref>; 2]) -> Outcome {
    Outcome {
        hit: true,
        evicted: None,
        placed: false,
        down,
    }
}

/// A reference that misses and is placed.
fn placed(evicted: Option<Slot>, down: [Option<Ref>; 2]) -> Outcome {
    Outcome {
        hit: false,
        evicted,
        placed: true,
        down,
    }
}

/// A reference that misses and is sent down.
fn passed(reference: Ref) -> Outcome {
    Outcome {
        hit: false,
        evicted: None,
        placed: false,
        down: [Some(reference), None],
    }
}

/// A cache that allocates or not, a reference before, a reference, and the outcome of this one.
type Row = (AllocMode, Option<Ref>, Ref, Outcome);

/// Compares the outcome of each reference in a cache of a mode.
fn expect_rows(rt: &impl Abort, alloc: Global, mode: WriteMode, rows: &[Row]) -> Result<(), Fail> {
    for (i, (allocate, first, second, wanted)) in rows.iter().enumerate() {
        let outcome = outcome_of(alloc, mode, *allocate, *first, *second)?;
        assert!(rt; outcome == *wanted, "at row {i}");
    }
    Ok(())
}

/// The only line, as it leaves.
fn line(dirty: bool) -> Option<Slot> {
    Some(Slot { block: 0, dirty })
}

const NONE: [Option<Ref>; 2] = [None, None];

fn one(reference: Ref) -> [Option<Ref>; 2] {
    [Some(reference), None]
}

fn both(first: Ref, second: Ref) -> [Option<Ref>; 2] {
    [Some(first), Some(second)]
}

#[test]
fn a_cache_writes_back_what_is_dirty(rt: HostRuntime) -> Result<(), Fail> {
    let always = AllocMode::Always;
    let (fill, get) = (read(0x10), fetch(0x1F));
    let dirty = placed(line(true), both(write(0), fill));
    let dirty_fetch = placed(line(true), both(write(0), fetch(0x10)));
    let clean = placed(line(false), one(fill));
    let rows = [
        (always, Some(write(0)), read(0x1F), dirty),
        (always, Some(read(0)), write(0x1F), clean),
        (always, None, get, placed(None, one(fetch(0x10)))),
        (always, Some(read(0x10)), write(0x1F), hit(NONE)),
        (always, Some(write(0x10)), get, hit(NONE)),
        (always, Some(write(0)), get, dirty_fetch),
    ];
    expect_rows(&rt, rt.alloc(), WriteMode::Back, &rows)
}

#[test]
fn a_cache_writes_each_write_through(rt: HostRuntime) -> Result<(), Fail> {
    let always = AllocMode::Always;
    let (fill, last) = (read(0x10), write(0x1F));
    let fetched = placed(line(false), one(fetch(0x10)));
    let written = placed(line(false), both(fill, last));
    let rows = [
        (always, None, last, placed(None, both(fill, last))),
        (always, Some(read(0x10)), last, hit(one(last))),
        (always, Some(read(0)), last, written),
        (always, Some(write(0)), fetch(0x1F), fetched),
    ];
    expect_rows(&rt, rt.alloc(), WriteMode::Through, &rows)
}

#[test]
fn a_write_that_misses_is_not_placed(rt: HostRuntime) -> Result<(), Fail> {
    let never = AllocMode::Never;
    let last = write(0x1F);
    let miss = (never, Some(read(0)), last, passed(last));
    let back = [miss, (never, Some(read(0x10)), last, hit(NONE))];
    expect_rows(&rt, rt.alloc(), WriteMode::Back, &back)?;
    let through = [miss, (never, Some(read(0x10)), last, hit(one(last)))];
    expect_rows(&rt, rt.alloc(), WriteMode::Through, &through)
}

#[test]
fn a_flush_returns_the_dirty_lines(rt: HostRuntime) -> Result<(), Fail> {
    let geometry = Geometry::new(1, 2, 4).ok_or("no geometry")?;
    let (mode, allocate) = (WriteMode::Back, AllocMode::Always);
    let mut cache = Cache::new(rt.alloc(), geometry, Lru::new(), mode, allocate)?;
    for reference in [write(0), write(0x10), read(0x20), fetch(0x30), write(0x4)] {
        cache.access(reference);
    }
    assert!(rt; cache.flush() == 2);
    assert!(rt; cache.flush() == 0);
    assert!(rt; cache.access(read(0)) == placed(None, [Some(read(0)), None]));
    Ok(())
}

#[test]
fn a_configuration_by_itself(rt: HostRuntime) -> Result<(), Fail> {
    let refs = nine_references();
    let counts = |hits, misses, evictions| Counts {
        hits,
        misses,
        evictions,
    };
    let rows = [
        (0, 1, counts(3, 6, 5)),
        (0, 2, counts(4, 5, 3)),
        (0, 3, counts(5, 4, 1)),
        (0, 4, counts(5, 4, 0)),
        (1, 1, counts(4, 5, 3)),
        (1, 2, counts(4, 5, 2)),
    ];
    for (s, e, wanted) in rows {
        let geometry = Geometry::new(s, e, 4).ok_or("no geometry")?;
        assert!(rt; simulate(rt.alloc(), &geometry, &refs)? == wanted);
    }
    Ok(())
}
