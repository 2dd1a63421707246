//! Systems of caches: what each level counts, and what goes past the last one.
use cache_core::{
    AllocMode, CacheName, CacheSpec, CacheStats, FirstLevel, MAX_STEPS, Plan, PlanFault, Repl,
    Stats, System, WriteMode,
};
use std::alloc::Global;
use std::process::Abort;
use std::test::Fail;
use trace_core::{Access, Event, Ref};

fn fetch(addr: u64) -> Event {
    let access = Access::Fetch;
    Event::Reference(Ref { access, addr })
}

fn read(addr: u64) -> Event {
    let access = Access::Read;
    Event::Reference(Ref { access, addr })
}

fn write(addr: u64) -> Event {
    let access = Access::Write;
    Event::Reference(Ref { access, addr })
}

/// An LRU cache that writes back and allocates.
fn spec(size: u64, bsize: u64, assoc: u64) -> CacheSpec {
    CacheSpec {
        size,
        bsize,
        assoc,
        repl: Repl::Lru,
        wback: WriteMode::Back,
        walloc: AllocMode::Always,
    }
}

const NONE: FirstLevel = FirstLevel {
    i: None,
    d: None,
    u: None,
};

fn unified(u: CacheSpec) -> FirstLevel {
    FirstLevel {
        i: None,
        d: None,
        u: Some(u),
    }
}

fn split(i: Option<CacheSpec>, d: Option<CacheSpec>) -> FirstLevel {
    FirstLevel { i, d, u: None }
}

/// The statistics of a system after some events.
fn stats_of(
    rt: &impl Abort,
    alloc: Global,
    first: FirstLevel,
    second: Option<CacheSpec>,
    events: &[Event],
) -> Result<Stats, Fail> {
    let plan = Plan::new(first, second)?;
    let mut system = System::new(alloc, plan, 42)?;
    for event in events {
        assert!(rt; system.steps() < MAX_STEPS);
        match event {
            Event::Reference(reference) => system.step(*reference),
            Event::Flush => system.flush(),
        }
    }
    assert!(rt; system.steps() == events.len() as u64);
    Ok(system.stats())
}

/// A cache's statistics: all accesses of a kind and the misses among them, evictions, copybacks.
fn counted(
    fetches: (u64, u64),
    reads: (u64, u64),
    writes: (u64, u64),
    evictions: u64,
    copybacks: u64,
) -> Option<CacheStats> {
    Some(CacheStats {
        fetches: fetches.0,
        fetch_misses: fetches.1,
        reads: reads.0,
        read_misses: reads.1,
        writes: writes.0,
        write_misses: writes.1,
        evictions,
        copybacks,
    })
}

/// The statistics of a unified first level, a second level and memory.
fn levels(l1u: Option<CacheStats>, l2u: Option<CacheStats>, memory: (u64, u64)) -> Stats {
    Stats {
        l1i: None,
        l1d: None,
        l1u,
        l2u,
        memory_reads: memory.0,
        memory_writes: memory.1,
        bypassed: 0,
    }
}

#[test]
fn one_level_sends_its_misses_to_memory(rt: HostRuntime) -> Result<(), Fail> {
    let events = [write(0), read(0x10)];
    let modes = [
        (WriteMode::Back, AllocMode::Always, 1, 1, (2, 1)),
        (WriteMode::Through, AllocMode::Always, 1, 0, (2, 1)),
        (WriteMode::Through, AllocMode::Never, 0, 0, (1, 1)),
    ];
    for (wback, walloc, evictions, copybacks, memory) in modes {
        let mut cache = spec(16, 16, 1);
        cache.wback = wback;
        cache.walloc = walloc;
        let stats = stats_of(&rt, rt.alloc(), unified(cache), None, &events)?;
        let l1u = counted((0, 0), (1, 1), (1, 1), evictions, copybacks);
        assert!(rt; stats == levels(l1u, None, memory));
    }
    Ok(())
}

#[test]
fn a_flush_goes_past_the_second_level(rt: HostRuntime) -> Result<(), Fail> {
    let first = unified(spec(16, 16, 1));
    let second = Some(spec(32, 16, 2));
    let l1u = counted((0, 0), (1, 1), (1, 1), 1, 1);
    let events = [write(0), read(0x10), Event::Flush];
    let stats = stats_of(&rt, rt.alloc(), first, second, &events)?;
    let l2u = counted((0, 0), (2, 2), (1, 0), 0, 1);
    assert!(rt; stats == levels(l1u, l2u, (2, 1)));
    let stats = stats_of(&rt, rt.alloc(), first, second, &events[..2])?;
    let l2u = counted((0, 0), (2, 2), (1, 0), 0, 0);
    assert!(rt; stats == levels(l1u, l2u, (2, 0)));
    let events = [write(0), Event::Flush];
    let stats = stats_of(&rt, rt.alloc(), first, second, &events)?;
    let l1u = counted((0, 0), (0, 0), (1, 1), 0, 1);
    let l2u = counted((0, 0), (1, 1), (0, 0), 0, 0);
    assert!(rt; stats == levels(l1u, l2u, (1, 1)));
    Ok(())
}

#[test]
fn a_split_level_takes_each_kind_apart(rt: HostRuntime) -> Result<(), Fail> {
    let cache = Some(spec(16, 16, 1));
    let mut wanted = levels(None, None, (2, 0));
    let events = [fetch(0), write(0), fetch(4)];
    let both = stats_of(&rt, rt.alloc(), split(cache, cache), None, &events)?;
    wanted.l1i = counted((2, 1), (0, 0), (0, 0), 0, 0);
    wanted.l1d = counted((0, 0), (0, 0), (1, 1), 0, 0);
    assert!(rt; both == wanted);
    let data = stats_of(&rt, rt.alloc(), split(None, cache), None, &events)?;
    wanted.l1i = None;
    wanted.bypassed = 2;
    wanted.memory_reads = 1;
    assert!(rt; data == wanted);
    Ok(())
}

// Of the generator's first numbers two are odd: way 1 leaves twice in each cache, so both have
// generators of the same seed.
#[test]
fn random_caches_have_generators_of_their_own(rt: HostRuntime) -> Result<(), Fail> {
    let mut cache = spec(32, 16, 2);
    cache.repl = Repl::Random;
    let first = split(Some(cache), Some(cache));
    let fetches = [0x10, 0x20, 0x30, 0x10, 0x20, 0x10].map(fetch);
    let reads = [0x10, 0x20, 0x30, 0x10, 0x20, 0x10].map(read);
    let mut events = fetches.to_vec(rt.alloc())?;
    events.extend_from_slice(&reads)?;
    let stats = stats_of(&rt, rt.alloc(), first, None, &events)?;
    let mut wanted = levels(None, None, (8, 0));
    wanted.l1i = counted((6, 4), (0, 0), (0, 0), 2, 0);
    wanted.l1d = counted((0, 0), (6, 4), (0, 0), 2, 0);
    assert!(rt; stats == wanted);
    Ok(())
}

#[test]
fn plans_are_refused_in_order(rt: HostRuntime) {
    let good = spec(16, 16, 1);
    let bad = spec(16, 32, 1);
    let mixed = FirstLevel {
        i: Some(bad),
        d: None,
        u: Some(good),
    };
    let geometry = |cache| PlanFault::BadGeometry { cache };
    let rows = [
        (NONE, Some(bad), PlanFault::NoFirst),
        (mixed, None, PlanFault::MixedFirst),
        (
            split(Some(bad), Some(bad)),
            Some(bad),
            geometry(CacheName::L1I),
        ),
        (
            split(Some(good), Some(bad)),
            Some(bad),
            geometry(CacheName::L1D),
        ),
        (unified(bad), None, geometry(CacheName::L1U)),
        (unified(spec(16, 0, 1)), None, geometry(CacheName::L1U)),
        (unified(spec(48, 16, 1)), None, geometry(CacheName::L1U)),
        (unified(spec(24, 8, 0)), None, geometry(CacheName::L1U)),
        (
            unified(spec(32, 32, 1)),
            Some(spec(16, 32, 1)),
            geometry(CacheName::L2U),
        ),
        (
            unified(spec(32, 32, 1)),
            Some(spec(32, 16, 1)),
            PlanFault::SmallBlock,
        ),
    ];
    for (i, (first, second, fault)) in rows.into_iter().enumerate() {
        assert!(rt; Plan::new(first, second).err() == Some(fault), "at row {i}");
    }
    assert!(rt; Plan::new(split(Some(good), None), Some(good)).is_ok());
}
