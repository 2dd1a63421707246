//! Profiles: one pass counts what a separate cache of every associativity counts.
ghost use Rattle.std.specs.Prelude.{◌≡◌, ◌≤◌, ◌+◌, ◌^◌, IfOk, length};
ghost use Rattle.profile_core.specs.profile.State.{fed_of};

use cache_core::simulate::simulate;
use cache_core::{Counts, Geometry};
use profile_core::{MAX_REFERENCES, Profile};
use std::alloc::{AllocError, Global};
use std::process::Abort;
use std::test::Fail;
use trace_core::{Access, Ref};

const SHORT: [u64; 9] = [0x10, 0x20, 0x20, 0x22, 0x18, 0x110, 0x210, 0x12, 0x12];

const CYCLIC: [u64; 12] = [
    0x10, 0x20, 0x30, 0x40, 0x10, 0x20, 0x50, 0x10, 0x20, 0x30, 0x40, 0x50,
];

fn counts(hits: u64, misses: u64, evictions: u64) -> Counts {
    Counts {
        hits,
        misses,
        evictions,
    }
}

/// A profile with nothing fed.
fn new_profile(alloc: Global, geometry: Geometry) -> Result<Profile, AllocError>
    ensures geometry { IfOk result (λ profile. profile.geometry ≡ geometry) }
    ensures unfed { IfOk result (λ profile. fed_of profile ≡ 0) }
{
    Profile::new(alloc, geometry.b(), geometry.s(), geometry.e())
}

/// A profile with nothing fed, as a sweep makes it.
fn sparse_profile(alloc: Global, geometry: Geometry) -> Result<Profile, AllocError>
    ensures geometry { IfOk result (λ profile. profile.geometry ≡ geometry) }
    ensures unfed { IfOk result (λ profile. fed_of profile ≡ 0) }
{
    Profile::new_sparse(alloc, geometry.b(), geometry.s(), geometry.e())
}

/// A profile of one set of blocks of 16 bytes.
fn one_set(alloc: Global, depth: u64) -> Result<Profile, Fail>
    ensures geometry { IfOk result (λ profile. profile.geometry.e ≡ depth) }
    ensures unfed { IfOk result (λ profile. fed_of profile ≡ 0) }
{
    let geometry = Geometry::new(0, depth, 4).ok_or("no geometry")?;
    Ok(new_profile(alloc, geometry)?)
}

/// Feeds addresses.
fn feed_all(profile: &mut Profile, addrs: &[u64])
    requires few { fed_of profile.old + length addrs.now ≤ MAX_REFERENCES }
    ensures geometry { profile.new.geometry ≡ profile.old.geometry }
    ensures fed { fed_of profile.new ≡ fed_of profile.old + length addrs.now }
{
    for addr in addrs {
        profile.feed(*addr);
    }
}

/// Feeds addresses, and compares how many comparisons each takes.
fn expect_probes(rt: &impl Abort, profile: &mut Profile, steps: &[(u64, u64)]) {
    for (i, (addr, wanted)) in steps.iter().enumerate() {
        let before = profile.probes();
        assert!(rt; profile.fed() < MAX_REFERENCES);
        profile.feed(*addr);
        assert!(rt;
            profile.probes().saturating_sub(before) == *wanted,
            "at step {i}"
        );
    }
}

/// The counts from one way on, asked for one by one and by sums that go on.
fn expect_counts(rt: &impl Abort, profile: &Profile, wanted: &[Counts])
    requires { length wanted.now ≤ profile.now.geometry.e }
{
    let mut sums = profile.begin_sums();
    for (i, counts) in wanted.iter().enumerate() {
        let ways = i as u64 + 1;
        let rising = profile.counts_next(&mut sums, ways);
        assert!(rt;
            rising == *counts && profile.counts(ways) == *counts,
            "{ways} ways"
        );
    }
}

/// How many references were fed, how many blocks are held, and how many comparisons are counted.
fn numbers(profile: &Profile) -> (u64, u64, u64) {
    (profile.fed(), profile.held(), profile.probes())
}

#[test]
fn a_short_trace_in_one_set(rt: HostRuntime) -> Result<(), Fail> {
    let mut profile = one_set(rt.alloc(), 3)?;
    feed_all(&mut profile, &SHORT);
    expect_counts(
        &rt,
        &profile,
        &[counts(3, 6, 5), counts(4, 5, 3), counts(5, 4, 1)],
    );
    assert!(rt; numbers(&profile) == (9, 3, 14));
    Ok(())
}

#[test]
fn a_cyclic_trace_in_one_set(rt: HostRuntime) -> Result<(), Fail> {
    let mut profile = one_set(rt.alloc(), 5)?;
    feed_all(&mut profile, &CYCLIC);
    let wanted = [
        counts(0, 12, 11),
        counts(0, 12, 10),
        counts(2, 10, 7),
        counts(4, 8, 4),
        counts(7, 5, 0),
    ];
    expect_counts(&rt, &profile, &wanted);
    assert!(rt; numbers(&profile) == (12, 5, 39));
    let mut sums = profile.begin_sums();
    assert!(rt; profile.counts_next(&mut sums, 2) == counts(0, 12, 10));
    assert!(rt; profile.counts_next(&mut sums, 2) == counts(0, 12, 10));
    assert!(rt; profile.counts_next(&mut sums, 5) == counts(7, 5, 0));
    Ok(())
}

#[test]
fn a_search_ends_at_its_block_or_behind_the_last(rt: HostRuntime) -> Result<(), Fail> {
    let mut profile = one_set(rt.alloc(), 3)?;
    let short = [
        (0x10, 0),
        (0x20, 1),
        (0x20, 1),
        (0x22, 1),
        (0x18, 2),
        (0x110, 2),
        (0x210, 3),
        (0x12, 3),
        (0x12, 1),
    ];
    expect_probes(&rt, &mut profile, &short);
    let mut profile = one_set(rt.alloc(), 5)?;
    let cyclic = [
        (0x10, 0),
        (0x20, 1),
        (0x30, 2),
        (0x40, 3),
        (0x10, 4),
        (0x20, 4),
        (0x50, 4),
        (0x10, 3),
        (0x20, 3),
        (0x30, 5),
        (0x40, 5),
        (0x50, 5),
    ];
    expect_probes(&rt, &mut profile, &cyclic);
    Ok(())
}

#[test]
fn a_flush_forgets_blocks_and_keeps_counts(rt: HostRuntime) -> Result<(), Fail> {
    let mut profile = one_set(rt.alloc(), 3)?;
    feed_all(&mut profile, &[0x10, 0x20]);
    profile.flush();
    assert!(rt; numbers(&profile) == (2, 0, 1));
    feed_all(&mut profile, &[0x10]);
    assert!(rt; numbers(&profile) == (3, 1, 1));
    let wanted = [counts(0, 3, 1), counts(0, 3, 0), counts(0, 3, 0)];
    expect_counts(&rt, &profile, &wanted);
    Ok(())
}

#[test]
fn nothing_is_found_behind_a_flush(rt: HostRuntime) -> Result<(), Fail> {
    for second in [0x10, 0x20] {
        let mut profile = one_set(rt.alloc(), 1)?;
        feed_all(&mut profile, &[0x10]);
        profile.flush();
        feed_all(&mut profile, &[second]);
        expect_counts(&rt, &profile, &[counts(0, 2, 0)]);
        assert!(rt; profile.probes() == 0);
    }
    Ok(())
}

/// Counts references that were found in front, and compares what the profile tells with what it
/// tells of the short trace.
fn expect_short(rt: &impl Abort, profile: &mut Profile, fronts: u64) {
    assert!(rt; profile.fed().saturating_add(fronts) == 9);
    profile.count_fronts(fronts);
    assert!(rt; numbers(profile) == (9, 3, 14));
}

/// Feeds those of some addresses that are not found in front, and returns how many others there
/// are.
fn feed_unless_fronts(rt: &impl Abort, profile: &mut Profile, addrs: &[u64]) -> u64 {
    let mut fronts = 0u64;
    for addr in addrs {
        assert!(rt; profile.fed() < MAX_REFERENCES);
        if profile.feed_unless_front(*addr) {
            fronts = fronts.saturating_add(1);
        }
    }
    fronts
}

#[test]
fn references_found_in_front_are_left_to_be_counted(rt: HostRuntime) -> Result<(), Fail> {
    let mut profile = one_set(rt.alloc(), 3)?;
    let fronts = feed_unless_fronts(&rt, &mut profile, &SHORT);
    assert!(rt; fronts == 3 && profile.fed() == 6);
    expect_short(&rt, &mut profile, fronts);
    Ok(())
}

#[test]
fn a_batch_leaves_what_was_not_in_front(rt: HostRuntime) -> Result<(), Fail> {
    let mut profile = one_set(rt.alloc(), 3)?;
    let mut addrs = SHORT;
    let fed = profile.feed_batch(&mut addrs);
    assert!(rt; addrs[..fed] == [0x10, 0x20, 0x18, 0x110, 0x210, 0x12]);
    expect_short(&rt, &mut profile, 3);
    Ok(())
}

#[test]
fn the_second_of_two_is_fed_what_the_first_leaves(rt: HostRuntime) -> Result<(), Fail> {
    let mut first = one_set(rt.alloc(), 3)?;
    let two_sets = Geometry::new(1, 3, 4).ok_or("no geometry")?;
    let mut second = new_profile(rt.alloc(), two_sets)?;
    let mut addrs = SHORT;
    let left = first.feed_batch_with(&mut second, &mut addrs);
    assert!(rt; addrs[..left] == [0x10, 0x20, 0x110, 0x210, 0x12]);
    assert!(rt; second.fed() == 5);
    expect_short(&rt, &mut first, 3);
    Ok(())
}

/// The counts of every associativity are those of a separate simulation.
fn expect_simulations(
    rt: &impl Abort,
    alloc: Global,
    geometry: Geometry,
    mut profile: Profile,
    addrs: &[u64],
) -> Result<(), Fail>
    requires same { profile.geometry ≡ geometry }
    requires unfed { fed_of profile ≡ 0 }
    requires few { length addrs.now ≤ 2 ^ 40 }
{
    feed_all(&mut profile, addrs);
    let access = Access::Read;
    let mut refs = Vec::new(alloc);
    for addr in addrs {
        refs.push(Ref {
            access,
            addr: *addr,
        })?;
    }
    for ways in 1..geometry.e() + 1 {
        let one = Geometry::new(geometry.s(), ways, geometry.b()).ok_or("no geometry")?;
        assert!(rt;
            profile.counts(ways) == simulate(alloc, &one, &refs)?,
            "{ways} ways"
        );
    }
    Ok(())
}

#[test]
fn every_associativity_is_a_simulation(rt: HostRuntime) -> Result<(), Fail> {
    for (s, e, b) in [(0, 5, 4), (1, 3, 4), (2, 2, 3), (0, 12, 0), (3, 1, 5)] {
        let geometry = Geometry::new(s, e, b).ok_or("no geometry")?;
        for addrs in [&SHORT[..], &CYCLIC[..], &[u64::MAX, 0, u64::MAX][..]] {
            let profile = new_profile(rt.alloc(), geometry)?;
            expect_simulations(&rt, rt.alloc(), geometry, profile, addrs)?;
            let sparse = sparse_profile(rt.alloc(), geometry)?;
            expect_simulations(&rt, rt.alloc(), geometry, sparse, addrs)?;
        }
    }
    Ok(())
}
