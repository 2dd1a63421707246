//! A worked log of two levels, whose victims lie at other addresses than their numbers.
use cache_core::{AllocMode, CacheSpec, FirstLevel, Plan, Repl, WriteMode};
use commands::log::log;
use std::test::Fail;
use trace_core::devices::{ArraySink, TapeSource};
use trace_core::{Format, MAX_LINES, RunFault};

/// An LRU cache that writes back and allocates.
fn spec(size: u64, bsize: u64, assoc: u64) -> CacheSpec {
    CacheSpec {
        size,
        bsize,
        assoc,
        repl: Repl::Lru,
        wback: WriteMode::Back,
        walloc: AllocMode::Always,
    }
}

/// Writes and reads of data, a fetch, and a flush.
const TRACE: &[u8] = b"1 48\n2 401136\n0 6c\n0 9f\n0 2c\n1 9a\n4 0\n";

/// Worked by hand for two sets of a line of 16 bytes above one set of two lines of 32 bytes.
/// - Block 4 of the first level, at 40, is written; the fetch has no cache.
/// - 6c is in block 6, of the same set: block 4 is copied back to block 2 of the second level, at
///   40, which is there; then block 6 is loaded, at 60, which is in block 3 there.
/// - 9f is in block 9, at 90, of the other set: in the second level that is in block 4, for which
///   block 2 leaves, at 40, dirty since the copyback.
/// - 2c is in block 2, at 20: block 6 leaves, at 60, and in the second level block 3, at 60.
/// - Block 9 is written, and is the dirty one at the flush.
const LOG: &[u8] = b"l1-d 1 48 miss\n\
    l2-u 0 40 miss\n\
    memory 0 40\n\
    bypassed 2 401136\n\
    l1-d 0 6c miss eviction 40 dirty\n\
    l2-u 1 40 hit\n\
    l2-u 0 60 miss\n\
    memory 0 60\n\
    l1-d 0 9f miss\n\
    l2-u 0 90 miss eviction 40 dirty\n\
    memory 1 40\n\
    memory 0 80\n\
    l1-d 0 2c miss eviction 60\n\
    l2-u 0 20 miss eviction 60\n\
    memory 0 20\n\
    l1-d 1 9a hit\n\
    l1-d flush 1\n\
    l2-u flush 0\n";

#[test]
fn a_log_of_two_levels(rt: HostRuntime) -> Result<(), Fail> {
    let first = FirstLevel {
        i: None,
        d: Some(spec(32, 16, 1)),
        u: None,
    };
    let plan = Plan::new(first, Some(spec(64, 32, 2)))?;
    let mut source = TapeSource::new(TRACE, 1024, 0);
    let mut sink = ArraySink::new(1024, 0);
    let answer = log(
        rt.alloc(),
        plan,
        42,
        Format::Din,
        MAX_LINES,
        &mut source,
        &mut sink,
    );
    if answer == Err(RunFault::Memory) {
        return Err(RunFault::Memory.into());
    }
    assert!(rt; answer == Ok(()));
    assert!(rt; sink.held() == LOG);
    Ok(())
}
