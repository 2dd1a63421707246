//! The rows of a sweep as values.
use crate::samples::NINE;
use crate::sweeps::request;
use cache_core::Counts;
use std::process::Abort;
use std::test::Fail;
use sweep_core::{Config, SweepCounts, SweepFault};
use trace_core::devices::TapeSource;
use trace_core::{LineFault, TraceFault};

/// A row: block size, sets, associativity, hits, misses and evictions.
fn row(numbers: [u64; 6]) -> (Config, Counts) {
    let [bsize, sets, assoc, hits, misses, evictions] = numbers;
    let config = Config { bsize, sets, assoc };
    let counts = Counts {
        hits,
        misses,
        evictions,
    };
    (config, counts)
}

#[test]
fn rows_come_in_the_order_of_the_table(rt: HostRuntime) -> Result<(), Fail> {
    let mut both = request(2, (1, 2), (16, 64))?;
    let mut source = TapeSource::new(NINE, 7, 0);
    let counts = SweepCounts::read(rt.alloc(), &both, &mut source)?;
    let rows: Vec<(Config, Counts)> = counts.rows().collect(rt.alloc())?;
    let all = [
        row([16, 1, 1, 3, 6, 5]),
        row([16, 1, 2, 4, 5, 3]),
        row([16, 2, 1, 4, 5, 3]),
        row([16, 2, 2, 4, 5, 2]),
    ];
    assert!(&rt; rows.as_slice() == &all[..]);
    assert!(&rt; counts.comparisons() == 21);
    both.after = Some(Config {
        bsize: 16,
        sets: 1,
        assoc: 1,
    });
    both.rows = Some(2);
    let mut source = TapeSource::new(NINE, 7, 0);
    let counts = SweepCounts::read(rt.alloc(), &both, &mut source)?;
    let rows: Vec<(Config, Counts)> = counts.rows().collect(rt.alloc())?;
    assert!(&rt; rows.as_slice() == &all[1..3]);
    Ok(())
}

#[test]
fn a_fault_of_the_trace_gives_no_rows(rt: HostRuntime) -> Result<(), Fail> {
    let both = request(2, (1, 2), (16, 64))?;
    let mut source = TapeSource::new(b"0 10\n0 g\n", 7, 0);
    let found = match SweepCounts::read(rt.alloc(), &both, &mut source) {
        Ok(_) => None,
        Err(found) => Some(found),
    };
    let fault = LineFault::Address;
    assert!(&rt; found == Some(SweepFault::Trace(TraceFault::Line { line: 2, fault })));
    Ok(())
}
