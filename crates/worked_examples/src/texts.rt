//! The texts of faults, which no clause states, and the order of configurations.
use cache_core::{CacheName, PlanFault};
use std::alloc::Global;
use std::fmt::Display;
use std::process::Abort;
use std::test::Fail;
use sweep_core::{Cause, Config, SpaceFault, SweepFault, Which};
use trace_core::{LineFault, MAX_LINES, TraceFault};

/// Compares the text as which a value is displayed.
fn expect_text<T: Display>(
    rt: &impl Abort,
    alloc: Global,
    value: &T,
    wanted: &str,
) -> Result<(), Fail> {
    let text = format!(in alloc; "{value}")?;
    assert!(rt; text.as_str() == wanted, "{text}");
    Ok(())
}

#[test]
fn faults_of_a_trace_name_their_line(rt: HostRuntime) -> Result<(), Fail> {
    let line = |fault| TraceFault::Line { line: 7, fault };
    let rows = [
        (line(LineFault::Label), "line 7: bad label"),
        (line(LineFault::Address), "line 7: bad address"),
        (line(LineFault::Size), "line 7: bad size"),
        (TraceFault::Read { line: 1 }, "line 1: read failed"),
        (
            TraceFault::TooLong { line: 10 },
            "line 10: longer than 4096 bytes",
        ),
        (
            TraceFault::TooManyLines { limit: MAX_LINES },
            "more than 1099511627776 lines",
        ),
    ];
    for (fault, wanted) in rows {
        expect_text(&rt, rt.alloc(), &fault, wanted)?;
        expect_text(&rt, rt.alloc(), &SweepFault::Trace(fault), wanted)?;
    }
    Ok(())
}

#[test]
fn faults_of_a_run_have_their_texts(rt: HostRuntime) -> Result<(), Fail> {
    expect_text(&rt, rt.alloc(), &SweepFault::Memory, "out of memory")?;
    expect_text(&rt, rt.alloc(), &SweepFault::Write, "write failed")
}

#[test]
fn faults_of_a_plan_name_the_cache(rt: HostRuntime) -> Result<(), Fail> {
    let geometry = |cache| PlanFault::BadGeometry { cache };
    let rows = [
        (PlanFault::NoFirst, "no first-level cache"),
        (
            PlanFault::MixedFirst,
            "unified cache beside a split first level",
        ),
        (geometry(CacheName::L1I), "l1-i: bad geometry"),
        (geometry(CacheName::L1D), "l1-d: bad geometry"),
        (geometry(CacheName::L1U), "l1-u: bad geometry"),
        (geometry(CacheName::L2U), "l2-u: bad geometry"),
        (
            PlanFault::SmallBlock,
            "l2-u: block size smaller than in the first level",
        ),
    ];
    for (fault, wanted) in rows {
        expect_text(&rt, rt.alloc(), &fault, wanted)?;
    }
    Ok(())
}

#[test]
fn faults_of_a_space_name_the_range(rt: HostRuntime) -> Result<(), Fail> {
    let rows = [
        (Which::Bsize, Cause::NotPower, "bsize: not a power of two"),
        (Which::Sets, Cause::NotPower, "sets: not a power of two"),
        (Which::Bsize, Cause::Limit, "bsize: out of limits"),
        (Which::Sets, Cause::Limit, "sets: out of limits"),
        (Which::Assoc, Cause::Limit, "assoc: out of limits"),
        (Which::Assoc, Cause::Reversed, "assoc: reversed range"),
        (Which::Size, Cause::Reversed, "size: reversed range"),
    ];
    for (which, cause, wanted) in rows {
        let fault = SpaceFault { which, cause };
        expect_text(&rt, rt.alloc(), &fault, wanted)?;
    }
    Ok(())
}

#[test]
fn configurations_are_ordered_as_rows_are(rt: HostRuntime) {
    let config = |bsize, sets, assoc| Config { bsize, sets, assoc };
    assert!(rt; config(16, 64, 64) < config(32, 1, 1));
    assert!(rt; config(16, 1, 64) < config(16, 2, 1));
    assert!(rt; config(16, 1, 1) < config(16, 1, 2));
}
