//! Runs of `csim`, `din`, `log` and `execute` over devices in memory: sources without end, and
//! sources and sinks that fail.
ghost use Rattle.std.specs.Prelude.{◌<◌, ◌≤◌, length};
ghost use Rattle.arguments.specs.Job.{max_lines_of};

use crate::samples::{HANDOUT, HANDOUT_TEXT, NINE, TABLE};
use arguments::Job;
use cache_core::{AllocMode, CacheSpec, FirstLevel, Geometry, Plan, Repl, WriteMode};
use commands::csim::csim;
use commands::din::din;
use commands::execute::execute;
use commands::log::log;
use std::alloc::Global;
use std::process::Abort;
use std::test::Fail;
use sweep_core::{Request, Space};
use trace_core::devices::{ArraySink, LoopSource, TapeSource};
use trace_core::{Format, Kind, LineFault, MAX_LINES, RunFault, TraceFault};

/// A unified cache of one block of 16 bytes.
fn one_block() -> Result<Plan, Fail> {
    let cache = CacheSpec {
        size: 16,
        bsize: 16,
        assoc: 1,
        repl: Repl::Lru,
        wback: WriteMode::Back,
        walloc: AllocMode::Always,
    };
    let first = FirstLevel {
        i: None,
        d: None,
        u: Some(cache),
    };
    Ok(Plan::new(first, None)?)
}

/// Compares the fault of `din` for a text without end, of at most three lines. Nothing is written.
fn expect_endless(
    rt: &impl Abort,
    alloc: Global,
    text: &[u8],
    fault: TraceFault,
) -> Result<(), Fail>
    requires { 0 < length text.now }
{
    let mut source = LoopSource::new(text);
    let mut sink = ArraySink::new(1024, 0);
    let plan = one_block()?;
    let answer = din(alloc, plan, 42, Format::Din, 3, &mut source, &mut sink);
    assert!(rt; sink.calls() == 0);
    if answer == Err(RunFault::Memory) {
        return Err(RunFault::Memory.into());
    }
    assert!(rt; answer == Err(RunFault::Trace(fault)));
    Ok(())
}

#[test]
fn din_ends_though_its_source_does_not(rt: HostRuntime) -> Result<(), Fail> {
    let many = TraceFault::TooManyLines { limit: 3 };
    let long = TraceFault::TooLong { line: 1 };
    expect_endless(&rt, rt.alloc(), b"\n", many)?;
    expect_endless(&rt, rt.alloc(), b"0", long)?;
    expect_endless(&rt, rt.alloc(), b"0 10\n", many)
}

/// Two good lines of the cache lab's handout, and a bad one.
const BAD: &[u8] = b" L 10,1\n M 20,1\n X 22,1";

/// The output of `csim -v -s 4 -E 1 -b 4` for the good ones.
const LINES: &[u8] = b"L 10,1 miss\nM 20,1 miss hit\n";

#[test]
fn csim_writes_the_lines_before_a_bad_one(rt: HostRuntime) -> Result<(), Fail> {
    let mut source = TapeSource::new(BAD, 1, 0);
    let mut sink = ArraySink::new(1, 0);
    let answer = lines_of(&rt, rt.alloc(), &mut source, &mut sink)?;
    let fault = LineFault::Label;
    let fault = TraceFault::Line { line: 3, fault };
    assert!(rt; answer == Err(RunFault::Trace(fault)));
    assert!(rt; sink.held() == LINES);
    Ok(())
}

/// The result of `csim -v -s 4 -E 1 -b 4` over these devices. If memory is refused, nothing was
/// read or written, and the test ends.
fn lines_of(
    rt: &impl Abort,
    alloc: Global,
    source: &mut TapeSource<'_>,
    sink: &mut ArraySink,
) -> Result<Result<(), RunFault>, Fail> {
    let geometry = Geometry::new(4, 1, 4).ok_or("no geometry")?;
    let answer = csim(alloc, geometry, true, MAX_LINES, source, sink);
    if answer == Err(RunFault::Memory) {
        assert!(rt; (source.calls(), sink.calls()) == (0, 0));
        return Err(RunFault::Memory.into());
    }
    Ok(answer)
}

/// The result of `din` over these devices with a cache of one block.
fn report_of(
    rt: &impl Abort,
    alloc: Global,
    source: &mut TapeSource<'_>,
    sink: &mut ArraySink,
) -> Result<Result<(), RunFault>, Fail> {
    let answer = din(
        alloc,
        one_block()?,
        42,
        Format::Din,
        MAX_LINES,
        source,
        sink,
    );
    if answer == Err(RunFault::Memory) {
        assert!(rt; (source.calls(), sink.calls()) == (0, 0));
        return Err(RunFault::Memory.into());
    }
    Ok(answer)
}

#[test]
fn csim_leaves_a_failed_sink_alone(rt: HostRuntime) -> Result<(), Fail> {
    for before in 0..LINES.len() {
        let call = before as u64 + 1;
        let mut source = TapeSource::new(BAD, 100, 0);
        let mut sink = ArraySink::new(1, call);
        let answer = lines_of(&rt, rt.alloc(), &mut source, &mut sink)?;
        assert!(rt; answer == Err(RunFault::Write));
        assert!(rt; sink.held() == &LINES[..before]);
        assert!(rt; sink.calls() == call);
    }
    Ok(())
}

#[test]
fn csim_writes_in_parts_of_any_size(rt: HostRuntime) -> Result<(), Fail> {
    for most in [1, 3, 1024] {
        let mut source = TapeSource::new(HANDOUT, most, 0);
        let mut sink = ArraySink::new(most, 0);
        assert!(rt; lines_of(&rt, rt.alloc(), &mut source, &mut sink)? == Ok(()));
        assert!(rt; sink.held() == HANDOUT_TEXT);
    }
    Ok(())
}

// The summary is written last, and the last call is the flush.
#[test]
fn a_sink_of_csim_fails_at_each_of_its_calls(rt: HostRuntime) -> Result<(), Fail> {
    assert!(rt; HANDOUT_TEXT.len() == 147);
    for before in 0..148usize {
        let call = before as u64 + 1;
        let mut source = TapeSource::new(HANDOUT, 100, 0);
        let mut sink = ArraySink::new(1, call);
        let answer = lines_of(&rt, rt.alloc(), &mut source, &mut sink)?;
        assert!(rt; answer == Err(RunFault::Write));
        assert!(rt; sink.held() == &HANDOUT_TEXT[..before]);
        assert!(rt; sink.calls() == call);
    }
    let mut source = TapeSource::new(HANDOUT, 100, 0);
    let mut sink = ArraySink::new(1, 149);
    assert!(rt; lines_of(&rt, rt.alloc(), &mut source, &mut sink)? == Ok(()));
    assert!(rt; sink.calls() == 148);
    Ok(())
}

#[test]
fn a_source_of_csim_fails_at_each_of_its_calls(rt: HostRuntime) -> Result<(), Fail> {
    // how much of its text stands written, by how many of the first lines were read
    let written = [0, 12, 28, 28];
    for before in 0..BAD.len() {
        let call = before as u64 + 1;
        let mut source = TapeSource::new(BAD, 1, call);
        let mut sink = ArraySink::new(100, 0);
        let whole = BAD[..before].iter().filter(|byte| **byte == b'\n').count();
        let line = (whole as u64).saturating_add(1);
        let fault = RunFault::Trace(TraceFault::Read { line });
        let answer = lines_of(&rt, rt.alloc(), &mut source, &mut sink)?;
        assert!(rt; answer == Err(fault));
        assert!(rt; source.calls() == call);
        assert!(rt; sink.held() == &LINES[..written[whole.min(3)]]);
    }
    Ok(())
}

/// A write and a read of two blocks, and the report of `din` for them with a cache of one.
const TWO_BLOCKS: &[u8] = b"1 0\n0 10\n";

const REPORT: &[u8] = b"l1-u fetches=0 fetch-misses=0 reads=1 read-misses=1 \
    writes=1 write-misses=1 evictions=1 copybacks=1\n\
    memory reads=2 writes=1\n\
    bypassed=0\n";

#[test]
fn din_reports_in_parts_of_any_size(rt: HostRuntime) -> Result<(), Fail> {
    for most in [1, 3, 1024] {
        let mut source = TapeSource::new(TWO_BLOCKS, most, 0);
        let mut sink = ArraySink::new(most, 0);
        assert!(rt; report_of(&rt, rt.alloc(), &mut source, &mut sink)? == Ok(()));
        assert!(rt; sink.held() == REPORT);
    }
    Ok(())
}

#[test]
fn a_sink_of_din_fails_at_each_of_its_calls(rt: HostRuntime) -> Result<(), Fail> {
    for before in 0..=REPORT.len() {
        let call = before as u64 + 1;
        let mut source = TapeSource::new(TWO_BLOCKS, 100, 0);
        let mut sink = ArraySink::new(1, call);
        let answer = report_of(&rt, rt.alloc(), &mut source, &mut sink)?;
        assert!(rt; answer == Err(RunFault::Write));
        assert!(rt; sink.held() == &REPORT[..before]);
        assert!(rt; sink.calls() == call);
    }
    Ok(())
}

#[test]
fn a_source_of_din_fails_at_each_of_its_calls(rt: HostRuntime) -> Result<(), Fail> {
    for before in 0..=TWO_BLOCKS.len() {
        let call = before as u64 + 1;
        let mut source = TapeSource::new(TWO_BLOCKS, 1, call);
        let mut sink = ArraySink::new(100, 0);
        let whole = TWO_BLOCKS[..before]
            .iter()
            .filter(|byte| **byte == b'\n')
            .count();
        let line = (whole as u64).saturating_add(1);
        let fault = RunFault::Trace(TraceFault::Read { line });
        let answer = report_of(&rt, rt.alloc(), &mut source, &mut sink)?;
        assert!(rt; answer == Err(fault));
        assert!(rt; sink.calls() == 0);
    }
    Ok(())
}

/// The output of `log` for the two blocks.
const ARRIVALS: &[u8] = b"l1-u 1 0 miss\n\
    memory 0 0\n\
    l1-u 0 10 miss eviction 0 dirty\n\
    memory 1 0\n\
    memory 0 10\n";

/// The result of `log` over these devices with a cache of one block.
fn arrivals_of(
    rt: &impl Abort,
    alloc: Global,
    source: &mut TapeSource<'_>,
    sink: &mut ArraySink,
) -> Result<Result<(), RunFault>, Fail> {
    let plan = one_block()?;
    let answer = log(alloc, plan, 42, Format::Din, MAX_LINES, source, sink);
    if answer == Err(RunFault::Memory) {
        assert!(rt; (source.calls(), sink.calls()) == (0, 0));
        return Err(RunFault::Memory.into());
    }
    Ok(answer)
}

#[test]
fn log_writes_the_lines_before_a_bad_one(rt: HostRuntime) -> Result<(), Fail> {
    for most in [1, 3, 1024] {
        let mut source = TapeSource::new(b"1 0\n0 10\nx\n", most, 0);
        let mut sink = ArraySink::new(most, 0);
        let answer = arrivals_of(&rt, rt.alloc(), &mut source, &mut sink)?;
        let fault = LineFault::Label;
        let fault = TraceFault::Line { line: 3, fault };
        assert!(rt; answer == Err(RunFault::Trace(fault)));
        assert!(rt; sink.held() == ARRIVALS);
    }
    Ok(())
}

// The last call is the flush.
#[test]
fn a_sink_of_log_fails_at_each_of_its_calls(rt: HostRuntime) -> Result<(), Fail> {
    for before in 0..=ARRIVALS.len() {
        let call = before as u64 + 1;
        let mut source = TapeSource::new(TWO_BLOCKS, 100, 0);
        let mut sink = ArraySink::new(1, call);
        let answer = arrivals_of(&rt, rt.alloc(), &mut source, &mut sink)?;
        assert!(rt; answer == Err(RunFault::Write));
        assert!(rt; sink.held() == &ARRIVALS[..before]);
        assert!(rt; sink.calls() == call);
    }
    Ok(())
}

/// A job succeeds and writes this. If memory is refused, nothing was read or written, and the test
/// ends.
fn expect_done(
    rt: &impl Abort,
    alloc: Global,
    job: &Job,
    text: &[u8],
    written: &[u8],
) -> Result<(), Fail>
    requires some { 1 ≤ max_lines_of job.now }
    requires most { max_lines_of job.now ≤ MAX_LINES }
{
    let mut source = TapeSource::new(text, 100, 0);
    let mut sink = ArraySink::new(100, 0);
    let answer = execute(alloc, job, &mut source, &mut sink);
    if answer == Err(RunFault::Memory) {
        assert!(rt; (source.calls(), sink.calls()) == (0, 0));
    }
    answer?;
    assert!(rt; sink.held() == written);
    Ok(())
}

#[test]
fn a_job_of_sweep(rt: HostRuntime) -> Result<(), Fail> {
    let request = Request {
        space: Space::new((16, 16), (1, 2), (1, 2), (16, 64), false)?,
        kind: Kind::All,
        format: Format::Din,
        after: None,
        rows: None,
        max_lines: MAX_LINES,
    };
    expect_done(&rt, rt.alloc(), &Job::Sweep { request }, NINE, TABLE)
}

#[test]
fn a_job_of_csim(rt: HostRuntime) -> Result<(), Fail> {
    let geometry = Geometry::new(4, 1, 4).ok_or("no geometry")?;
    let job = Job::Csim {
        geometry,
        verbose: true,
        max_lines: MAX_LINES,
    };
    expect_done(&rt, rt.alloc(), &job, HANDOUT, HANDOUT_TEXT)
}

#[test]
fn a_job_of_din(rt: HostRuntime) -> Result<(), Fail> {
    let job = Job::Din {
        plan: one_block()?,
        seed: 42,
        format: Format::Din,
        max_lines: MAX_LINES,
    };
    expect_done(&rt, rt.alloc(), &job, TWO_BLOCKS, REPORT)
}

#[test]
fn a_job_of_log(rt: HostRuntime) -> Result<(), Fail> {
    let job = Job::Log {
        plan: one_block()?,
        seed: 42,
        format: Format::Din,
        max_lines: MAX_LINES,
    };
    expect_done(&rt, rt.alloc(), &job, TWO_BLOCKS, ARRIVALS)
}
