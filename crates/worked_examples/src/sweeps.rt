//! Sweeps: what they return and write, row by row what a separate simulation counts, and what their
//! devices see.
ghost use Rattle.std.specs.Prelude.{◌≡◌, ◌≤◌, IfOk};

use crate::samples::{LACKEY, NINE, fetch, nine_references, read, write};
use cache_core::simulate::simulate;
use cache_core::{Counts, Geometry};
use std::alloc::Global;
use std::fmt::Write;
use std::process::Abort;
use std::test::Fail;
use sweep_core::sweep::sweep;
use sweep_core::{Config, Request, Space, SweepFault};
use trace_core::devices::{ArraySink, TapeSource};
use trace_core::{Format, Kind, LineFault, MAX_LINES, Ref, TraceFault};

/// The table of the nine lines over up to two sets of up to two lines: 108 bytes.
pub const TABLE: &[u8] = b"bsize,sets,assoc,size,hits,misses,evictions\n\
    16,1,1,16,3,6,5\n16,1,2,32,4,5,3\n16,2,1,32,4,5,3\n16,2,2,64,4,5,2\n";

/// The bytes of its first line.
const HEADER_LEN: usize = 44;

/// The bytes of each of its rows.
const ROW_LEN: usize = 16;

/// The table of the nine lines over one set of up to four lines.
pub const TABLE_OF_ONE_SET: &[u8] = b"bsize,sets,assoc,size,hits,misses,evictions\n\
    16,1,1,16,3,6,5\n16,1,2,32,4,5,3\n16,1,3,48,5,4,1\n16,1,4,64,5,4,0\n";

/// A sweep of din texts over blocks of 16 bytes, up to so many sets of these associativities and
/// sizes.
pub fn request(sets: u64, assoc: (u64, u64), size: (u64, u64)) -> Result<Request, Fail>
    ensures { IfOk result (λ request. request.max_lines ≡ MAX_LINES) }
{
    Ok(Request {
        space: Space::new((16, 16), (1, sets), assoc, size, false)?,
        kind: Kind::All,
        format: Format::Din,
        after: None,
        rows: None,
        max_lines: MAX_LINES,
    })
}

/// The result of a sweep, if there was enough memory. If not, nothing was read or written, and the
/// test ends.
fn swept(
    rt: &impl Abort,
    alloc: Global,
    request: &Request,
    source: &mut TapeSource<'_>,
    sink: &mut ArraySink,
) -> Result<Result<u128, SweepFault>, Fail>
    requires some { 1 ≤ request.now.max_lines }
    requires most { request.now.max_lines ≤ MAX_LINES }
{
    let answer = sweep(alloc, request, source, sink);
    if answer == Err(SweepFault::Memory) {
        assert!(rt; (source.calls(), sink.calls()) == (0, 0));
        return Err(SweepFault::Memory.into());
    }
    Ok(answer)
}

/// Compares the result and the table of a sweep, with sinks that take different parts. It flushes
/// once if it succeeds, and else never.
fn expect_sweep(
    rt: &impl Abort,
    alloc: Global,
    request: &Request,
    text: &[u8],
    answer: Result<u128, SweepFault>,
    written: &[u8],
) -> Result<(), Fail>
    requires some { 1 ≤ request.now.max_lines }
    requires most { request.now.max_lines ≤ MAX_LINES }
{
    for most in [1, 3, 1024] {
        let mut source = TapeSource::new(text, 7, 0);
        let mut sink = ArraySink::new(most, 0);
        let found = swept(rt, alloc, request, &mut source, &mut sink)?;
        assert!(rt; found == answer);
        assert!(rt; sink.held() == written);
        if most == 1 {
            let flushes = u64::from(answer.is_ok());
            assert!(rt; sink.calls().saturating_sub(written.len() as u64) == flushes);
        }
    }
    Ok(())
}

#[test]
fn a_sweep_returns_its_comparisons(rt: HostRuntime) -> Result<(), Fail> {
    let mut both = request(2, (1, 2), (16, 64))?;
    expect_sweep(&rt, rt.alloc(), &both, NINE, Ok(21), TABLE)?;
    both.rows = Some(1);
    expect_sweep(
        &rt,
        rt.alloc(),
        &both,
        NINE,
        Ok(12),
        &TABLE[..HEADER_LEN + ROW_LEN],
    )?;
    both.rows = Some(0);
    expect_sweep(&rt, rt.alloc(), &both, NINE, Ok(0), &TABLE[..HEADER_LEN])?;
    both.rows = None;
    let (bsize, sets) = (16, 1);
    both.after = Some(Config {
        bsize,
        sets,
        assoc: 2,
    });
    expect_sweep(
        &rt,
        rt.alloc(),
        &both,
        NINE,
        Ok(9),
        &TABLE[HEADER_LEN + 2 * ROW_LEN..],
    )?;
    let (bsize, sets) = (16, 2);
    both.after = Some(Config {
        bsize,
        sets,
        assoc: 2,
    });
    expect_sweep(&rt, rt.alloc(), &both, NINE, Ok(0), b"")?;
    // the rows of 32 bytes are the second and the third
    let one_size = request(2, (1, 2), (32, 32))?;
    let mut written = TABLE[..HEADER_LEN].to_vec(rt.alloc())?;
    written.extend_from_slice(&TABLE[HEADER_LEN + ROW_LEN..HEADER_LEN + 3 * ROW_LEN])?;
    expect_sweep(&rt, rt.alloc(), &one_size, NINE, Ok(19), &written)?;
    let one_set = request(1, (1, 4), (0, 1024))?;
    expect_sweep(&rt, rt.alloc(), &one_set, NINE, Ok(14), TABLE_OF_ONE_SET)
}

// The whole trace is read even if no row is to be written.
#[test]
fn a_fault_is_reported_where_no_row_is_written(rt: HostRuntime) -> Result<(), Fail> {
    let mut text = NINE.to_vec(rt.alloc())?;
    text.extend_from_slice(b"0 12g")?;
    let fault = LineFault::Address;
    let fault = Err(SweepFault::Trace(TraceFault::Line { line: 10, fault }));
    let mut both = request(2, (1, 2), (16, 64))?;
    expect_sweep(&rt, rt.alloc(), &both, &text, fault, b"")?;
    both.rows = Some(0);
    expect_sweep(&rt, rt.alloc(), &both, &text, fault, b"")?;
    both.rows = None;
    let (bsize, sets) = (16, 2);
    both.after = Some(Config {
        bsize,
        sets,
        assoc: 2,
    });
    expect_sweep(&rt, rt.alloc(), &both, &text, fault, b"")?;
    Ok(())
}

#[test]
fn a_trace_may_have_just_its_lines(rt: HostRuntime) -> Result<(), Fail> {
    let mut both = request(2, (1, 2), (16, 64))?;
    both.max_lines = 9;
    expect_sweep(&rt, rt.alloc(), &both, NINE, Ok(21), TABLE)?;
    both.max_lines = 8;
    let fault = TraceFault::TooManyLines { limit: 8 };
    expect_sweep(
        &rt,
        rt.alloc(),
        &both,
        NINE,
        Err(SweepFault::Trace(fault)),
        b"",
    )?;
    Ok(())
}

#[test]
fn a_source_fails_at_each_of_its_calls(rt: HostRuntime) -> Result<(), Fail> {
    let both = request(2, (1, 2), (16, 64))?;
    for before in 0..48usize {
        let call = before as u64 + 1;
        let mut source = TapeSource::new(NINE, 1, call);
        let mut sink = ArraySink::new(100, 0);
        let whole = NINE[..before].iter().filter(|byte| **byte == b'\n').count();
        let line = (whole as u64).saturating_add(1);
        let fault = SweepFault::Trace(TraceFault::Read { line });
        assert!(rt; swept(&rt, rt.alloc(), &both, &mut source, &mut sink)? == Err(fault));
        assert!(rt; source.calls() == call);
        assert!(rt; sink.calls() == 0);
    }
    let mut source = TapeSource::new(NINE, 1, 49);
    let mut sink = ArraySink::new(100, 0);
    let answer = swept(&rt, rt.alloc(), &both, &mut source, &mut sink)?;
    assert!(rt; answer == Ok(21));
    assert!(rt; source.calls() == 48);
    Ok(())
}

#[test]
fn a_sink_fails_at_each_of_its_calls(rt: HostRuntime) -> Result<(), Fail> {
    let both = request(2, (1, 2), (16, 64))?;
    assert!(rt; TABLE.len() == 108);
    for before in 0..109usize {
        let call = before as u64 + 1;
        let mut source = TapeSource::new(NINE, 100, 0);
        let mut sink = ArraySink::new(1, call);
        let answer = swept(&rt, rt.alloc(), &both, &mut source, &mut sink)?;
        assert!(rt; answer == Err(SweepFault::Write));
        assert!(rt; sink.held() == &TABLE[..before]);
        assert!(rt; sink.calls() == call);
    }
    let mut source = TapeSource::new(NINE, 100, 0);
    let mut sink = ArraySink::new(1, 11);
    let answer = swept(&rt, rt.alloc(), &both, &mut source, &mut sink)?;
    assert!(rt; answer == Err(SweepFault::Write));
    assert!(rt; sink.held() == b"bsize,sets".as_slice());
    Ok(())
}

/// The table of a space by separate simulations.
fn simulated(alloc: Global, space: Space, refs: &[Ref]) -> Result<String, Fail> {
    let mut text = String::from_str(alloc, "bsize,sets,assoc,size,hits,misses,evictions\n")?;
    for config in space.configs(None) {
        let Config { bsize, sets, assoc } = config;
        let s = u64::from(sets.trailing_zeros());
        let b = u64::from(bsize.trailing_zeros());
        let geometry = Geometry::new(s, assoc, b).ok_or("no geometry")?;
        let size = geometry.size();
        let Counts {
            hits,
            misses,
            evictions,
        } = simulate(alloc, &geometry, refs)?;
        writeln!(
            text,
            "{bsize},{sets},{assoc},{size},{hits},{misses},{evictions}"
        )?;
    }
    Ok(text)
}

/// A sweep writes what separate simulations count.
fn expect_simulated(
    rt: &impl Abort,
    alloc: Global,
    request: &Request,
    text: &[u8],
    refs: &[Ref],
) -> Result<(), Fail>
    requires some { 1 ≤ request.now.max_lines }
    requires most { request.now.max_lines ≤ MAX_LINES }
{
    let wanted = simulated(alloc, request.space, refs)?;
    let mut source = TapeSource::new(text, 100, 0);
    let mut sink = ArraySink::new(1024, 0);
    let answer = swept(rt, alloc, request, &mut source, &mut sink)?;
    assert!(rt; answer.is_ok());
    assert!(rt; sink.held() == wanted.as_bytes());
    Ok(())
}

#[test]
fn each_row_is_a_simulation(rt: HostRuntime) -> Result<(), Fail> {
    let refs = nine_references();
    expect_simulated(&rt, rt.alloc(), &request(2, (1, 2), (16, 64))?, NINE, &refs)?;
    expect_simulated(
        &rt,
        rt.alloc(),
        &request(1, (1, 4), (0, 1024))?,
        NINE,
        &refs,
    )?;
    let text = b"0 10\n0 20\n0 30\n0 40\n0 10\n0 20\n0 50\n0 10\n0 20\n0 30\n0 40\n0 50\n";
    let refs = [1, 2, 3, 4, 1, 2, 5, 1, 2, 3, 4, 5].map(|block: u64| read(block.wrapping_mul(16)));
    expect_simulated(
        &rt,
        rt.alloc(),
        &request(1, (1, 5), (0, 1024))?,
        text,
        &refs,
    )
}

#[test]
fn each_kind_is_a_simulation(rt: HostRuntime) -> Result<(), Fail> {
    let (load, store) = (read(0x25_747C), write(0x25_747C));
    let refs = [fetch(0x23_C790), write(0xBE80_199C), load, store];
    let mut one = request(1, (1, 1), (16, 16))?;
    one.format = Format::Lackey;
    for (kind, from, to) in [
        (Kind::All, 0, 4),
        (Kind::DataOnly, 1, 4),
        (Kind::FetchOnly, 0, 1),
    ] {
        let of_kind = Request { kind, ..one };
        expect_simulated(&rt, rt.alloc(), &of_kind, LACKEY, &refs[from..to])?;
    }
    Ok(())
}
