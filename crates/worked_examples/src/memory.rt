//! How often a sweep takes memory: as often for a long trace as for a short one, and whatever the
//! limit on lines.
ghost use Rattle.std.specs.Prelude.{◌≡◌, ◌≤◌, ◌<◌, None, length};

use crate::samples::NINE;
use crate::sweeps::{TABLE, TABLE_OF_ONE_SET, request};
use std::alloc::Global;
use std::process::Abort;
use std::test::Fail;
use sweep_core::sweep::sweep;
use sweep_core::{Request, SweepFault};
use trace_core::devices::{ArraySink, LoopSource};
use trace_core::{DeviceFault, MAX_LINES, Source};

/// A text so many times, which counts its calls.
#[derive(Drop)]
struct Repeated<'a> {
    text: LoopSource<'a>,
    left: usize,
    calls: u64,
}

impl<'a> Repeated<'a> {
    fn new(text: &'a [u8], times: usize) -> Repeated<'a>
        requires { 0 < length text.now }
    {
        Repeated {
            text: LoopSource::new(text),
            left: text.len().saturating_mul(times),
            calls: 0,
        }
    }
}

impl<'a> Source for Repeated<'a> {
    ghost view = { λ _. record { remaining = None; failures = 0 } };

    fn read(&mut self, into: &mut [u8]) -> Result<usize, DeviceFault> {
        self.calls = self.calls.saturating_add(1);
        let most = into.len().min(self.left);
        let count = self.text.read(&mut into[..most])?;
        self.left -= count;
        Ok(count)
    }
}

/// Compares the table of a sweep of the nine lines, `times` over. If memory is refused, nothing was
/// read or written, and the test ends.
fn expect_table(
    rt: &impl Abort,
    alloc: Global,
    request: &Request,
    times: usize,
    written: &[u8],
) -> Result<(), Fail>
    requires some { 1 ≤ request.now.max_lines }
    requires most { request.now.max_lines ≤ MAX_LINES }
{
    let mut source = Repeated::new(NINE, times);
    let mut sink = ArraySink::new(1024, 0);
    let answer = sweep(alloc, request, &mut source, &mut sink);
    if answer == Err(SweepFault::Memory) {
        assert!(rt; (source.calls, sink.calls()) == (0, 0));
    }
    answer?;
    assert!(rt; sink.held() == written);
    Ok(())
}

#[test]
fn a_sweep_of_nine_lines_at_most(rt: HostRuntime) -> Result<(), Fail> {
    let mut both = request(2, (1, 2), (16, 64))?;
    both.max_lines = 9;
    expect_table(&rt, rt.alloc(), &both, 1, TABLE)
}

#[test]
fn a_sweep_of_any_number_of_lines(rt: HostRuntime) -> Result<(), Fail> {
    let both = request(2, (1, 2), (16, 64))?;
    expect_table(&rt, rt.alloc(), &both, 1, TABLE)
}

// After the first time, the block of the last line is that of the first: one hit more for one line
// a set.
#[test]
fn a_sweep_of_nine_thousand_lines(rt: HostRuntime) -> Result<(), Fail> {
    let both = request(2, (1, 2), (16, 64))?;
    let written = b"bsize,sets,assoc,size,hits,misses,evictions\n\
        16,1,1,16,3999,5001,5000\n16,1,2,32,4999,4001,3999\n\
        16,2,1,32,5998,3002,3000\n16,2,2,64,5998,3002,2999\n";
    expect_table(&rt, rt.alloc(), &both, 1000, written)
}

#[test]
fn a_sweep_of_four_associativities(rt: HostRuntime) -> Result<(), Fail> {
    let four = request(1, (1, 4), (0, 1024))?;
    expect_table(&rt, rt.alloc(), &four, 1, TABLE_OF_ONE_SET)
}

#[test]
fn a_sweep_of_the_greatest_associativity(rt: HostRuntime) -> Result<(), Fail> {
    let four = request(1, (4, 4), (0, 1024))?;
    let written = b"bsize,sets,assoc,size,hits,misses,evictions\n16,1,4,64,5,4,0\n";
    expect_table(&rt, rt.alloc(), &four, 1, written)
}
