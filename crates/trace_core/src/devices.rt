//! Devices over memory, for tests. The program uses none of them. They are in this library, the
//! lowest one, because callers of each library test their own code with them.
ghost use Rattle.std.specs.Prelude.{◌≡◌, ◌+◌, ◌-◌, ◌<◌, ◌≤◌, [], ◌++◌, None, Some, IsOk, IsErr};
ghost use Rattle.std.specs.Prelude.{IfOk, ◌↔◌, ◌⊎◌, length, take, drop, min};
ghost use Rattle.trace_core.specs.Device.{CountsFailure, Gives, Takes, one_more};

use crate::io::{DeviceFault, Sink, Source};
use std::marker::Model;

/// The calls of a device: how many were made, which one fails (0: none), and how many failed. Both
/// counts stay at `u64::MAX` once they reach it.
#[derive(Drop)]
struct Calls {
    made: u64,
    fails_at: u64,
    failures: u64,
}

impl Calls {
    /// The calls of a device that was not called yet.
    fn new(fails_at: u64) -> Calls
        ensures made { result.made ≡ 0 }
        ensures fails_at { result.fails_at ≡ fails_at }
        ensures failures { result.failures ≡ 0 }
    {
        Calls {
            made: 0,
            fails_at,
            failures: 0,
        }
    }

    /// Counts a call, which fails if it is the one that fails.
    fn begin(&mut self) -> Result<(), DeviceFault>
        ensures made { self.new.made ≡ one_more self.old.made }
        ensures fails { IsErr result ↔ (self.old.made + 1 ≡ self.old.fails_at) }
        ensures counted { CountsFailure self.old.failures self.new.failures result }
        ensures same { self.new.fails_at ≡ self.old.fails_at }
    {
        let number = self.made.checked_add(1);
        self.made = self.made.saturating_add(1);
        if number == Some(self.fails_at) {
            return Err(self.fail());
        }
        Ok(())
    }

    /// Counts a failure.
    fn fail(&mut self) -> DeviceFault
        ensures { self.new ≡ record self.old { failures = one_more self.old.failures } }
    {
        self.failures = self.failures.saturating_add(1);
        DeviceFault
    }
}

/// A text that is given in pieces.
#[derive(Drop)]
pub struct TapeSource<'a> {
    rest: &'a [u8],
    most: usize,
    reads: Calls,
}

impl<'a> Model for TapeSource<'a> {
    ghost use Rattle.std.specs.Prelude.{◌<◌};
    ghost use Rattle.trace_core.specs.internal.Devices.{TapeState};

    ghost Value = { TapeState };

    ghost view = { λ s. record {
      rest = s.rest.now;
      most = s.most;
      fails_at = s.reads.fails_at;
      calls = s.reads.made;
      failures = s.reads.failures;
    } };

    ghost invariant = { λ s. 0 < s.most };
}

impl<'a> TapeSource<'a> {
    /// A source of `text` that gives at most `most` bytes a call, and whose call number `fails_at`
    /// fails (0: none). It goes on with the text after a failure.
    pub fn new(text: &'a [u8], most: usize, fails_at: u64) -> TapeSource<'a>
        requires { 0 < most }
        ensures view { ⟦<TapeSource<'a> as Source>⟧.view result
            ≡ record { remaining = Some text.entry.now; failures = 0 } }
        ensures calls { (result.calls ≡ 0) × (result.fails_at ≡ fails_at) }
        ensures most { result.most ≡ most }
    {
        TapeSource {
            rest: text,
            most,
            reads: Calls::new(fails_at),
        }
    }

    /// How many calls were made, up to `u64::MAX`.
    pub fn calls(&self) -> u64
        ensures { result ≡ self.now.calls }
    {
        self.reads.made
    }
}

impl<'a> Source for TapeSource<'a> {
    ghost view = { λ s. record { remaining = Some s.rest; failures = s.failures } };

    fn read(&mut self, into: &mut [u8]) -> Result<usize, DeviceFault>
        // The source's clauses.
        ensures bound { IfOk result (λ n. n ≤ length into.new) }
        ensures gives { let view = ⟦<TapeSource<'a> as Source>⟧.view in
            Gives (view self.old) (view self.new) result into.new }

        // Each is a call, and just the one with the number `fails_at` fails.
        ensures one_call { self.new.calls ≡ one_more self.old.calls }
        ensures fails { IsErr result ↔ (self.old.calls + 1 ≡ self.old.fails_at) }

        // The others give as much as there is, up to `most` and the length of `into`.
        ensures given { IfOk result (λ n.
            n ≡ min self.old.most (min (length self.old.rest) (length into.old))) }
        ensures same { (self.new.most ≡ self.old.most) × (self.new.fails_at ≡ self.old.fails_at) }
    {
        self.reads.begin()?;
        let rest = self.rest;
        let count = self.most.min(rest.len()).min(into.len());
        let (given, later) = rest.split_at(count);
        into[..count].copy_from_slice(given);
        self.rest = later;
        Ok(count)
    }
}

/// A text that is given again and again, without end. It reports nothing, and never fails.
#[derive(Drop)]
pub struct LoopSource<'a> {
    text: &'a [u8],
    at: usize,
}

impl<'a> Model for LoopSource<'a> {
    ghost use Rattle.std.specs.Prelude.{ℕ, ◌<◌, ◌≤◌, List, ◌++◌, length, take, drop};

    /// The text from where it goes on, and round to there.
    ghost Value = { List ℕ };

    ghost view = { λ s. drop s.at s.text.now ++ take s.at s.text.now };

    ghost invariant = { λ s. (s.at ≤ length s.text.now) × (0 < length s.text.now) };
}

impl<'a> LoopSource<'a> {
    /// A source of a text, from its first byte on and over again.
    pub fn new(text: &'a [u8]) -> LoopSource<'a>
        requires { 0 < length text.now }
        ensures { result ≡ text.entry.now }
    {
        LoopSource { text, at: 0 }
    }
}

impl<'a> Source for LoopSource<'a> {
    ghost view = { λ _. record { remaining = None; failures = 0 } };

    fn read(&mut self, into: &mut [u8]) -> Result<usize, DeviceFault>
        // The source's clauses, which say little if nothing is reported.
        ensures bound { IfOk result (λ n. n ≤ length into.new) }
        ensures gives { let view = ⟦<LoopSource<'a> as Source>⟧.view in
            Gives (view self.old) (view self.new) result into.new }

        // It gives the first bytes of its round, and these come last in the next one.
        ensures ok { IsOk result }
        ensures some { IfOk result (λ n. 0 < length into.old → 0 < n) }
        ensures given { IfOk result (λ n. take n into.new ≡ take n self.old) }
        ensures turned { IfOk result (λ n. self.new ≡ drop n self.old ++ take n self.old) }
    {
        if self.at >= self.text.len() {
            self.at = 0;
        }
        let rest = &self.text[self.at..];
        let count = rest.len().min(into.len());
        into[..count].copy_from_slice(&rest[..count]);
        self.at += count;
        Ok(count)
    }
}

/// How many bytes an `ArraySink` holds at most.
pub const SINK_CAPACITY: usize = 1024;

/// A sink that keeps what is written to it, in pieces, and shows it. It holds at most
/// `SINK_CAPACITY` bytes.
#[derive(Drop)]
pub struct ArraySink {
    bytes: [u8; SINK_CAPACITY],
    filled: usize,
    most: usize,
    calls: Calls,
    flushes: u64,
}

impl Model for ArraySink {
    ghost use Rattle.std.specs.Prelude.{◌<◌, ◌≤◌, take};
    ghost use Rattle.trace_core.specs.internal.Devices.{ArrayState};
    ghost use Rattle.trace_core.specs.declared.devices.TheConstants.{SINK_CAPACITY};

    ghost Value = { ArrayState };

    ghost view = { λ s. record {
      bytes = take s.filled s.bytes;
      most = s.most;
      fails_at = s.calls.fails_at;
      calls = s.calls.made;
      failures = s.calls.failures;
      flushes = s.flushes;
    } };

    ghost invariant = { λ s. (s.filled ≤ SINK_CAPACITY) × (0 < s.most) };
}

impl ArraySink {
    /// A sink that takes at most `most` bytes a call, and whose call number `fails_at` fails (0:
    /// none); a flush is a call. It takes more after a failure, but fails each nonempty write when
    /// it is full.
    pub fn new(most: usize, fails_at: u64) -> ArraySink
        requires { 0 < most }
        ensures view { ⟦<ArraySink as Sink>⟧.view result
            ≡ record { written = Some []; failures = 0; flushes = 0 } }
        ensures calls { (result.calls ≡ 0) × (result.fails_at ≡ fails_at) }
        ensures most { result.most ≡ most }
    {
        ArraySink {
            bytes: [0; SINK_CAPACITY],
            filled: 0,
            most,
            calls: Calls::new(fails_at),
            flushes: 0,
        }
    }

    /// The bytes that were written.
    pub fn held(&self) -> &[u8]
        ensures { (⟦<ArraySink as Sink>⟧.view self.now).written ≡ Some result.now }
    {
        &self.bytes[..self.filled]
    }

    /// How many calls were made, up to `u64::MAX`.
    pub fn calls(&self) -> u64
        ensures { result ≡ self.now.calls }
    {
        self.calls.made
    }
}

impl Sink for ArraySink {
    ghost view = { λ s. record {
      written = Some s.bytes;
      failures = s.failures;
      flushes = s.flushes;
    } };

    fn write(&mut self, from: &[u8]) -> Result<usize, DeviceFault>
        // The sink's clauses.
        ensures bound { IfOk result (λ n. n ≤ length from.now) }
        ensures some { IfOk result (λ n. 0 < length from.now → 0 < n) }
        ensures takes { let view = ⟦<ArraySink as Sink>⟧.view in
            Takes (view self.old) (view self.new) result from.now }

        // Each is a call. It fails exactly if it has the number `fails_at`, or has bytes for a full
        // sink.
        ensures one_call { self.new.calls ≡ one_more self.old.calls }
        ensures fails { IsErr result ↔ ((self.old.calls + 1 ≡ self.old.fails_at)
            ⊎ ((length self.old.bytes ≡ SINK_CAPACITY) × (0 < length from.now))) }

        // The others take as much as there is, up to `most` and what still fits.
        ensures taken { IfOk result (λ n.
            n ≡ min self.old.most (min (SINK_CAPACITY - length self.old.bytes) (length from.now))) }
        ensures same { (self.new.most ≡ self.old.most) × (self.new.fails_at ≡ self.old.fails_at) }
    {
        self.calls.begin()?;
        let left = SINK_CAPACITY - self.filled;
        if left == 0 && !from.is_empty() {
            return Err(self.calls.fail());
        }
        let count = self.most.min(left).min(from.len());
        let end = self.filled + count;
        self.bytes[self.filled..end].copy_from_slice(&from[..count]);
        self.filled = end;
        Ok(count)
    }

    fn flush(&mut self) -> Result<(), DeviceFault>
        // The sink's clauses: it holds nothing back.
        ensures bytes { self.new.bytes ≡ self.old.bytes }
        ensures counted { CountsFailure self.old.failures self.new.failures result }
        ensures flushed { self.new.flushes ≡ one_more self.old.flushes }

        // A flush is a call like a write.
        ensures one_call { self.new.calls ≡ one_more self.old.calls }
        ensures fails { IsErr result ↔ (self.old.calls + 1 ≡ self.old.fails_at) }
        ensures same { (self.new.most ≡ self.old.most) × (self.new.fails_at ≡ self.old.fails_at) }
    {
        self.flushes = self.flushes.saturating_add(1);
        self.calls.begin()
    }
}
