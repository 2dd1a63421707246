//! Where bytes come from and go to, how often that failed, and how often a sink was flushed.
ghost use Rattle.std.specs.Prelude.{◌≡◌, ◌<◌, ◌≤◌, ◌==◌, None, IfOk, length, if◌then◌else◌};
ghost use Rattle.std.specs.Io.KnownBytes.{ReadConsumes, WriteAppends};
ghost use Rattle.trace_core.specs.Device.{SourceView, SinkView, Gives, Takes, FlushesSink, Writes};

use std::io::{Read, Write};

/// A device failed. It says no more.
#[derive(Clone, Copy, Debug, PartialEq, Eq)]
pub struct DeviceFault;

/// Where bytes come from.
pub trait Source {
    /// The view of a source in contracts: the bytes to come, and how often calls failed so far.
    ghost view: { Self → SourceView };

    /// Puts bytes into the front of `into`, and returns how many. 0 for a nonempty slice means the
    /// end.
    fn read(&mut self, into: &mut [u8]) -> Result<usize, DeviceFault>
        ensures bound { IfOk result (λ n. n ≤ length into.new) }
        ensures gives { Gives (view self.old) (view self.new) result into.new };
}

/// Where bytes go to.
pub trait Sink {
    /// The view of a sink in contracts: the bytes written, and how often calls failed and `flush`
    /// was called so far.
    ghost view: { Self → SinkView };

    /// Takes bytes from the front of `from`, at least one of a nonempty slice, and returns their
    /// number.
    fn write(&mut self, from: &[u8]) -> Result<usize, DeviceFault>
        ensures bound { IfOk result (λ n. n ≤ length from.now) }
        ensures some { IfOk result (λ n. 0 < length from.now → 0 < n) }
        ensures takes { Takes (view self.old) (view self.new) result from.now };

    /// Passes on what a device below holds back. A call that fails is a flush too.
    fn flush(&mut self) -> Result<(), DeviceFault>
        ensures { FlushesSink (view self.old) (view self.new) result };
}

/// A source over a reader. Every error of the reader, `Interrupted` included, is one failure, and
/// it doesn't try again. It reports what the reader reports until a read fails, and nothing
/// afterwards.
#[derive(Drop)]
pub struct FromRead<R: Drop> {
    reader: R,
    failures: u64,
}

impl<R: Read + Drop> FromRead<R> {
    /// A source over this reader, of which no call failed yet.
    pub fn new(reader: R) -> FromRead<R>
        ensures { ⟦<FromRead<R> as Source>⟧.view result
            ≡ record { remaining = R.remaining reader; failures = 0 } }
    {
        FromRead {
            reader,
            failures: 0,
        }
    }
}

impl<R: Read + Drop> Source for FromRead<R> {
    ghost view = { λ s. record {
      remaining = if s.failures == 0 then R.remaining s.reader else None;
      failures = s.failures;
    } };

    fn read(&mut self, into: &mut [u8]) -> Result<usize, DeviceFault>
        // The source's clauses.
        ensures bound { IfOk result (λ n. n ≤ length into.new) }
        ensures gives { let view = ⟦<FromRead<R> as Source>⟧.view in
            Gives (view self.old) (view self.new) result into.new }

        // The bytes that it returns came from the reader, and a failed call took none, also after a
        // failure.
        ensures passed { ReadConsumes (R.remaining self.old.reader)
            (R.remaining self.new.reader) result into.new }
    {
        match self.reader.read(into) {
            Ok(count) => Ok(count),
            Err(_) => {
                self.failures = self.failures.saturating_add(1);
                Err(DeviceFault)
            }
        }
    }
}

/// A sink over a writer. Every error of the writer is one failure, and so is `Ok(0)` for a nonempty
/// slice. It reports what the writer reports until a call fails, and nothing afterwards.
#[derive(Drop)]
pub struct ToWrite<W: Drop> {
    writer: W,
    failures: u64,
    flushes: u64,
}

impl<W: Write + Drop> ToWrite<W> {
    /// A sink over this writer, of which no call failed yet, and which was not flushed.
    pub fn new(writer: W) -> ToWrite<W>
        ensures { ⟦<ToWrite<W> as Sink>⟧.view result
            ≡ record { written = W.contents writer; failures = 0; flushes = 0 } }
    {
        ToWrite {
            writer,
            failures: 0,
            flushes: 0,
        }
    }
}

impl<W: Write + Drop> Sink for ToWrite<W> {
    ghost view = { λ s. record {
      written = if s.failures == 0 then W.contents s.writer else None;
      failures = s.failures;
      flushes = s.flushes;
    } };

    fn write(&mut self, from: &[u8]) -> Result<usize, DeviceFault>
        // The sink's clauses.
        ensures bound { IfOk result (λ n. n ≤ length from.now) }
        ensures some { IfOk result (λ n. 0 < length from.now → 0 < n) }
        ensures takes { let view = ⟦<ToWrite<W> as Sink>⟧.view in
            Takes (view self.old) (view self.new) result from.now }

        // The bytes that it says it took went to the writer, and a failed call passed on none, also
        // after a failure.
        ensures passed { WriteAppends (W.contents self.old.writer)
            (W.contents self.new.writer) result from.now }
    {
        match self.writer.write(from) {
            Ok(count) if count > 0 || from.is_empty() => Ok(count),
            _ => {
                self.failures = self.failures.saturating_add(1);
                Err(DeviceFault)
            }
        }
    }

    fn flush(&mut self) -> Result<(), DeviceFault> {
        self.flushes = self.flushes.saturating_add(1);
        match self.writer.flush() {
            Ok(()) => Ok(()),
            Err(_) => {
                self.failures = self.failures.saturating_add(1);
                Err(DeviceFault)
            }
        }
    }
}

/// Writes all the bytes, in as many calls as it takes. It doesn't flush, and stops at the first
/// failure.
pub fn write_all<S: Sink>(sink: &mut S, bytes: &[u8]) -> Result<(), DeviceFault>
    ensures { Writes (S.view sink.old) (S.view sink.new) result bytes.now }
{
    let mut rest = bytes;
    while !rest.is_empty() {
        let count = sink.write(rest)?;
        let (_, later) = rest.split_at(count);
        rest = later;
    }
    Ok(())
}
