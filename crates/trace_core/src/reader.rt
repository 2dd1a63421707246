//! Reading a trace.
ghost use Rattle.std.specs.Prelude.{◌≡◌, ◌≢◌, ℕ, ◌+◌, ◌<◌, ◌≤◌, List, ◌++◌, Option, IfOk, IfSome};
ghost use Rattle.trace_core.specs.Device.{SourceView, failures_after};

use crate::ahead::Ahead;
use crate::buffer::Buffer;
use crate::events::{Entry, Item, Op};
use crate::fault::TraceFault;
use crate::io::Source;
pub use crate::limits::{MAX_LINE, MAX_LINES};
use crate::line::Format;
use crate::scan::Scan;
pub use crate::state::ReaderState;
use std::alloc::{AllocError, Global};
use std::marker::Model;

/// A reader of the entries of a trace. Each call must be given the same source, since the reader
/// keeps bytes that were delivered.
#[derive(Drop)]
pub struct Lines {
    scan: Scan,
}

impl Model for Lines {
    ghost use Rattle.trace_core.specs.Reader.{Progress};

    ghost Value = { Progress };

    ghost use Rattle.trace_core.specs.internal.Scan.{progress};

    ghost view = { λ l. progress l.scan };
}

impl Lines {
    ghost use Rattle.trace_core.specs.Reader.{Progress, Reached, Reports, entries_returned};
    ghost use Rattle.trace_core.specs.Reader.{new_progress, device_failed, stopped_result};
    ghost use Rattle.trace_core.specs.Reader.{IsAhead, progress_ahead, CatchesUp};

    /// A reader of lines in a format, of which there may be at most `max_lines`. It takes one
    /// buffer of 64 KiB, whatever the limit, and fails only if there is no memory for it.
    pub fn new(alloc: Global, format: Format, max_lines: u64) -> Result<Lines, AllocError>
        requires some { 1 ≤ max_lines }
        requires most { max_lines ≤ MAX_LINES }
        ensures { IfOk result (λ lines. lines ≡ new_progress format max_lines) }
    {
        Ok(Lines {
            scan: Scan {
                format,
                limit: max_lines,
                lines: 0,
                buffer: Buffer::new(alloc)?,
                state: ReaderState::Open,
                item: Item {
                    op: Op::Load,
                    addr: 0,
                    size: 0,
                },
                plain_room: 0,
            },
        })
    }

    /// The next entry with the number of its line, counted from 1, or `None` at the end. Skipped
    /// lines are counted.
    ///
    /// It fails at the first line that is at fault, or if the source fails before such a line
    /// was delivered. What was delivered is checked before a failure that comes after it.
    #[inline(always)]
    pub fn next<S: Source>(&mut self, source: &mut S) -> Result<Option<(u64, Entry)>, TraceFault>
        // If the reader had returned `xs`, it has now returned `xs` and this call's entry, if any.
        ensures reached { (format : Format) (limit : ℕ) (start : SourceView)
            (xs : List (ℕ × Entry)) → Reached format limit start (S.view source.old) xs self.old →
            Reached format limit start (S.view source.new)
            (xs ++ entries_returned result) self.new }

        // The state reports what was returned. After the end and after a fault the same is returned
        // again, without a read.
        ensures reports { Reports self.new.state result }
        ensures stopped { self.old.state ≢ ReaderState.Open →
            (source.new ≡ source.old) × (self.new ≡ self.old)
            × (result ≡ stopped_result self.old.state) }

        // A failure of the source is counted exactly if an open reader is left with a failed
        // device.
        ensures counted { self.old.state ≡ ReaderState.Open → (S.view source.new).failures
            ≡ failures_after (device_failed self.new.state) (S.view source.old).failures }

        // An entry bears the number of the last line that was read.
        ensures entry { IfOk result (λ found. IfSome found (λ x.
            (x.0 ≡ self.new.lines) × (self.old.lines < self.new.lines))) }
        ensures within { self.new.lines ≤ self.new.limit }
        ensures limited { self.new.limit ≤ MAX_LINES }
        ensures same { (self.new.format ≡ self.old.format) × (self.new.limit ≡ self.old.limit) }
    {
        let mut ahead = Ahead::none();
        let result = self.next_ahead(&mut ahead, source);
        self.scan.pass_over(ahead);
        result
    }

    /// Reads on as `next` does, for a loop that is ahead of its reader: as if the reader had come
    /// as far as the loop. A loop begins with `Ahead::none()`, and hands on to each call what the
    /// last one left. At the end and at a fault the reader has come as far as the loop.
    #[inline(always)]
    pub fn next_ahead<S: Source>(
        &mut self,
        ahead: &mut Ahead,
        source: &mut S,
    ) -> Result<Option<(u64, Entry)>, TraceFault>
        requires { IsAhead self.old ahead.old }
        ensures reached { (format : Format) (limit : ℕ) (start : SourceView)
            (xs : List (ℕ × Entry)) →
            Reached format limit start (S.view source.old) xs (progress_ahead self.old ahead.old) →
            Reached format limit start (S.view source.new)
            (xs ++ entries_returned result) (progress_ahead self.new ahead.new) }
        ensures reports { Reports self.new.state result }
        ensures stopped { self.old.state ≢ ReaderState.Open → (source.new ≡ source.old)
            × (progress_ahead self.new ahead.new ≡ progress_ahead self.old ahead.old)
            × (result ≡ stopped_result self.old.state) }
        ensures counted { self.old.state ≡ ReaderState.Open → (S.view source.new).failures
            ≡ failures_after (device_failed self.new.state) (S.view source.old).failures }
        ensures entry { IfOk result (λ found. IfSome found (λ x.
            (x.0 ≡ ahead.new.lines + self.new.lines)
            × (ahead.old.lines + self.old.lines < ahead.new.lines + self.new.lines))) }
        ensures within { ahead.new.lines + self.new.lines ≤ self.new.limit }
        ensures limited { self.new.limit ≤ MAX_LINES }
        ensures same { (self.new.format ≡ self.old.format) × (self.new.limit ≡ self.old.limit) }
        ensures ahead { IsAhead self.new ahead.new }
        ensures caught_up { CatchesUp result ahead.new }
    {
        match self.scan.next(ahead, source) {
            Some(entry) => Ok(Some(entry)),
            None => match self.scan.state {
                ReaderState::Failed(fault) => Err(fault),
                _ => Ok(None),
            },
        }
    }
}
