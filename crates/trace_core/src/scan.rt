//! The loop of a reader: it takes the lines that a source delivers one by one, and asks for more
//! bytes. What a line means is decided in `line`, and for the usual forms in `plain_line` and
//! `fast_line`; `reader` shows the whole to callers.
ghost use Rattle.std.specs.Prelude.{◌≡◌, ◌≢◌, ℕ, ◌+◌, ◌-◌, ◌<◌, ◌≤◌, List, [], Option, None, Some};
ghost use Rattle.std.specs.Prelude.{length, drop, IfNone, IfSome, OnSome};
ghost use Rattle.std.specs.Option.{option_to_list};
ghost use Rattle.std.specs.Io.KnownBytes.{IsAtEnd};
ghost use Rattle.memchr.specs.Find.{IsFirstByte, is_byte};
ghost use Rattle.trace_core.specs.Device.{SourceView, failures_after};
ghost use Rattle.trace_core.specs.declared.events.Entry.TheVariants as entry;
ghost use Rattle.trace_core.specs.declared.limits.TheConstants.{MAX_LINES};
ghost use Rattle.trace_core.specs.declared.state.ReaderState.TheVariants as reader;
ghost use Rattle.trace_core.specs.Reader.{IsAhead, progress_ahead};
ghost use Rattle.trace_core.specs.internal.Buffer.{IsPlainRoom};

use crate::ahead::Ahead;
use crate::buffer::Buffer;
use crate::events::{Entry, Item};
use crate::fast_line::read_spaced_line;
use crate::fault::TraceFault;
use crate::io::{DeviceFault, Source};
use crate::limits::MAX_LINE;
use crate::line::{Format, read_line};
use crate::plain_line::{PLAIN_ROOM, read_plain_line};
use crate::state::ReaderState;
use memchr::memchr;

/// The fields of `Lines`. They stand apart from its model, since the contracts of the steps name
/// them.
#[derive(Drop)]
pub(crate) struct Scan {
    /// How lines are read.
    pub(crate) format: Format,
    /// The most lines that there may be.
    pub(crate) limit: u64,
    /// How many lines were read, skipped ones among them.
    pub(crate) lines: u64,
    /// The bytes that were delivered and not yet read; none once it has stopped.
    pub(crate) buffer: Buffer,
    /// Whether it goes on, and why not.
    pub(crate) state: ReaderState,
    /// The last item that `search` found.
    pub(crate) item: Item,
    /// How many of the bytes that wait may each be the first of a line that is read as one of the
    /// plain form: enough bytes wait behind it, and the limit allows a line. So one test stands for
    /// both.
    pub(crate) plain_room: usize,
    ghost limited: { limit ≤ MAX_LINES },
    ghost within: { lines ≤ limit },
    ghost plain: { IsPlainRoom (limit - lines) buffer plain_room },
    ghost stopped: { state ≢ reader.Open → buffer ≡ [] },
}

/// The result of `search`. The item itself is in the scan, since a result that fits in a register
/// costs nothing where the next line is of the plain form.
#[derive(Clone, Copy)]
pub(crate) enum Found {
    Item,
    Flush,
    Nothing,
}

impl Scan {
    ghost use Rattle.trace_core.specs.internal.Scan.{progress, left_to_limit, Reads, StepsScan};
    ghost use Rattle.trace_core.specs.internal.Scan.{Judges, KeepsTask, BearsLine, found_in};
    ghost use Rattle.trace_core.specs.Reader.{Advances, device_failed};

    /// Reads on to the next entry, for a loop that is ahead. Without one, the state says why.
    #[inline(always)]
    pub(crate) fn next<S: Source>(
        &mut self,
        ahead: &mut Ahead,
        source: &mut S,
    ) -> Option<(u64, Entry)>
        requires { IsAhead (progress self.old) ahead.old }
        ensures advances { Reads (S.view source.old) (S.view source.new)
            (progress_ahead (progress self.old) ahead.old)
            (progress_ahead (progress self.new) ahead.new) result }
        ensures at_end { self.old.state ≡ ReaderState.Open → self.new.state ≡ ReaderState.Ended →
            IsAtEnd (S.view source.new).remaining }
        ensures counted { self.old.state ≡ ReaderState.Open → (S.view source.new).failures
            ≡ failures_after (device_failed self.new.state) (S.view source.old).failures }
        ensures stopped { self.old.state ≢ ReaderState.Open → (source.new ≡ source.old)
            × (progress_ahead (progress self.new) ahead.new
            ≡ progress_ahead (progress self.old) ahead.old) × (result ≡ None) }
        ensures same { KeepsTask self.old self.new }
        ensures entry { IfSome result (λ x. (x.0 ≡ ahead.new.lines + self.new.lines)
            × (ahead.old.lines + self.old.lines < ahead.new.lines + self.new.lines)) }
        ensures goes_on { OnSome result ((f : TraceFault) → self.new.state ≢ ReaderState.Failed f) }
        ensures none { IfNone result (self.new.state ≢ ReaderState.Open) }
        ensures ahead { IsAhead (progress self.new) ahead.new }
        ensures caught_up { IfNone result (ahead.new ≡ record { lines = 0; bytes = 0 }) }
    {
        if let Some(item) = self.plain_line(ahead) {
            return Some((ahead.lines + self.lines, Entry::Item(item)));
        }
        let found = self.search(*ahead, source);
        *ahead = Ahead::none();
        match found {
            Found::Item => Some((self.lines, Entry::Item(self.item))),
            Found::Flush => Some((self.lines, Entry::Flush)),
            Found::Nothing => None,
        }
    }

    /// Takes a line of the plain form, if one comes next. Most lines are read here. A scan that has
    /// stopped needs no test, since it holds no bytes.
    #[inline(always)]
    fn plain_line(&self, ahead: &mut Ahead) -> Option<Item>
        requires { IsAhead (progress self.now) ahead.old }
        ensures advances { IfSome result (λ item. (v : SourceView) → Reads v v
            (progress_ahead (progress self.now) ahead.old)
            (progress_ahead (progress self.now) ahead.new)
            (Some (ahead.new.lines + self.now.lines, entry.Item item))) }
        ensures line { IfSome result (λ _. ahead.new.lines ≡ ahead.old.lines + 1) }
        ensures ahead { IsAhead (progress self.now) ahead.new }
        ensures open { IfSome result (λ _. self.now.state ≡ ReaderState.Open) }
        ensures none { IfNone result (ahead.new ≡ ahead.old) }
    {
        if ahead.bytes >= self.plain_room {
            return None;
        }
        let (_, unread) = self.buffer.as_slice().split_at(ahead.bytes);
        let (text, _) = unread.split_at(PLAIN_ROOM);
        let (item, len) = read_plain_line(self.format, text)?;
        ahead.bytes += len;
        ahead.lines += 1;
        Some(item)
    }

    /// Passes over what a loop has read. The room for plain lines stays right, since each line has
    /// at least one byte.
    #[inline(always)]
    pub(crate) fn pass_over(&mut self, ahead: Ahead)
        requires { IsAhead (progress self.old) ahead }
        ensures { progress self.new ≡ progress_ahead (progress self.old) ahead }
    {
        self.buffer.consume(ahead.bytes);
        self.lines += ahead.lines;
        self.plain_room = self.plain_room.saturating_sub(ahead.bytes);
    }

    /// Reads on from where a loop is to the next entry, through lines of any form. It is cold, so
    /// that a loop has few jumps for plain lines, and loads only the fields that they need.
    #[cold]
    #[inline(never)]
    fn search<S: Source>(&mut self, ahead: Ahead, source: &mut S) -> Found
        requires { IsAhead (progress self.old) ahead }
        ensures advances { Reads (S.view source.old) (S.view source.new)
            (progress_ahead (progress self.old) ahead) (progress self.new)
            (found_in self.new result) }
        ensures at_end { self.old.state ≡ ReaderState.Open → self.new.state ≡ ReaderState.Ended →
            IsAtEnd (S.view source.new).remaining }
        ensures counted { self.old.state ≡ ReaderState.Open → (S.view source.new).failures
            ≡ failures_after (device_failed self.new.state) (S.view source.old).failures }
        ensures stopped { self.old.state ≢ ReaderState.Open → (source.new ≡ source.old)
            × (progress self.new ≡ progress_ahead (progress self.old) ahead)
            × (found_in self.new result ≡ None) }
        ensures same { KeepsTask self.old self.new }
        ensures entry { IfSome (found_in self.new result) (λ x. (x.0 ≡ self.new.lines)
            × (ahead.lines + self.old.lines < self.new.lines)) }
        ensures goes_on { OnSome (found_in self.new result)
            ((f : TraceFault) → self.new.state ≢ ReaderState.Failed f) }
        ensures none { IfNone (found_in self.new result) (self.new.state ≢ ReaderState.Open) }
    {
        self.pass_over(ahead);
        match self.next_any(source) {
            Some((_, Entry::Item(item))) => {
                self.item = item;
                Found::Item
            }
            Some((_, Entry::Flush)) => Found::Flush,
            None => Found::Nothing,
        }
    }

    /// Takes one step after another, up to an entry.
    #[inline(always)]
    fn next_any<S: Source>(&mut self, source: &mut S) -> Option<(u64, Entry)>
        ensures advances { Reads (S.view source.old) (S.view source.new)
            (progress self.old) (progress self.new) result }
        ensures at_end { self.old.state ≡ ReaderState.Open → self.new.state ≡ ReaderState.Ended →
            IsAtEnd (S.view source.new).remaining }
        ensures counted { self.old.state ≡ ReaderState.Open → (S.view source.new).failures
            ≡ failures_after (device_failed self.new.state) (S.view source.old).failures }
        ensures stopped { self.old.state ≢ ReaderState.Open → (source.new ≡ source.old)
            × (self.new ≡ self.old) × (result ≡ None) }
        ensures same { KeepsTask self.old self.new }
        ensures entry { BearsLine self.old self.new result }
        ensures goes_on { OnSome result ((f : TraceFault) → self.new.state ≢ ReaderState.Failed f) }
        ensures none { IfNone result (self.new.state ≢ ReaderState.Open) }
    {
        while let ReaderState::Open = self.state {
            if let Some(entry) = self.step(source) {
                return Some(entry);
            }
        }
        None
    }

    /// Takes a line that was delivered, or asks for more.
    #[inline(always)]
    fn step<S: Source>(&mut self, source: &mut S) -> Option<(u64, Entry)>
        requires { self.old.state ≡ ReaderState.Open }
        ensures advances { Reads (S.view source.old) (S.view source.new)
            (progress self.old) (progress self.new) result }
        ensures steps { StepsScan (S.view source.old) (S.view source.new) self.old self.new result }
    {
        let unread = self.buffer.as_slice();
        if self.lines == self.limit && !unread.is_empty() {
            self.stop(ReaderState::Failed(TraceFault::TooManyLines { limit: self.limit }));
            return None;
        }
        match read_spaced_line(self.format, unread) {
            Some((item, at)) => Some((self.pass_line(at + 1), Entry::Item(item))),
            None => match memchr(b'\n', unread) {
                Some(at) => self.take_line(at),
                None => self.refill(source),
            },
        }
    }

    /// Stops for the reason that a state says, and drops the bytes that are left.
    fn stop(&mut self, state: ReaderState)
        ensures state { self.new.state ≡ state }
        ensures buffer { self.new.buffer ≡ [] }
        ensures same { KeepsTask self.old self.new }
        ensures lines { self.new.lines ≡ self.old.lines }
    {
        self.plain_room = 0;
        self.buffer.clear();
        self.state = state;
    }

    /// Passes over a line of so many bytes, the LF included, and returns its number.
    #[inline(always)]
    fn pass_line(&mut self, len: usize) -> u64
        requires within { len ≤ length self.old.buffer }
        requires below { self.old.lines < self.old.limit }
        ensures number { result ≡ self.new.lines }
        ensures lines { self.new.lines ≡ self.old.lines + 1 }
        ensures buffer { self.new.buffer ≡ drop len self.old.buffer }
        ensures same { (self.new.format ≡ self.old.format) × (self.new.limit ≡ self.old.limit)
            × (self.new.state ≡ self.old.state) }
    {
        self.buffer.consume(len);
        self.lines += 1;
        self.plain_room = plain_room(self.limit - self.lines, &self.buffer);
        self.lines
    }

    /// Judges the line that ends at an LF.
    #[inline(always)]
    fn take_line(&mut self, at: usize) -> Option<(u64, Entry)>
        requires open { self.old.state ≡ ReaderState.Open }
        requires line { IsFirstByte (is_byte 10) self.old.buffer (Some at) }
        requires below { self.old.lines < self.old.limit }
        ensures advances { (reported : Option (List ℕ)) →
            Advances reported (progress self.old) (progress self.new) [] (option_to_list result) }
        ensures state { self.new.state ≢ ReaderState.Ended }
        ensures judges { Judges self.old self.new result }
        ensures goes_on { OnSome result (self.new.state ≡ ReaderState.Open) }
        ensures nearer { self.new.state ≡ ReaderState.Open →
            left_to_limit self.new < left_to_limit self.old }
    {
        let line = self.lines + 1;
        match judge(self.format, line, &self.buffer.as_slice()[..at]) {
            Ok(entry) => {
                self.pass_line(at + 1);
                entry.map(|entry| (line, entry))
            }
            Err(fault) => {
                self.stop(ReaderState::Failed(fault));
                None
            }
        }
    }

    /// Asks for more bytes, if no whole line is left.
    #[cold]
    #[inline(never)]
    fn refill<S: Source>(&mut self, source: &mut S) -> Option<(u64, Entry)>
        requires open { self.old.state ≡ ReaderState.Open }
        requires no_line { IsFirstByte (is_byte 10) self.old.buffer None }
        requires below { 0 < length self.old.buffer → self.old.lines < self.old.limit }
        ensures advances { Reads (S.view source.old) (S.view source.new)
            (progress self.old) (progress self.new) result }
        ensures steps { StepsScan (S.view source.old) (S.view source.new) self.old self.new result }
        ensures ends { OnSome result (self.new.state ≡ ReaderState.Ended) }
    {
        let line = self.lines + 1;
        if self.buffer.as_slice().len() > MAX_LINE {
            self.stop(ReaderState::Failed(TraceFault::TooLong { line }));
            return None;
        }
        let read = self.buffer.refill(source);
        self.plain_room = plain_room(self.limit - self.lines, &self.buffer);
        match read {
            Ok(0) => self.finish(),
            Ok(_) => None,
            Err(DeviceFault) => {
                self.stop(ReaderState::Failed(TraceFault::Read { line }));
                None
            }
        }
    }

    /// Judges a last line without LF, at the end.
    #[cold]
    #[inline(never)]
    fn finish(&mut self) -> Option<(u64, Entry)>
        requires open { self.old.state ≡ ReaderState.Open }
        requires no_line { IsFirstByte (is_byte 10) self.old.buffer None }
        requires below { 0 < length self.old.buffer → self.old.lines < self.old.limit }
        requires short { length self.old.buffer ≤ MAX_LINE }
        ensures advances { (reported : Option (List ℕ)) → IsAtEnd reported →
            Advances reported (progress self.old) (progress self.new) [] (option_to_list result) }
        ensures state { self.new.state ≢ ReaderState.Open }
        ensures judges { Judges self.old self.new result }
        ensures goes_on { OnSome result (self.new.state ≡ ReaderState.Ended) }
    {
        let unread = self.buffer.as_slice();
        if unread.is_empty() {
            self.stop(ReaderState::Ended);
            return None;
        }
        let line = self.lines + 1;
        match judge(self.format, line, unread) {
            Ok(entry) => {
                self.stop(ReaderState::Ended);
                self.lines = line;
                entry.map(|entry| (line, entry))
            }
            Err(fault) => {
                self.stop(ReaderState::Failed(fault));
                None
            }
        }
    }
}

/// The room for plain lines in a buffer, if so many lines may follow.
#[inline]
fn plain_room(lines: u64, buffer: &Buffer) -> usize
    ensures { IsPlainRoom lines buffer.now result }
{
    let places = buffer.as_slice().len().saturating_sub(PLAIN_ROOM - 1);
    lines.min(places as u64) as usize
}

ghost use Rattle.trace_core.specs.Reading.{judgement};

/// The entry of line number `line`, if it has one, or its fault.
#[inline(always)]
fn judge(format: Format, line: u64, bytes: &[u8]) -> Result<Option<Entry>, TraceFault>
    ensures { (limit : ℕ) → line ≤ limit → result ≡ judgement format limit line bytes.now }
{
    if bytes.len() > MAX_LINE {
        return Err(TraceFault::TooLong { line });
    }
    match read_line(format, bytes) {
        Ok(entry) => Ok(entry),
        Err(fault) => Err(TraceFault::Line { line, fault }),
    }
}
