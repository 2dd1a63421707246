//! A buffer of fixed size between a source and a reader.
ghost use Rattle.std.specs.Prelude.{◌≡◌, ℕ, ◌+◌, ◌-◌, ◌<◌, ◌≤◌, List, [], ◌++◌, length, take, drop};
ghost use Rattle.std.specs.Prelude.{slice_range, vec_len, IfOk, OnErr};
ghost use Rattle.std.specs.Io.KnownBytes.{Consumes, IsAtEnd};
ghost use Rattle.trace_core.specs.Device.{CountsFailure, StaysOrUnreported};
ghost use Rattle.trace_core.specs.declared.buffer.TheConstants.{CAPACITY};

use crate::io::{DeviceFault, Source};
use std::alloc::{AllocError, Global};
use std::marker::Model;

/// How many bytes a buffer holds at most.
pub(crate) const CAPACITY: usize = 65536;

/// The bytes that were delivered and not yet consumed.
#[derive(Drop)]
pub(crate) struct Buffer {
    /// Always `CAPACITY` bytes.
    bytes: Vec<u8>,
    /// The index of the first byte that waits.
    start: usize,
    /// The index after the last one.
    end: usize,
}

impl Model for Buffer {
    ghost Value = { List ℕ };

    ghost view = { λ b. slice_range b.bytes.items b.start b.end };

    ghost invariant = { λ b. (b.start ≤ b.end) × (b.end ≤ CAPACITY)
        × (vec_len b.bytes ≡ CAPACITY) };
}

impl Buffer {
    /// An empty buffer, with all its memory.
    pub(crate) fn new(alloc: Global) -> Result<Buffer, AllocError>
        ensures { IfOk result (λ b. b ≡ []) }
    {
        let mut bytes = Vec::new(alloc);
        bytes.resize(CAPACITY, 0)?;
        Ok(Buffer {
            bytes,
            start: 0,
            end: 0,
        })
    }

    /// The bytes that wait, in order.
    #[inline(always)]
    pub(crate) fn as_slice(&self) -> &[u8]
        ensures value { result.now ≡ self.now }
        ensures fits { length self.now ≤ CAPACITY }
    {
        &self.bytes[self.start..self.end]
    }

    /// Drops the first bytes.
    #[inline(always)]
    pub(crate) fn consume(&mut self, count: usize)
        requires { count ≤ length self.old }
        ensures { self.new ≡ drop count self.old }
    {
        self.start += count;
    }

    /// Drops all bytes.
    pub(crate) fn clear(&mut self)
        ensures { self.new ≡ [] }
    {
        self.start = self.end;
    }

    /// Reads as many bytes as still fit, and returns how many came.
    pub(crate) fn refill<S: Source>(&mut self, source: &mut S) -> Result<usize, DeviceFault>
        requires { length self.old < CAPACITY }
        ensures more { IfOk result (λ n. (more : List ℕ) × (length more ≡ n)
            × (self.new ≡ self.old ++ more)
            × Consumes (S.view source.old).remaining (S.view source.new).remaining more) }
        ensures end { IfOk result (λ n. n ≡ 0 → IsAtEnd (S.view source.new).remaining) }
        ensures fits { length self.new ≤ CAPACITY }
        ensures fault { OnErr result ((self.new ≡ self.old)
            × StaysOrUnreported (S.view source.old).remaining (S.view source.new).remaining) }
        ensures counted { CountsFailure
            (S.view source.old).failures (S.view source.new).failures result }
    {
        let held = self.end - self.start;
        shift(&mut self.bytes, self.start, self.end);
        self.start = 0;
        self.end = held;
        let count = source.read(&mut self.bytes[held..])?;
        self.end = held + count;
        Ok(count)
    }
}

/// Moves the bytes from `start` to `end` to the front.
fn shift(bytes: &mut Vec<u8>, start: usize, end: usize)
    requires order { start ≤ end }
    requires within { end ≤ vec_len bytes.old }
    ensures moved { take (end - start) bytes.new.items ≡ slice_range bytes.old.items start end }
    ensures length { vec_len bytes.new ≡ vec_len bytes.old }
{
    if start > 0 {
        bytes.copy_within(start..end, 0);
    }
}
