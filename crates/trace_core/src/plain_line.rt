//! Lines exactly as tracers write them, the form that most have. `None` says nothing of a line:
//! `fast_line` and `line` read each.
//!
//! This way is for speed alone: one test of a text's length stands for those of all parts, and the
//! LF is tested once. `docs/PERF.md` says what that gains.
ghost use Rattle.std.specs.Prelude.{◌≡◌, ℕ, ◌+◌, ◌-◌, ◌*◌, ◌<◌, ◌≤◌, length, drop, Some, IfSome};
ghost use Rattle.std.specs.Prelude.{slice_index};
ghost use Rattle.trace_core.specs.Line.{din_op, lackey_op};
ghost use Rattle.trace_core.specs.internal.FastLine.{BeginsLabel, EndsLine, HoldsLine};
ghost use Rattle.trace_core.specs.internal.FastLine.{HoldsAddress, HoldsSize};

use crate::digits::{hexadecimal_of, split_hexadecimal, split_number};
use crate::events::{Item, Op};
use crate::fast_line::{late_end, split_0x};
use crate::line::{Format, lackey_op};
use crate::nibbles::byte_mask;
use std::simd::prelude::*;

/// How many bytes a text must have for the plain form, so that no step tests for the text's end.
/// Only the last lines of what a source delivered at once are read more slowly for that.
pub(crate) const PLAIN_ROOM: usize = 64;

/// The item of the line that a text begins with, and how many bytes the line has, its LF included,
/// if the blanks are as tracers write them, and the line has at most `PLAIN_ROOM` bytes. An address
/// without `0x`, a size of one digit and an LF at once after them take the fewest steps.
#[inline(always)]
pub(crate) fn read_plain_line(format: Format, text: &[u8]) -> Option<(Item, usize)>
    requires room { PLAIN_ROOM ≤ length text.now }
    ensures line { IfSome result (λ found. HoldsLine format text.now found.0 found.1) }
    ensures short { IfSome result (λ found. found.1 ≤ PLAIN_ROOM) }
{
    match format {
        Format::Din => read_plain_din(text),
        Format::Lackey => read_plain_lackey(text),
    }
}

/// A din line: a label, a space and an address.
#[inline(always)]
fn read_plain_din(text: &[u8]) -> Option<(Item, usize)>
    requires room { PLAIN_ROOM ≤ length text.now }
    ensures line { IfSome result (λ found. HoldsLine Format.Din text.now found.0 found.1) }
    ensures short { IfSome result (λ found. found.1 ≤ PLAIN_ROOM) }
{
    let op = plain_din_op(text)?;
    let (_, rest) = text.split_at(2);
    let len = first_from(text, 3, b'\n') + 1;
    if let Some(addr) = hexadecimal_of(rest, len) {
        return Some((Item { op, addr, size: 0 }, len + 3));
    }
    let (addr, len) = late_address(text, rest)?;
    Some((Item { op, addr, size: 0 }, len))
}

/// The address of a din line of at most `PLAIN_ROOM` bytes with a `0x`, or with a CR or a comment
/// at its end, and the line's length. `rest` is the text after the label and the space.
#[inline(always)]
fn late_address(text: &[u8], rest: &[u8]) -> Option<(u64, usize)>
    requires room { PLAIN_ROOM ≤ length text.now }
    requires rest { rest.now ≡ drop 2 text.now }
    ensures line { IfSome result (λ found. HoldsAddress text.now found.0 found.1) }
    ensures short { IfSome result (λ found. found.1 ≤ PLAIN_ROOM) }
{
    if let Some(digits) = split_0x(rest) {
        let (addr, _, len) = split_hexadecimal(digits)?;
        return Some((addr, late_len(text, text.len() - digits.len() + len)?));
    }
    let (addr, _, len) = split_hexadecimal(rest)?;
    Some((addr, late_len(text, len + 2)?))
}

/// The length of a line of at most `PLAIN_ROOM` bytes whose last field ends at `at`.
#[inline(always)]
fn late_len(text: &[u8], at: usize) -> Option<usize>
    requires room { PLAIN_ROOM ≤ length text.now }
    requires within { at < PLAIN_ROOM }
    ensures some { IfSome result (λ len. 1 ≤ len) }
    ensures line { IfSome result (λ len. EndsLine text.now (drop at text.now) (len - 1)) }
    ensures short { IfSome result (λ len. len ≤ PLAIN_ROOM) }
{
    if text[at] == b'\n' {
        return Some(at + 1);
    }
    let end = late_end(text, at)?;
    if end >= PLAIN_ROOM {
        return None;
    }
    Some(end + 1)
}

/// A lackey line: a label and the spaces beside it, an address, a comma and a size.
#[inline(always)]
fn read_plain_lackey(text: &[u8]) -> Option<(Item, usize)>
    requires room { PLAIN_ROOM ≤ length text.now }
    ensures line { IfSome result (λ found. HoldsLine Format.Lackey text.now found.0 found.1) }
    ensures short { IfSome result (λ found. found.1 ≤ PLAIN_ROOM) }
{
    let op = plain_lackey_op(text)?;
    let (_, rest) = text.split_at(3);
    let len = first_from(text, 4, b',') + 1;
    let addr = hexadecimal_of(rest, len)?;
    // A digit before an LF: both are compared at once.
    let size = two_bytes(text, len + 4).wrapping_sub(0x0A30);
    if size < 10 {
        let size = size as u32;
        return Some((Item { op, addr, size }, len + 6));
    }
    let (size, len) = late_size(text, len + 4)?;
    Some((Item { op, addr, size }, len))
}

/// The size at `at` in a lackey line of at most `PLAIN_ROOM` bytes, if it has more digits than one
/// or more than an LF comes after it, and the line's length. A call of it would cost lines with
/// sizes of two digits thirty instructions.
#[inline(always)]
fn late_size(text: &[u8], at: usize) -> Option<(u32, usize)>
    requires room { PLAIN_ROOM ≤ length text.now }
    requires within { at ≤ 20 }
    ensures line { IfSome result (λ found. HoldsSize text.now at found.0 found.1) }
    ensures short { IfSome result (λ found. found.1 ≤ PLAIN_ROOM) }
{
    let (_, digits) = text.split_at(at);
    let (size, rest) = split_number(10, 9, digits)?;
    Some((size as u32, late_len(text, text.len() - rest.len())?))
}

/// The operation of a din line that begins with its label and a space. Both are compared at once,
/// which saves two instructions.
#[inline(always)]
fn plain_din_op(text: &[u8]) -> Option<Op>
    requires room { 2 ≤ length text.now }
    ensures { IfSome result (λ op. (label : ℕ) × BeginsLabel text.now (drop 2 text.now) label
        × (din_op label ≡ Some op)) }
{
    // `0`, `1` and `2`, each before a space.
    match two_bytes(text, 0) {
        0x2030 => Some(Op::Load),
        0x2031 => Some(Op::Store),
        0x2032 => Some(Op::Fetch),
        _ => None,
    }
}

/// The operation of a lackey line that begins with `I` and two spaces, or with any label between
/// spaces. `I` and a space are compared at once, since most lines begin so, which saves three
/// instructions.
#[inline(always)]
fn plain_lackey_op(text: &[u8]) -> Option<Op>
    requires room { 3 ≤ length text.now }
    ensures { IfSome result (λ op. (label : ℕ) × BeginsLabel text.now (drop 3 text.now) label
        × (lackey_op label ≡ Some op)) }
{
    if text[2] != b' ' {
        return None;
    }
    // `I` before a space.
    if two_bytes(text, 0) == 0x2049 {
        return Some(Op::Fetch);
    }
    if text[0] != b' ' {
        return None;
    }
    lackey_op(text[1])
}

/// The two bytes at an index as one number, the first as its lower part. Where each is read by
/// itself, the compiler doesn't join the two reads in every loop.
#[inline(always)]
fn two_bytes(text: &[u8], at: usize) -> u16
    requires { at + 2 ≤ length text.now }
    ensures { result ≡ slice_index text.now at + slice_index text.now (at + 1) * 256 }
{
    let Some(pair) = text[at..].first_chunk::<2>() else {
        unreachable!()
    };
    u16::from_le_bytes(*pair)
}

/// How far behind an index a byte comes first, if it is one of the sixteen there. The byte that
/// ends an address tells where the next line begins, and so no line waits for the digits before it.
#[inline(always)]
fn first_from(text: &[u8], at: usize, byte: u8) -> usize
    requires room { at + 16 ≤ length text.now }
    ensures byte { result < 16 → slice_index text.now (at + result) ≡ byte }
    ensures most { result ≤ 64 }
{
    let (_, rest) = text.split_at(at);
    byte_mask(u8x16::from_slice(rest), byte).trailing_zeros() as usize
}
