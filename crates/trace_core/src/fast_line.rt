//! Lines of the usual form with any blanks beside the label, read in one pass from their front.
//! `None` says nothing of a line: `line::read_line` then checks it.
//!
//! This way is for speed alone. A reader that never took it would meet each contract, and read most
//! traces several times slower: only `tests/limits` sees that.
ghost use Rattle.std.specs.Prelude.{◌≡◌, ℕ, ◌≤◌, List, ◌++◌, true, Ok, Some, IfSome};
ghost use Rattle.std.specs.Prelude.{take, drop, length, ◌+◌, MatchOption};
ghost use Rattle.std.specs.List.{list_all};
ghost use Rattle.memchr.specs.Find.{IsFirstByte, is_byte};
ghost use Rattle.trace_core.specs.Fields.{is_blank, number_written, without_0x};
ghost use Rattle.trace_core.specs.Line.{meaning};
ghost use Rattle.trace_core.specs.internal.FastLine.{BeginsLine, BeginsLabel, EndsLine};
ghost use Rattle.trace_core.specs.declared.events.Entry.TheVariants as entry;

use crate::digits::{split_hexadecimal, split_number};
use crate::events::{Entry, Item, Op};
use crate::limits::MAX_LINE;
use crate::line::{Format, din_op, lackey_op};
use memchr::memchr;

/// The item of the line that a text begins with, and the index of the line's LF, if the line has
/// the usual form. Without it a sweep of one cache over two million lines that are padded with
/// blanks takes 1.7 times as long, and `din` 1.6 times.
#[inline(always)]
pub(crate) fn read_spaced_line(format: Format, text: &[u8]) -> Option<(Item, usize)>
    ensures line { IfSome result (λ found. IsFirstByte (is_byte 10) text.now (Some found.1)) }
    ensures short { IfSome result (λ found. found.1 ≤ MAX_LINE) }
    ensures item { IfSome result (λ found.
        meaning format (take found.1 text.now) ≡ Ok (Some (Entry.Item found.0))) }
{
    let (label, fields) = split_label(text)?;
    let (item, at) = read_item(format, text, label, fields)?;
    if at <= MAX_LINE && at < text.len() && text[at] == b'\n' {
        return Some((item, at));
    }
    let end = late_end(text, at)?;
    Some((item, end))
}

/// The index of a line's LF in its text, if it comes after a CR, or after a blank and a comment.
/// The last field that matters ends at `at`.
#[inline(never)]
pub(crate) fn late_end(text: &[u8], at: usize) -> Option<usize>
    requires { at ≤ length text.now }
    ensures line { IfSome result (λ end. EndsLine text.now (drop at text.now) end) }
    ensures short { IfSome result (λ end. end ≤ MAX_LINE) }
{
    let (_, rest) = text.split_at(at);
    let after = match rest {
        [b'\r', b'\n', ..] => 1,
        [b' ' | b'\t', ..] => memchr(b'\n', rest)?,
        _ => return None,
    };
    let end = at + after;
    if end > MAX_LINE {
        return None;
    }
    Some(end)
}

/// The item of a text that begins with this label, and where its last field ends, if a field ends
/// there. The other fields are in `rest`, the end of the text.
#[inline(always)]
fn read_item(format: Format, text: &[u8], label: u8, rest: &[u8]) -> Option<(Item, usize)>
    requires begun { BeginsLabel text.now rest.now label }
    requires within { length rest.now ≤ length text.now }
    ensures begins { IfSome result (λ found.
        BeginsLine format text.now (drop found.1 text.now) found.0) }
    ensures near { IfSome result (λ found. found.1 ≤ length text.now) }
{
    match format {
        Format::Din => read_din_item(text, label, rest),
        Format::Lackey => read_lackey_item(text, label, rest),
    }
}

/// The item of a din line: an address follows the label.
#[inline(always)]
fn read_din_item(text: &[u8], label: u8, rest: &[u8]) -> Option<(Item, usize)>
    requires begun { BeginsLabel text.now rest.now label }
    requires within { length rest.now ≤ length text.now }
    ensures begins { IfSome result (λ found.
        BeginsLine Format.Din text.now (drop found.1 text.now) found.0) }
    ensures near { IfSome result (λ found. found.1 ≤ length text.now) }
{
    let op = din_op(label)?;
    // Each way has an end of its own, so that it is a sum of few terms.
    if let Some(digits) = split_0x(rest) {
        let (addr, _, len) = split_hexadecimal(digits)?;
        return Some((Item { op, addr, size: 0 }, text.len() - digits.len() + len));
    }
    let (addr, _, len) = split_hexadecimal(rest)?;
    Some((Item { op, addr, size: 0 }, text.len() - rest.len() + len))
}

/// The text after a `0x` or `0X` in front, if it has one.
#[inline(always)]
pub(crate) fn split_0x(text: &[u8]) -> Option<&[u8]>
    ensures value { MatchOption result (without_0x text.now ≡ text.now)
        (λ digits. without_0x text.now ≡ digits.now) }
    ensures near { IfSome result (λ digits. (length text.now ≤ length digits.now + 2)
        × (length digits.now ≤ length text.now)) }
{
    match text {
        [b'0', b'x' | b'X', digits @ ..] => Some(digits),
        _ => None,
    }
}

/// The item of a lackey line: an address, a comma and a size follow the label.
#[inline(always)]
fn read_lackey_item(text: &[u8], label: u8, rest: &[u8]) -> Option<(Item, usize)>
    requires begun { BeginsLabel text.now rest.now label }
    requires within { length rest.now ≤ length text.now }
    ensures begins { IfSome result (λ found.
        BeginsLine Format.Lackey text.now (drop found.1 text.now) found.0) }
    ensures near { IfSome result (λ found. found.1 ≤ length text.now) }
{
    let op = lackey_op(label)?;
    let (addr, after, len) = split_hexadecimal(rest)?;
    let [b',', decimals @ ..] = after else {
        return None;
    };
    if let Some((size, _)) = split_one_digit(decimals) {
        return Some((Item { op, addr, size }, text.len() - rest.len() + len + 2));
    }
    let (size, rest) = split_number(10, 9, decimals)?;
    let size = size as u32;
    Some((Item { op, addr, size }, text.len() - rest.len()))
}

/// A size of one digit that ends its line, and what follows it. Most sizes of a lackey trace do.
#[inline(always)]
fn split_one_digit(text: &[u8]) -> Option<(u32, &[u8])>
    ensures parts { IfSome result (λ parts. (digits : List ℕ) × (text.now ≡ digits ++ parts.1.now)
        × (number_written 10 9 digits ≡ Some parts.0)) }
    ensures near { IfSome result (λ parts. length text.now ≡ length parts.1.now + 1) }
{
    match text {
        [digit @ b'0'..=b'9', rest @ ..] => match rest {
            [b'\n', ..] => Some(((*digit - b'0') as u32, rest)),
            _ => None,
        },
        _ => None,
    }
}

/// A label of one byte with a blank after it, and what comes after the blanks.
#[inline(always)]
fn split_label(text: &[u8]) -> Option<(u8, &[u8])>
    ensures { IfSome result (λ parts. BeginsLabel text.now parts.1.now parts.0) }
{
    match skip_blanks(text) {
        [label, b' ' | b'\t', rest @ ..] => Some((*label, skip_blanks(rest))),
        _ => None,
    }
}

/// The bytes without the blanks in front.
#[inline(always)]
fn skip_blanks(bytes: &[u8]) -> &[u8]
    ensures { (blanks : List ℕ) × (bytes.now ≡ blanks ++ result.now)
        × (list_all is_blank blanks ≡ true) }
{
    let mut rest = bytes;
    while let [b' ' | b'\t', more @ ..] = rest {
        rest = more;
    }
    rest
}
