//! Judging one line.
ghost use Rattle.std.specs.Prelude.{◌≡◌, ◌+◌, ◌≤◌, [], ◌∷◌, length, MatchOption, Some};
ghost use Rattle.std.specs.List.{position_or_len, before_first, after_first};
ghost use Rattle.trace_core.specs.Fields.{is_blank, is_field_byte, is_trailing};
ghost use Rattle.trace_core.specs.Fields.{without_trailing, fields};
ghost use Rattle.trace_core.specs.Fields.{without_0x};
ghost use Rattle.trace_core.specs.Line.{meaning, din_meaning, din_address, din_entry, din_op};
ghost use Rattle.trace_core.specs.Line.{lackey_meaning, lackey_access, lackey_op, is_comma};
ghost use Rattle.trace_core.specs.Line.{din_label, op_of};

use crate::digits::read_number;
use crate::events::{Access, Entry, Item, Op};
use memchr::memchr;
use thiserror::Error;

/// How lines are written.
#[derive(Clone, Copy, Debug, PartialEq, Eq)]
pub enum Format {
    /// Dinero's traditional format: a label `0` (load), `1` (store), `2` (fetch) or, extensions of
    /// this project, `3` (ignored) or `4` (flush); and a hexadecimal address. What follows is
    /// ignored.
    Din,
    /// The log of Valgrind's Lackey with `--trace-mem=yes`: `I`, `L`, `S` or `M`, a hexadecimal
    /// address, a comma and a decimal size. A line that begins with `=`, `-` or `*` is skipped.
    Lackey,
}

/// The leftmost field of a line that is wrong.
#[derive(Clone, Copy, Debug, PartialEq, Eq, Error)]
pub enum LineFault {
    #[error("bad label")]
    Label,
    #[error("bad address")]
    Address,
    #[error("bad size")]
    Size,
}

/// The meaning of a line, given without its LF: an entry, or nothing if it is skipped. It may
/// have any length, and a byte 10 in it is a byte like any other.
pub fn read_line(format: Format, line: &[u8]) -> Result<Option<Entry>, LineFault>
    ensures { result ≡ meaning format line.now }
{
    match format {
        Format::Din => read_din(trim_end(line)),
        Format::Lackey => match line {
            [b'=' | b'-' | b'*', ..] => Ok(None),
            _ => read_lackey(trim_end(line)),
        },
    }
}

/// The meaning of a din line, given without the blanks and CRs at its end.
fn read_din(line: &[u8]) -> Result<Option<Entry>, LineFault>
    ensures { result ≡ din_meaning (fields line.now) }
{
    let Some((label, rest)) = split_field(line) else {
        return Ok(None);
    };
    let [label @ b'0'..=b'4'] = *label else {
        return Err(LineFault::Label);
    };
    let Some(addr) = read_din_address(rest) else {
        return Err(LineFault::Address);
    };
    Ok(din_entry(label, addr))
}

/// The meaning of a din line with one of the labels `0` to `4`.
fn din_entry(label: u8, addr: u64) -> Option<Entry>
    ensures { result ≡ din_entry label addr }
{
    match din_op(label) {
        Some(op) => Some(Entry::Item(Item { op, addr, size: 0 })),
        None if label == b'3' => None,
        None => Some(Entry::Flush),
    }
}

/// The operation of a din line with this label, if it has one.
#[inline(always)]
pub(crate) fn din_op(label: u8) -> Option<Op>
    ensures { result ≡ din_op label }
{
    match label {
        b'0' => Some(Op::Load),
        b'1' => Some(Op::Store),
        b'2' => Some(Op::Fetch),
        _ => None,
    }
}

/// The label of a reference in a din trace.
#[inline(always)]
pub fn din_label(access: Access) -> u8
    ensures label { result ≡ din_label access }
    ensures meant { din_op result ≡ Some (op_of access) }
{
    match access {
        Access::Read => b'0',
        Access::Write => b'1',
        Access::Fetch => b'2',
    }
}

/// The address in the first field, after a `0x` if there is one.
fn read_din_address(rest: &[u8]) -> Option<u64>
    ensures { result ≡ din_address (fields rest.now) }
{
    let (field, _) = split_field(rest)?;
    read_number(16, 16, without_0x(field))
}

/// The text without a `0x` or `0X` in front.
#[inline(always)]
pub(crate) fn without_0x(text: &[u8]) -> &[u8]
    ensures value { result.now ≡ without_0x text.now }
    ensures near { length text.now ≤ length result.now + 2 }
{
    match text {
        [b'0', b'x' | b'X', digits @ ..] => digits,
        _ => text,
    }
}

/// The meaning of a lackey line that is not one of Valgrind's messages, given without the blanks
/// and CRs at its end.
fn read_lackey(line: &[u8]) -> Result<Option<Entry>, LineFault>
    ensures { result ≡ lackey_meaning (fields line.now) }
{
    let Some((label, rest)) = split_field(line) else {
        return Ok(None);
    };
    let [label] = *label else {
        return Err(LineFault::Label);
    };
    let Some(op) = lackey_op(label) else {
        return Err(LineFault::Label);
    };
    read_lackey_access(op, rest)
}

/// The table's entry for a byte that is no label.
const NO_OP: Option<Op> = None;
/// The table's entries for the labels.
const FETCH: Option<Op> = Some(Op::Fetch);

const LOAD: Option<Op> = Some(Op::Load);

const MODIFY: Option<Op> = Some(Op::Modify);

const STORE: Option<Op> = Some(Op::Store);

/// For each byte the operation of a lackey line with this label, if it has one. A table, since the
/// labels of a trace come in no order that a processor predicts; and of all bytes, so that no test
/// of its ends is needed, which saves two instructions a line.
static LACKEY_OPS: [Option<Op>; 256] = [
    NO_OP, NO_OP, NO_OP, NO_OP, NO_OP, NO_OP, NO_OP, NO_OP, NO_OP, NO_OP, NO_OP, NO_OP, NO_OP,
    NO_OP, NO_OP, NO_OP, NO_OP, NO_OP, NO_OP, NO_OP, NO_OP, NO_OP, NO_OP, NO_OP, NO_OP, NO_OP,
    NO_OP, NO_OP, NO_OP, NO_OP, NO_OP, NO_OP, NO_OP, NO_OP, NO_OP, NO_OP, NO_OP, NO_OP, NO_OP,
    NO_OP, NO_OP, NO_OP, NO_OP, NO_OP, NO_OP, NO_OP, NO_OP, NO_OP, NO_OP, NO_OP, NO_OP, NO_OP,
    NO_OP, NO_OP, NO_OP, NO_OP, NO_OP, NO_OP, NO_OP, NO_OP, NO_OP, NO_OP, NO_OP, NO_OP, NO_OP,
    NO_OP, NO_OP, NO_OP, NO_OP, NO_OP, NO_OP, NO_OP, NO_OP, FETCH, NO_OP, NO_OP, LOAD, MODIFY,
    NO_OP, NO_OP, NO_OP, NO_OP, NO_OP, STORE, NO_OP, NO_OP, NO_OP, NO_OP, NO_OP, NO_OP, NO_OP,
    NO_OP, NO_OP, NO_OP, NO_OP, NO_OP, NO_OP, NO_OP, NO_OP, NO_OP, NO_OP, NO_OP, NO_OP, NO_OP,
    NO_OP, NO_OP, NO_OP, NO_OP, NO_OP, NO_OP, NO_OP, NO_OP, NO_OP, NO_OP, NO_OP, NO_OP, NO_OP,
    NO_OP, NO_OP, NO_OP, NO_OP, NO_OP, NO_OP, NO_OP, NO_OP, NO_OP, NO_OP, NO_OP, NO_OP, NO_OP,
    NO_OP, NO_OP, NO_OP, NO_OP, NO_OP, NO_OP, NO_OP, NO_OP, NO_OP, NO_OP, NO_OP, NO_OP, NO_OP,
    NO_OP, NO_OP, NO_OP, NO_OP, NO_OP, NO_OP, NO_OP, NO_OP, NO_OP, NO_OP, NO_OP, NO_OP, NO_OP,
    NO_OP, NO_OP, NO_OP, NO_OP, NO_OP, NO_OP, NO_OP, NO_OP, NO_OP, NO_OP, NO_OP, NO_OP, NO_OP,
    NO_OP, NO_OP, NO_OP, NO_OP, NO_OP, NO_OP, NO_OP, NO_OP, NO_OP, NO_OP, NO_OP, NO_OP, NO_OP,
    NO_OP, NO_OP, NO_OP, NO_OP, NO_OP, NO_OP, NO_OP, NO_OP, NO_OP, NO_OP, NO_OP, NO_OP, NO_OP,
    NO_OP, NO_OP, NO_OP, NO_OP, NO_OP, NO_OP, NO_OP, NO_OP, NO_OP, NO_OP, NO_OP, NO_OP, NO_OP,
    NO_OP, NO_OP, NO_OP, NO_OP, NO_OP, NO_OP, NO_OP, NO_OP, NO_OP, NO_OP, NO_OP, NO_OP, NO_OP,
    NO_OP, NO_OP, NO_OP, NO_OP, NO_OP, NO_OP, NO_OP, NO_OP, NO_OP, NO_OP, NO_OP, NO_OP, NO_OP,
    NO_OP, NO_OP, NO_OP, NO_OP, NO_OP, NO_OP, NO_OP, NO_OP, NO_OP, NO_OP, NO_OP, NO_OP, NO_OP,
    NO_OP, NO_OP, NO_OP, NO_OP, NO_OP, NO_OP, NO_OP, NO_OP, NO_OP,
];

/// The operation of a lackey line with this label, if it has one.
#[inline(always)]
pub(crate) fn lackey_op(label: u8) -> Option<Op>
    ensures { result ≡ lackey_op label }
{
    LACKEY_OPS[label as usize]
}

/// The item of a lackey line, whose address, comma and size are in the first field.
fn read_lackey_access(op: Op, rest: &[u8]) -> Result<Option<Entry>, LineFault>
    ensures { result ≡ lackey_access op (fields rest.now) }
{
    let Some((field, _)) = split_field(rest) else {
        return Err(LineFault::Address);
    };
    let (digits, size) = split_comma(field);
    let Some(addr) = read_number(16, 16, digits) else {
        return Err(LineFault::Address);
    };
    let Some(size) = read_number(10, 9, size) else {
        return Err(LineFault::Size);
    };
    let size = size as u32;
    Ok(Some(Entry::Item(Item { op, addr, size })))
}

/// The bytes before the first comma, and those after it.
fn split_comma(field: &[u8]) -> (&[u8], &[u8])
    ensures before { result.0.now ≡ before_first is_comma field.now }
    ensures after { result.1.now ≡ after_first is_comma field.now }
{
    match memchr(b',', field) {
        Some(at) => (&field[..at], &field[at + 1..]),
        None => (field, &[]),
    }
}

/// The line without the blanks and CRs at its end.
fn trim_end(line: &[u8]) -> &[u8]
    ensures { result.now ≡ without_trailing line.now }
{
    let mut end = line.len();
    while end > 0 && is_trailing(line[end - 1]) {
        end -= 1;
    }
    &line[..end]
}

/// The first field, and the bytes after it.
fn split_field(bytes: &[u8]) -> Option<(&[u8], &[u8])>
    ensures { MatchOption result (fields bytes.now ≡ [])
        (λ parts. fields bytes.now ≡ parts.0.now ∷ fields parts.1.now) }
{
    let (_, text) = bytes.split_at(blanks_len(bytes));
    if text.is_empty() {
        return None;
    }
    Some(text.split_at(field_len(text)))
}

/// Whether a byte is a space or a tab.
#[inline]
fn is_blank(c: u8) -> bool
    ensures { result ≡ is_blank c }
{
    c == b' ' || c == b'\t'
}

/// Whether a byte is a space, a tab or a CR.
#[inline]
fn is_trailing(c: u8) -> bool
    ensures { result ≡ is_trailing c }
{
    is_blank(c) || c == b'\r'
}

/// How many blanks the bytes begin with.
fn blanks_len(bytes: &[u8]) -> usize
    ensures value { result ≡ position_or_len is_field_byte bytes.now }
    ensures within { result ≤ length bytes.now }
{
    for (i, &c) in bytes.iter().enumerate() {
        if !is_blank(c) {
            return i;
        }
    }
    bytes.len()
}

/// The index of the first blank, or the length.
fn field_len(bytes: &[u8]) -> usize
    ensures value { result ≡ position_or_len is_blank bytes.now }
    ensures within { result ≤ length bytes.now }
{
    for (i, &c) in bytes.iter().enumerate() {
        if is_blank(c) {
            return i;
        }
    }
    bytes.len()
}
