//! The results of a reader, however its text is cut and wherever its source fails.
ghost use Rattle.std.specs.Prelude.{◌≤◌, ◌<◌, length};
ghost use Rattle.trace_core.specs.declared.limits.TheConstants.{MAX_LINES};

use crate::samples::LACKEY;
use std::alloc::Global;
use std::process::Abort;
use std::test::Fail;
use trace_core::devices::{LoopSource, TapeSource};
use trace_core::{Entry, Format, Item, LineFault, Lines, MAX_LINES, Op, TraceFault};

type Answer = Result<Option<(u64, Entry)>, TraceFault>;

/// A text, what a reader of at most `limit` lines returns for it, and how many bytes settle the
/// fault that ends it.
#[derive(Drop)]
struct Example<'a> {
    format: Format,
    limit: u64,
    text: &'a [u8],
    entries: &'a [(u64, Entry)],
    end: Answer,
    settled_by: usize,
    ghost some: { 1 ≤ limit },
    ghost most: { limit ≤ MAX_LINES },
}

/// No number of bytes settles it: there is no fault, or the end of the text settles it.
const UNSETTLED: usize = usize::MAX;

fn load(addr: u64) -> Entry {
    let (op, size) = (Op::Load, 0);
    Entry::Item(Item { op, addr, size })
}

/// The entries of lines up to `lines`, and then the end, again and again: for that the source is
/// not read.
fn expect_tape(
    rt: &impl Abort,
    alloc: Global,
    example: &Example<'_>,
    source: &mut TapeSource<'_>,
    lines: u64,
    end: Answer,
) -> Result<(), Fail> {
    let mut reader = Lines::new(alloc, example.format, example.limit)?;
    for entry in example.entries {
        if entry.0 <= lines {
            assert!(rt; reader.next(source) == Ok(Some(*entry)));
        }
    }
    assert!(rt; reader.next(source) == end);
    let calls = source.calls();
    for _ in 0..3 {
        assert!(rt; reader.next(source) == end);
    }
    assert!(rt; source.calls() == calls);
    Ok(())
}

fn line_feeds(bytes: &[u8]) -> u64 {
    bytes.iter().filter(|byte| **byte == b'\n').count() as u64
}

/// The text in pieces of `most` bytes, whose call number `call` fails: what was delivered is judged
/// first.
fn expect_failure(
    rt: &impl Abort,
    alloc: Global,
    example: &Example<'_>,
    most: usize,
    call: u64,
) -> Result<(), Fail>
    requires { 0 < most }
{
    let mut source = TapeSource::new(example.text, most, call);
    let before = (call.saturating_sub(1) as usize).saturating_mul(most);
    let delivered = before.min(example.text.len());
    let lines = line_feeds(&example.text[..delivered]);
    let line = lines.saturating_add(1);
    let end = if delivered >= example.settled_by {
        example.end
    } else {
        Err(TraceFault::Read { line })
    };
    expect_tape(rt, alloc, example, &mut source, lines, end)
}

/// The text in pieces of `most` bytes, whose calls all succeed.
fn expect_pieces(
    rt: &impl Abort,
    alloc: Global,
    example: &Example<'_>,
    most: usize,
) -> Result<(), Fail>
    requires { 0 < most }
{
    let mut source = TapeSource::new(example.text, most, 0);
    expect_tape(rt, alloc, example, &mut source, u64::MAX, example.end)
}

/// The text in pieces of every size, and for each size with each of the calls failing.
fn expect_however_cut(rt: &impl Abort, alloc: Global, example: &Example<'_>) -> Result<(), Fail> {
    let length = example.text.len();
    for most in 1..length + 2 {
        expect_pieces(rt, alloc, example, most)?;
        for call in 1..length.div_ceil(most) + 2 {
            expect_failure(rt, alloc, example, most, call as u64)?;
        }
    }
    Ok(())
}

/// A din text and what it gives, however it is cut.
fn expect_din(
    rt: &impl Abort,
    alloc: Global,
    limit: u64,
    text: &[u8],
    entries: &[(u64, Entry)],
    end: Answer,
    settled_by: usize,
) -> Result<(), Fail>
    requires some { 1 ≤ limit }
    requires most { limit ≤ MAX_LINES }
{
    let example = Example {
        format: Format::Din,
        limit,
        text,
        entries,
        end,
        settled_by,
    };
    expect_however_cut(rt, alloc, &example)
}

fn malformed(line: u64, fault: LineFault) -> Answer {
    Err(TraceFault::Line { line, fault })
}

#[test]
fn a_malformed_line_is_judged_when_it_is_whole(rt: HostRuntime) -> Result<(), Fail> {
    let good = [(1, load(16))];
    let end = malformed(2, LineFault::Address);
    expect_din(&rt, rt.alloc(), 9, b"0 10\n0 x", &good, end, UNSETTLED)?;
    expect_din(&rt, rt.alloc(), 9, b"0 10\n0 x\n", &good, end, 9)
}

#[test]
fn a_source_fails_after_the_first_read(rt: HostRuntime) -> Result<(), Fail> {
    let good = [(1, load(16))];
    let mut example = Example {
        format: Format::Din,
        limit: MAX_LINES,
        text: b"0 10\n0 x",
        entries: &good,
        end: Ok(None),
        settled_by: UNSETTLED,
    };
    let mut source = TapeSource::new(example.text, 100, 2);
    let end = Err(TraceFault::Read { line: 2 });
    expect_tape(&rt, rt.alloc(), &example, &mut source, 9, end)?;
    assert!(rt; source.calls() == 2);
    example.text = b"0 10\n0 x\n";
    let mut source = TapeSource::new(example.text, 100, 2);
    let end = malformed(2, LineFault::Address);
    expect_tape(&rt, rt.alloc(), &example, &mut source, 9, end)?;
    assert!(rt; source.calls() == 1);
    Ok(())
}

#[test]
fn a_byte_past_the_last_line_is_one_too_many(rt: HostRuntime) -> Result<(), Fail> {
    let both = [(1, load(1)), (2, load(2))];
    let many = Err(TraceFault::TooManyLines { limit: 2 });
    expect_din(
        &rt,
        rt.alloc(),
        2,
        b"0 1\n0 2\n",
        &both,
        Ok(None),
        UNSETTLED,
    )?;
    expect_din(&rt, rt.alloc(), 2, b"0 1\n0 2", &both, Ok(None), UNSETTLED)?;
    expect_din(&rt, rt.alloc(), 2, b"0 1\n0 2\n ", &both, many, 9)?;
    expect_din(&rt, rt.alloc(), 2, b"0 1\n0 2\n\n", &both, many, 9)?;
    let end = malformed(2, LineFault::Label);
    expect_din(&rt, rt.alloc(), 2, b"0 1\n9 2\n ", &both[..1], end, 8)
}

#[test]
fn lines_end_by_lf_or_by_the_end(rt: HostRuntime) -> Result<(), Fail> {
    let first = [(1, load(16))];
    expect_din(&rt, rt.alloc(), 9, b"0 10\r\n", &first, Ok(None), UNSETTLED)?;
    let skipped = [(1, load(16)), (4, load(17))];
    expect_din(
        &rt,
        rt.alloc(),
        9,
        b"0 10\r\n\n \t\r\n0 11",
        &skipped,
        Ok(None),
        UNSETTLED,
    )?;
    expect_din(&rt, rt.alloc(), 9, b"", &[], Ok(None), UNSETTLED)?;
    expect_din(&rt, rt.alloc(), 9, b"\n\n\n", &[], Ok(None), UNSETTLED)
}

#[test]
fn strange_bytes_are_bad_fields(rt: HostRuntime) -> Result<(), Fail> {
    let label = malformed(1, LineFault::Label);
    let address = malformed(1, LineFault::Address);
    expect_din(&rt, rt.alloc(), 9, b"\0\n", &[], label, 2)?;
    expect_din(&rt, rt.alloc(), 9, b"\0", &[], label, UNSETTLED)?;
    expect_din(&rt, rt.alloc(), 9, b"\xEF\xBB\xBF0 10\n", &[], label, 8)?;
    expect_din(&rt, rt.alloc(), 9, b"0 1\xFF\n", &[], address, 5)?;
    expect_din(&rt, rt.alloc(), 9, b"0 1\r2\n", &[], address, 6)
}

#[test]
fn escape_lines_are_skipped_or_flush(rt: HostRuntime) -> Result<(), Fail> {
    let text = b"0 10\n4 0\n3 ff\n4 0 x\n2 10\n4 zz\n";
    let op = Op::Fetch;
    let fetch = Entry::Item(Item {
        op,
        addr: 16,
        size: 0,
    });
    let entries = [
        (1, load(16)),
        (2, Entry::Flush),
        (4, Entry::Flush),
        (5, fetch),
    ];
    let end = malformed(6, LineFault::Address);
    expect_din(&rt, rt.alloc(), 9, text, &entries, end, text.len())?;
    let end = malformed(1, LineFault::Address);
    expect_din(&rt, rt.alloc(), 9, b"3\n", &[], end, 2)?;
    let end = malformed(1, LineFault::Label);
    expect_din(&rt, rt.alloc(), 9, b"34 0\n", &[], end, 5)
}

#[test]
fn messages_of_valgrind_are_numbered_and_skipped(rt: HostRuntime) -> Result<(), Fail> {
    let item = |op, addr, size| Entry::Item(Item { op, addr, size });
    let entries = [
        (2, item(Op::Fetch, 0x23_C790, 2)),
        (3, item(Op::Store, 0xBE80_199C, 4)),
        (6, item(Op::Modify, 0x25_747C, 1)),
    ];
    let example = Example {
        format: Format::Lackey,
        limit: 7,
        text: LACKEY,
        entries: &entries,
        end: Ok(None),
        settled_by: UNSETTLED,
    };
    expect_however_cut(&rt, rt.alloc(), &example)
}

/// `0 10` and so many bytes more, all of them blanks but for a last line feed.
fn padded(alloc: Global, length: usize) -> Result<Vec<u8>, Fail> {
    let mut text = b"0 10".to_vec(alloc)?;
    text.resize(length, b' ')?;
    text.push(b'\n')?;
    Ok(text)
}

#[test]
fn a_line_has_4096_bytes_at_most(rt: HostRuntime) -> Result<(), Fail> {
    let good = [(1, load(16))];
    let text = padded(rt.alloc(), 4096)?;
    let mut example = Example {
        format: Format::Din,
        limit: 1,
        text: &text,
        entries: &good,
        end: Ok(None),
        settled_by: UNSETTLED,
    };
    for most in [1, 2, 3, 1000, 4095, 4096, 4097, 4098] {
        expect_pieces(&rt, rt.alloc(), &example, most)?;
    }
    for call in [1, 2, 4096, 4097, 4098] {
        expect_failure(&rt, rt.alloc(), &example, 1, call)?;
    }
    let longer = padded(rt.alloc(), 4097)?;
    example.text = &longer;
    example.entries = &[];
    example.end = Err(TraceFault::TooLong { line: 1 });
    example.settled_by = 4097;
    for most in [1, 2, 3, 1000, 4096, 4097, 4098] {
        expect_pieces(&rt, rt.alloc(), &example, most)?;
    }
    for call in [1, 2, 4096, 4097, 4098] {
        expect_failure(&rt, rt.alloc(), &example, 1, call)?;
    }
    Ok(())
}

/// Compares the results of a din reader of at most three lines for a text without end.
fn expect_endless(
    rt: &impl Abort,
    alloc: Global,
    text: &[u8],
    entries: &[(u64, Entry)],
    fault: TraceFault,
) -> Result<(), Fail>
    requires { 0 < length text.now }
{
    let mut source = LoopSource::new(text);
    let mut reader = Lines::new(alloc, Format::Din, 3)?;
    for entry in entries {
        assert!(rt; reader.next(&mut source) == Ok(Some(*entry)));
    }
    for _ in 0..3 {
        assert!(rt; reader.next(&mut source) == Err(fault));
    }
    Ok(())
}

#[test]
fn sources_without_end_are_read_to_a_fault(rt: HostRuntime) -> Result<(), Fail> {
    let many = TraceFault::TooManyLines { limit: 3 };
    let long = TraceFault::TooLong { line: 1 };
    let three = [(1, load(16)), (2, load(16)), (3, load(16))];
    expect_endless(&rt, rt.alloc(), b"\n", &[], many)?;
    expect_endless(&rt, rt.alloc(), b"0", &[], long)?;
    expect_endless(&rt, rt.alloc(), b"0 10\n", &three, many)
}
