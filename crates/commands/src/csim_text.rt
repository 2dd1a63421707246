//! The lines that `csim` writes.
ghost use Rattle.std.specs.Prelude.{◌≡◌, ◌+◌, ◌≤◌, [], ◌++◌, length, flat_map};
ghost use Rattle.std.specs.Option.{option_to_list};
ghost use Rattle.trace_core.specs.Device.{Writes};
ghost use Rattle.commands.specs.CsimText.{letter_of, lookup_text, item_line, line_of};
ghost use Rattle.commands.specs.CsimText.{summary};
ghost use Rattle.commands.specs.internal.CsimPass.{lookups_of_pair};

use crate::text::push_word;
use cache_core::{Counts, Lookup};
use trace_core::text::{DECIMAL, HEXADECIMAL, Text};
use trace_core::{DeviceFault, Entry, Item, Op, Sink, write_all};

/// The most bytes of a lookup in a line.
const LOOKUP: usize = 14;

/// The most bytes of a line: a letter and a space, the address, a comma, the size, two lookups, and
/// an LF.
const LINE: usize = 2 + HEXADECIMAL + 1 + DECIMAL + 2 * LOOKUP + 1;

/// The most bytes of the summary, which is longer than a line: the names of three numbers, these
/// numbers, and an LF.
pub(crate) const SUMMARY: usize = (5 + 8 + 11) + 3 * DECIMAL + 1;

/// Writes the line of an entry whose references had these lookups.
#[inline(always)]
pub(crate) fn write_line<K: Sink>(
    text: &mut Text<SUMMARY>,
    entry: Entry,
    lookups: (Lookup, Option<Lookup>),
    sink: &mut K,
) -> Result<(), DeviceFault>
    ensures { Writes (K.view sink.old) (K.view sink.new) result
        (line_of entry (lookups_of_pair lookups)) }
{
    set_line(text, entry, lookups);
    write_all(sink, text.as_slice())
}

/// Makes a text the summary.
pub(crate) fn set_summary(text: &mut Text<SUMMARY>, counts: Counts)
    ensures { text.new ≡ summary counts }
{
    text.clear();
    push_word(text, *b"hits:");
    text.push_decimal(counts.hits);
    push_word(text, *b" misses:");
    text.push_decimal(counts.misses);
    push_word(text, *b" evictions:");
    text.push_decimal(counts.evictions);
    push_word(text, *b"\n");
}

/// Makes a text the line of an entry whose references had these lookups.
#[inline(always)]
fn set_line(text: &mut Text<SUMMARY>, entry: Entry, lookups: (Lookup, Option<Lookup>))
    ensures { text.new ≡ line_of entry (lookups_of_pair lookups) }
{
    text.clear();
    if let Entry::Item(item) = entry {
        push_item(text, item, lookups);
    }
}

/// Adds the line of an item whose references had these lookups.
#[inline(always)]
fn push_item(text: &mut Text<SUMMARY>, item: Item, lookups: (Lookup, Option<Lookup>))
    requires { length text.old + LINE ≤ SUMMARY }
    ensures { text.new ≡ text.old ++ item_line (letter_of item.op) item (lookups_of_pair lookups) }
{
    let Some(letter) = letter(item.op) else {
        return;
    };
    push_word(text, [letter, b' ']);
    text.push_hexadecimal(item.addr);
    push_word(text, *b",");
    text.push_decimal(item.size as u64);
    push_lookup(text, Some(lookups.0));
    push_lookup(text, lookups.1);
    push_word(text, *b"\n");
}

/// The letter of an item's line. A fetch has no line.
#[inline(always)]
fn letter(op: Op) -> Option<u8>
    ensures { result ≡ letter_of op }
{
    match op {
        Op::Fetch => None,
        Op::Load => Some(b'L'),
        Op::Store => Some(b'S'),
        Op::Modify => Some(b'M'),
    }
}

/// Adds the text of a lookup, if there is one.
#[inline(always)]
fn push_lookup(text: &mut Text<SUMMARY>, lookup: Option<Lookup>)
    requires { length text.old + LOOKUP ≤ SUMMARY }
    ensures value { text.new ≡ text.old ++ flat_map lookup_text (option_to_list lookup) }
    ensures short { length text.new ≤ length text.old + LOOKUP }
{
    match lookup {
        Some(Lookup::Hit) => push_word(text, *b" hit"),
        Some(Lookup::Miss) => push_word(text, *b" miss"),
        Some(Lookup::MissEviction) => push_word(text, *b" miss eviction"),
        None => {}
    }
}
