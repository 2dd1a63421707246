//! The lines that `log` writes.
ghost use Rattle.std.specs.Prelude.{◌≡◌, ◌+◌, ◌≤◌, [], ◌++◌, length};
ghost use Rattle.commands.specs.LogText.{reference_text, victim_text, result_text};
ghost use Rattle.commands.specs.LogText.{arrival_line};
ghost use Rattle.cache_core.specs.system.Plans.{cache_name};

use crate::text::push_word;
use cache_core::{Arrival, CacheName, MAX_ARRIVALS, Observer, Victim};
use trace_core::Ref;
use trace_core::line::din_label;
use trace_core::text::{DECIMAL, HEXADECIMAL, Text};

/// The most bytes of a reference: its label between spaces, and its address.
const REFERENCE: usize = 3 + HEXADECIMAL;

/// The most bytes of a hit or a miss in a line.
const RESULT: usize = 5;

/// The most bytes of an evicted block in a line.
const VICTIM: usize = 10 + HEXADECIMAL + 6;

/// The most bytes of a line: the name of a cache, a reference, a miss, what it evicted, and an LF.
const LINE: usize = 4 + REFERENCE + RESULT + VICTIM + 1;

/// The most bytes of an entry: the lines of two references.
const ENTRY: usize = 2 * MAX_ARRIVALS * LINE;

/// The lines of the arrivals since it was cleared.
#[derive(Drop)]
pub(crate) struct LogText {
    pub(crate) text: Text<ENTRY>,
}

impl LogText {
    /// No line.
    pub(crate) fn new() -> Self
        ensures { result.text ≡ [] }
    {
        LogText { text: Text::new() }
    }

    /// Drops its lines.
    pub(crate) fn clear(&mut self)
        ensures { self.new.text ≡ [] }
    {
        self.text.clear();
    }
}

impl Observer for LogText {
    ghost use Rattle.std.specs.Prelude.{◌≡◌, ◌-◌, ◌/◌, length};
    ghost use Rattle.commands.specs.LogText.{arrival_lines};
    ghost use Rattle.commands.specs.declared.log_text.TheConstants.{ENTRY, LINE};

    ghost has_seen = { λ log arrivals. log.text ≡ arrival_lines arrivals };

    ghost room = { λ log. (ENTRY - length log.text) / LINE };

    // Made where it is called, so that an arrival of a kind known there is not taken apart again.
    #[inline(always)]
    fn see(&mut self, arrival: Arrival) {
        push_arrival(&mut self.text, arrival);
    }
}

/// Adds the line of an arrival.
#[inline(always)]
fn push_arrival(text: &mut Text<ENTRY>, arrival: Arrival)
    requires { length text.old + LINE ≤ ENTRY }
    ensures value { text.new ≡ text.old ++ arrival_line arrival }
    ensures short { length text.new ≤ length text.old + LINE }
{
    match arrival {
        Arrival::Cache {
            cache,
            reference,
            hit,
            victim,
        } => {
            push_word(text, cache_name(cache));
            push_reference(text, reference);
            push_result(text, hit);
            push_victim(text, victim);
        }
        Arrival::Memory { reference } => {
            push_word(text, *b"memory");
            push_reference(text, reference);
        }
        Arrival::Bypassed { reference } => {
            push_word(text, *b"bypassed");
            push_reference(text, reference);
        }
        Arrival::Flush { cache, dirty } => {
            push_word(text, cache_name(cache));
            push_word(text, *b" flush ");
            text.push_decimal(dirty);
        }
    }
    push_word(text, *b"\n");
}

/// The name of a cache, as bytes of a known number.
#[inline(always)]
fn cache_name(cache: CacheName) -> [u8; 4]
    ensures { result ≡ cache_name cache }
{
    match cache {
        CacheName::L1I => *b"l1-i",
        CacheName::L1D => *b"l1-d",
        CacheName::L1U => *b"l1-u",
        CacheName::L2U => *b"l2-u",
    }
}

/// Adds the label and the address of a reference, as a din trace has them.
#[inline(always)]
fn push_reference(text: &mut Text<ENTRY>, reference: Ref)
    requires { length text.old + REFERENCE ≤ ENTRY }
    ensures value { text.new ≡ text.old ++ reference_text reference }
    ensures short { length text.new ≤ length text.old + REFERENCE }
{
    push_word(text, [b' ', din_label(reference.access), b' ']);
    text.push_hexadecimal(reference.addr);
}

/// Adds a hit or a miss.
#[inline(always)]
fn push_result(text: &mut Text<ENTRY>, hit: bool)
    requires { length text.old + RESULT ≤ ENTRY }
    ensures value { text.new ≡ text.old ++ result_text hit }
    ensures short { length text.new ≤ length text.old + RESULT }
{
    if hit {
        push_word(text, *b" hit");
    } else {
        push_word(text, *b" miss");
    }
}

/// Adds the evicted block, if there is one.
#[inline(always)]
fn push_victim(text: &mut Text<ENTRY>, victim: Option<Victim>)
    requires { length text.old + VICTIM ≤ ENTRY }
    ensures value { text.new ≡ text.old ++ victim_text victim }
    ensures short { length text.new ≤ length text.old + VICTIM }
{
    if let Some(victim) = victim {
        push_word(text, *b" eviction ");
        text.push_hexadecimal(victim.addr);
        if victim.dirty {
            push_word(text, *b" dirty");
        }
    }
}
