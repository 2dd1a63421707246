//! The report of `din`.
ghost use Rattle.std.specs.Prelude.{◌≡◌, ◌+◌, ◌≤◌, ◌++◌, length};
ghost use Rattle.commands.specs.DinText.{field, cache_line, report_of};

use cache_core::{CacheName, CacheStats, Stats};
use trace_core::text::{DECIMAL, Text};

/// The most bytes of a cache's line: its name, the names of eight numbers, these numbers, and an
/// LF.
const CACHE_LINE: usize = 4 + (9 + 14 + 7 + 13 + 8 + 14 + 11 + 11) + 8 * DECIMAL + 1;

/// The most bytes of the line of memory.
const MEMORY_LINE: usize = 13 + DECIMAL + 8 + DECIMAL + 1;

/// The most bytes of the line of the references that no cache took.
const BYPASSED_LINE: usize = 9 + DECIMAL + 1;

/// The most bytes of a report.
pub(crate) const REPORT: usize = 4 * CACHE_LINE + MEMORY_LINE + BYPASSED_LINE;

/// Makes a text the report.
pub(crate) fn set_report(text: &mut Text<REPORT>, stats: &Stats)
    ensures { text.new ≡ report_of stats.now }
{
    text.clear();
    push_cache(text, CacheName::L1I, stats.l1i);
    push_cache(text, CacheName::L1D, stats.l1d);
    push_cache(text, CacheName::L1U, stats.l1u);
    push_cache(text, CacheName::L2U, stats.l2u);
    push_field(text, b"memory reads=", stats.memory_reads);
    push_field(text, b" writes=", stats.memory_writes);
    text.push(b"\n");
    push_field(text, b"bypassed=", stats.bypassed);
    text.push(b"\n");
}

/// Adds the line of a cache, if there is one.
fn push_cache(text: &mut Text<REPORT>, name: CacheName, stats: Option<CacheStats>)
    requires { length text.old + CACHE_LINE ≤ REPORT }
    ensures value { text.new ≡ text.old ++ cache_line name stats }
    ensures short { length text.new ≤ length text.old + CACHE_LINE }
{
    let Some(stats) = stats else {
        return;
    };
    let CacheStats {
        fetches,
        fetch_misses,
        reads,
        read_misses,
        writes,
        write_misses,
        evictions,
        copybacks,
    } = stats;
    text.push(name.text().as_bytes());
    push_field(text, b" fetches=", fetches);
    push_field(text, b" fetch-misses=", fetch_misses);
    push_field(text, b" reads=", reads);
    push_field(text, b" read-misses=", read_misses);
    push_field(text, b" writes=", writes);
    push_field(text, b" write-misses=", write_misses);
    push_field(text, b" evictions=", evictions);
    push_field(text, b" copybacks=", copybacks);
    text.push(b"\n");
}

/// Adds a name, and a number after it.
#[inline(always)]
fn push_field(text: &mut Text<REPORT>, name: &[u8], number: u64)
    requires { length text.old + length name.now + DECIMAL ≤ REPORT }
    ensures value { text.new ≡ text.old ++ field name.now number }
    ensures short { length text.new ≤ length text.old + length name.now + DECIMAL }
{
    text.push(name);
    text.push_decimal(number);
}
