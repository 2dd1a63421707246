//! The texts of `--help` beside the list of the options.
//!
//! The limits of a cache are those of `cache_core::geometry`, which no text here can cite: 1m, 64k
//! and 4m are 2^`MAX_BITS`, `MAX_WAYS` and `MAX_CACHE_LINES`.

/// A text with the command by which Valgrind writes a trace, and the exit statuses after it: all
/// five texts of help have both.
macro_rules! help_text {
    ($before:literal, $after:literal, $end:literal) => {
        concat!(
            $before,
            "  valgrind --tool=lackey --trace-mem=yes --log-file=trace.txt PROGRAM\n",
            $after,
            "\nExit status: 0 done or help, 1 the trace, the output or the memory failed, ",
            "2 wrong arguments.",
            $end
        )
    };
}

/// The summary of the program.
pub const ABOUT: &str = "Simulates processor caches over a trace of memory references";

/// How the program is called. Also shown beside a fault of the arguments: so it says where the
/// version is.
pub const USAGE: &str = "cachesim <COMMAND> [OPTIONS]
       cachesim --help, which also tells the version
       cachesim <COMMAND> --help";

/// The text after the list of the commands.
pub const PROGRAM: &str = help_text!(
    "\
'cachesim COMMAND --help' explains a command and its options.

How to get a trace: Valgrind writes that of any program in the lackey format.
",
    "  cachesim sweep --format l --bsize 64 --sets 64 --assoc 1-8 --size 0-1m -t trace.txt\n",
    "\n\ncachesim 1.2.0"
);

/// The summary of `sweep`.
pub const SWEEP_ABOUT: &str =
    "Counts hits, misses and evictions of every LRU cache in a range, in one pass over a trace";

/// How `sweep` is called. It says how the trace is given, though `-t` may be left out.
pub const SWEEP_USAGE: &str = "cachesim sweep [OPTIONS] --bsize <RANGE> --sets <RANGE> \
    --assoc <RANGE> --size <RANGE> [-t <FILE>]";

/// The text after the options of `sweep`.
pub const SWEEP: &str = help_text!(
    "\
A RANGE is one number or LOWEST-GREATEST, such as 16-64. Its numbers are decimal; k, m or g at the
end, as in 32k, multiplies by 2^10, 2^20 or 2^30. A cache has at most 4m lines.

The table is CSV: a header, and a row for each cache, by rising bsize, then sets, then assoc.
  bsize      block size in bytes
  sets       number of sets
  assoc      lines per set
  size       total size in bytes: bsize * sets * assoc
  hits       references that found their block
  misses     references that did not, and loaded it
  evictions  misses that evicted the least recently used block of a full set
With --full four columns follow. The caches are write-allocate and write-back, as those of din.
  fetch-misses, read-misses, write-misses  misses by kind of access
  copybacks  dirty blocks that were evicted or flushed

Every cache with blocks of 64 bytes that holds 4 to 64 KiB in sets of 1 to 8 lines:
  cachesim sweep --bsize 64 --sets 1-1k --assoc 1-8 --size 4k-64k < trace.din

A table in pages: 100 rows, and 100 more after the last of them, say 64,16,4.
  cachesim sweep .. --rows 100 -t trace.din
  cachesim sweep .. --rows 100 --after 64,16,4 -t trace.din

The trace has one reference per line. Din: 0 data read, 1 data write or 2 instruction fetch, and
the address in hexadecimal, such as '0 7ffe10'; 3 is skipped, and 4 flushes the caches. Lackey, as
Valgrind writes it: ' L 7ffe10,8'; a modify is a read and a write.
",
    "  cachesim sweep .. --format l -t trace.txt\n",
    ""
);

/// The summary of `csim`.
pub const CSIM_ABOUT: &str = "Runs the data references of a lackey trace through one LRU cache";

/// How `csim` is called.
pub const CSIM_USAGE: &str = "cachesim csim [OPTIONS] -s <N> -E <N> -b <N> -t <FILE>";

/// The text after the options of `csim`.
pub const CSIM: &str = help_text!(
    "\
It writes one line, 'hits:H misses:M evictions:E'. With -v a line for each load, store and modify
comes before it: its letter (L load, S store, M modify), address and size, and its outcome: hit,
miss or miss eviction. A modify is a read and a write, and has two. Fetches have no line.
A cache has at most 4m lines in all: 2^s * E.

A trace of a program, and a cache of 64 sets of 8 lines of 64 bytes:
",
    "  cachesim csim -s 6 -E 8 -b 6 -t trace.txt\n",
    ""
);

/// The summary of `log`.
pub const LOG_ABOUT: &str =
    "Writes a line for each access of each cache of 'cachesim din', in order";

/// How `log` is called.
pub const LOG_USAGE: &str = "cachesim log [OPTIONS] [-t <FILE>]";

/// The text after the options of `log`.
pub const LOG: &str = help_text!(
    "\
'cachesim din --help' explains the options. It also tells what a trace looks like.

There is a line for each reference where it arrives: at a cache, at memory, or bypassed, where no
first-level cache takes it. After the place come the label and the address, as in a din trace, and
at a cache its outcome: hit, miss, or miss eviction with the address of the evicted block, and
dirty if it was. What a reference sends to the next level follows at once.
  l1-d 1 7ffe4000 miss eviction 7ff000 dirty
  l2-u 1 7ff000 hit
  l2-u 0 7ffe4000 miss
  memory 0 7ffe4000
A modify is a read and a write. At a flush each cache has a line with the number of dirty blocks
that it wrote to memory, such as 'l1-d flush 2'.

What a data cache of 32 KiB sends to memory, as a din trace:
  cachesim log -l1-dsize 32k -l1-dbsize 64 -l1-dassoc 8 -t trace.din |
      awk '$1 == \"memory\" { print $2, $3 }'

Valgrind writes a lackey trace:
",
    "",
    ""
);

/// The summary of `din`.
pub const DIN_ABOUT: &str =
    "Runs a trace through one or two levels of caches, with some options of Dinero IV";

/// How `din` is called.
pub const DIN_USAGE: &str = "cachesim din [OPTIONS] [-t <FILE>]";

/// The text after the options of `din`.
pub const DIN: &str = help_text!(
    "\
The options of a cache and -informat may be written with one dash, as Dinero IV has them, or with
two. A cache exists if one of its options is given; its size and bsize must then be given. In place
of the size its number of sets may be given, which Dinero IV does not have: then assoc may be any
number, and the size is sets * bsize * assoc. If both are given, they must agree. The first level is
a unified cache, or an instruction cache, a data cache or both. BYTES and SETS are decimal numbers;
k, m or g at the end multiplies by 2^10, 2^20 or 2^30. N is a decimal number. A block has at most 1m
bytes, and a cache at most 1m sets, 64k lines per set and 4m lines in all. The blocks of the second
level are no smaller than those of the first.

The report has a line for each cache: its fetches, reads and writes, the misses of each, the
evicted blocks (evictions), and the dirty blocks that were evicted or flushed (copybacks). Then
what came to memory, and the references that no first-level cache takes.

A split first level of 32 KiB each above a second level of 1 MiB:
  cachesim din -l1-isize 32k -l1-ibsize 64 -l1-iassoc 8 -l1-dsize 32k -l1-dbsize 64 -l1-dassoc 8 \\
      -l2-usize 1m -l2-ubsize 64 -l2-uassoc 16 -informat l -t trace.txt

A data cache of 48 KiB with 12 lines per set:
  cachesim din -l1-dsets 64 -l1-dbsize 64 -l1-dassoc 12 -t trace.din

A din trace has one reference per line: 0 data read, 1 data write or 2 instruction fetch, and the
address in hexadecimal, such as '0 7ffe10'; 3 is skipped, and 4 flushes the caches. Valgrind writes
a lackey trace:
",
    "",
    ""
);
