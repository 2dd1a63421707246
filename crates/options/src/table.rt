//! The options of the commands. Each is said once, as a static that its command's list in `app.rt`
//! and its job in `arguments` cite. A constant would be copied into each function that cites it,
//! whose check then takes twice as long.
//!
//! `package/completion.py` reads these texts in the program's help: a text that ends in letters
//! with their meanings, for example `u all, d data`, tells it the values; a value called FILE is
//! completed as a file; and `[default: ..]` is left out. The limits in them are those of
//! `cache_core::geometry`: 20, 65536 and 64k, and 1m are `MAX_BITS`, `MAX_WAYS` and 2^`MAX_BITS`.

/// Whether an option has to be given, and what its value is called in the help, if it takes one.
#[derive(Clone, Copy)]
pub enum Presence {
    Required(&'static str),
    Optional(&'static str),
    Flag,
}

/// How an option is written: `--name` or `-c`.
#[derive(Clone, Copy)]
pub enum Spelling {
    Long(&'static str),
    Short(char),
}

/// An option. Its name is its id in `clap`, and names it in a fault.
#[derive(Clone, Copy)]
pub struct CommandOption {
    pub name: &'static str,
    pub spelling: Spelling,
    pub presence: Presence,
    pub help: &'static str,
}

use Presence::{Flag, Optional, Required};
use Spelling::{Long, Short};

/// An option of one letter.
macro_rules! short_option {
    ($name:literal, $letter:literal, $presence:expr, $help:expr) => {
        CommandOption {
            name: $name,
            spelling: Short($letter),
            presence: $presence,
            help: $help,
        }
    };
}

/// An option with a long name. A fault names it with these dashes.
macro_rules! long_option {
    ($dashes:literal, $name:literal, $presence:expr, $help:expr) => {
        CommandOption {
            name: concat!($dashes, $name),
            spelling: Long($name),
            presence: $presence,
            help: $help,
        }
    };
}

pub static SET_BITS: CommandOption = short_option!(
    "-s",
    's',
    Required("N"),
    "Set index bits, 0 to 20: the cache has 2^N sets"
);

pub static LINES: CommandOption = short_option!(
    "-E",
    'E',
    Required("N"),
    "Lines per set, 1 to 65536"
);

pub static BLOCK_BITS: CommandOption = short_option!(
    "-b",
    'b',
    Required("N"),
    "Block bits, 0 to 20: a block has 2^N bytes"
);

pub static LACKEY_FILE: CommandOption = short_option!(
    "-t",
    't',
    Required("FILE"),
    "File of the trace, as lackey writes it"
);

pub static VERBOSE: CommandOption = short_option!(
    "-v",
    'v',
    Flag,
    "Write a line for each load, store and modify"
);

pub static INFORMAT: CommandOption = long_option!(
    "-",
    "informat",
    Optional("FORMAT"),
    "Format of the trace: d din, l lackey [default: d]"
);

pub static SEED: CommandOption = long_option!(
    "--",
    "seed",
    Optional("N"),
    "Seed of random replacement [default: 42]"
);

pub static FILE: CommandOption = short_option!(
    "-t",
    't',
    Optional("FILE"),
    "File of the trace [default: standard input]"
);

pub static BSIZE: CommandOption = long_option!(
    "--",
    "bsize",
    Required("RANGE"),
    "Block size in bytes: powers of two up to 1m"
);

pub static SETS: CommandOption = long_option!(
    "--",
    "sets",
    Required("RANGE"),
    "Number of sets: powers of two up to 1m"
);

pub static ASSOC: CommandOption = long_option!(
    "--",
    "assoc",
    Required("RANGE"),
    "Lines per set: 1 to 64k"
);

pub static SIZE: CommandOption = long_option!(
    "--",
    "size",
    Required("RANGE"),
    "Total size in bytes; other caches have no row"
);

pub static KIND: CommandOption = long_option!(
    "--",
    "kind",
    Optional("KIND"),
    "References that count: u all, d data, i instruction fetches [default: u]"
);

pub static FORMAT: CommandOption = long_option!(
    "--",
    "format",
    Optional("FORMAT"),
    "Format of the trace: d din, l lackey [default: d]"
);

pub static AFTER: CommandOption = long_option!(
    "--",
    "after",
    Optional("B,S,E"),
    "Write only the rows after this bsize, sets, assoc, without the header"
);

pub static ROWS: CommandOption = long_option!(
    "--",
    "rows",
    Optional("N"),
    "Write at most this many rows [default: all]"
);

pub static POW2: CommandOption = long_option!(
    "--",
    "pow2",
    Flag,
    "Take only powers of two for --assoc"
);

pub static FULL: CommandOption = long_option!(
    "--",
    "full",
    Flag,
    "Write misses by kind of access and copybacks too"
);
