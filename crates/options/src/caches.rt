//! The options of the caches of `din` and `log`: seven for each.
ghost use Rattle.options.specs.internal.OptionsInCode.{IsOptionsOf};

use crate::table::CommandOption;
use crate::table::Presence::Optional;
use crate::table::Spelling::Long;
use cache_core::CacheName;

/// The seven options of one cache. The number of sets may stand in place of the size.
pub struct CacheOptions {
    pub size: CommandOption,
    pub sets: CommandOption,
    pub bsize: CommandOption,
    pub assoc: CommandOption,
    pub repl: CommandOption,
    pub walloc: CommandOption,
    pub wback: CommandOption,
}

// The texts of help for each of the seven.
const SIZE: &str = "Total size in bytes, a power of two, such as 16k";

const SETS: &str = "Number of sets, a power of two, in place of the size";

const BSIZE: &str = "Block size in bytes, a power of two";

const ASSOC: &str = "Lines per set; if the size is given, a power of two [default: 1]";

const REPL: &str = "Replacement policy: l LRU, f FIFO, r random [default: l]";

const WALLOC: &str = "Write-allocate: a always, n never [default: a]";

const WBACK: &str = "Write policy: a write-back, n write-through [default: a]";

/// The option of this cache with this ending.
macro_rules! cache_option {
    ($cache:literal, $ending:literal, $value:literal, $help:expr) => {
        CommandOption {
            name: concat!("-", $cache, $ending),
            spelling: Long(concat!($cache, $ending)),
            presence: Optional($value),
            help: $help,
        }
    };
}

/// The seven options of the cache of this name.
macro_rules! seven_options {
    ($cache:literal) => {
        CacheOptions {
            size: cache_option!($cache, "size", "BYTES", SIZE),
            sets: cache_option!($cache, "sets", "SETS", SETS),
            bsize: cache_option!($cache, "bsize", "BYTES", BSIZE),
            assoc: cache_option!($cache, "assoc", "N", ASSOC),
            repl: cache_option!($cache, "repl", "POLICY", REPL),
            walloc: cache_option!($cache, "walloc", "MODE", WALLOC),
            wback: cache_option!($cache, "wback", "MODE", WBACK),
        }
    };
}

static L1I_OPTIONS: CacheOptions = seven_options!("l1-i");

static L1D_OPTIONS: CacheOptions = seven_options!("l1-d");

static L1U_OPTIONS: CacheOptions = seven_options!("l1-u");

static L2U_OPTIONS: CacheOptions = seven_options!("l2-u");

/// The seven options of one cache of `din` and `log`.
pub fn cache_options(cache: CacheName) -> &'static CacheOptions
    ensures { IsOptionsOf cache result.now }
{
    match cache {
        CacheName::L1I => &L1I_OPTIONS,
        CacheName::L1D => &L1D_OPTIONS,
        CacheName::L1U => &L1U_OPTIONS,
        CacheName::L2U => &L2U_OPTIONS,
    }
}
