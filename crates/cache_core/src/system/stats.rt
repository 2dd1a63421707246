//! The statistics of a system of caches.
use crate::outcome::Outcome;
use trace_core::Access;

/// The statistics of one cache: its accesses and misses by kind, its evictions, and its copybacks,
/// the dirty blocks that were evicted or flushed.
#[derive(Clone, Copy, Debug, Default, PartialEq, Eq)]
pub struct CacheStats {
    pub fetches: u64,
    pub fetch_misses: u64,
    pub reads: u64,
    pub read_misses: u64,
    pub writes: u64,
    pub write_misses: u64,
    pub evictions: u64,
    pub copybacks: u64,
}

impl CacheStats {
    ghost use Rattle.std.specs.Prelude.{◌≡◌, ◌≤◌, ◌<◌, ◌+◌, ◌^◌};
    ghost use Rattle.std.specs.Option.{option_map};
    ghost use Rattle.cache_core.specs.system.CacheStats.{stats_after_access, stats_after_flush};
    ghost use Rattle.cache_core.specs.internal.system.Counted.{accesses, IsCounted};

    /// Counts an access of this kind, and what it did.
    #[inline(always)]
    pub(crate) fn count_access(&mut self, access: Access, outcome: &Outcome)
        requires few { accesses self.old < 2 ^ 62 }
        requires counted { IsCounted self.old }
        requires copybacks { self.old.copybacks ≤ self.old.writes }
        ensures value { self.new ≡ stats_after_access access outcome.now.hit
            (option_map (λ slot. slot.dirty) outcome.now.evicted) self.old }
        ensures counted { IsCounted self.new }
    {
        let missed = u64::from(!outcome.hit);
        match access {
            Access::Fetch => {
                self.fetches += 1;
                self.fetch_misses += missed;
            }
            Access::Read => {
                self.reads += 1;
                self.read_misses += missed;
            }
            Access::Write => {
                self.writes += 1;
                self.write_misses += missed;
            }
        }
        if let Some(victim) = outcome.evicted {
            self.evictions += 1;
            self.copybacks += u64::from(victim.dirty);
        }
    }

    /// Counts a flush that found so many dirty blocks.
    pub(crate) fn count_flush(&mut self, dirty: u64)
        requires few { self.old.copybacks + dirty < 2 ^ 64 }
        ensures { self.new ≡ stats_after_flush dirty self.old }
    {
        self.copybacks += dirty;
    }
}

/// The statistics of a system: those of its caches; the accesses of memory (a fetch is a read
/// there, and each dirty block of a flush, of either level, a write); and the references that no
/// first-level cache takes, which reach neither a second level nor memory.
#[derive(Clone, Copy, Debug, PartialEq, Eq)]
pub struct Stats {
    pub l1i: Option<CacheStats>,
    pub l1d: Option<CacheStats>,
    pub l1u: Option<CacheStats>,
    pub l2u: Option<CacheStats>,
    pub memory_reads: u64,
    pub memory_writes: u64,
    pub bypassed: u64,
}
