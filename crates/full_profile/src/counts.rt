//! The counts of one cache.

/// What an LRU cache with write-allocate and write-back did with the references of a trace. A
/// copyback is a dirty block that was evicted or flushed.
#[derive(Clone, Copy, Debug, PartialEq, Eq)]
pub struct FullCounts {
    pub hits: u64,
    pub misses: u64,
    pub evictions: u64,
    pub fetch_misses: u64,
    pub read_misses: u64,
    pub write_misses: u64,
    pub copybacks: u64,
}
