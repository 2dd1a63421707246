//! The outcome of one access of a cache.
use trace_core::Ref;

/// The content of a line: the number (not the address) of its block, and whether it is dirty: in a
/// write-back cache, written since its block was placed or by the write that placed it. The slot of
/// a free line has no meaning.
#[derive(Clone, Copy, Debug, PartialEq, Eq)]
pub struct Slot {
    pub block: u64,
    pub dirty: bool,
}

/// The outcome of one access: whether its block was held, the slot that was evicted for it, whether
/// it was placed, and the references sent to the next level, in order, from the first element on.
#[derive(Clone, Copy, Debug, PartialEq, Eq)]
pub struct Outcome {
    pub hit: bool,
    pub evicted: Option<Slot>,
    pub placed: bool,
    pub down: [Option<Ref>; 2],
}

/// How the references of a trace went. An eviction is a miss that evicted a block.
#[derive(Clone, Copy, Debug, PartialEq, Eq)]
pub struct Counts {
    pub hits: u64,
    pub misses: u64,
    pub evictions: u64,
}
