//! How a cache is made.
use crate::geometry::Geometry;

/// Write-back: a written block is sent to the next level when it is evicted, and to memory when it
/// is flushed. Write-through: each write is sent to the next level at once.
#[derive(Clone, Copy, Debug, PartialEq, Eq)]
pub enum WriteMode {
    Back,
    Through,
}

/// Write-allocate or not: whether a write that misses places its block.
#[derive(Clone, Copy, Debug, PartialEq, Eq)]
pub enum AllocMode {
    Always,
    Never,
}

/// A replacement policy by name: least recently used, first in first out, or random.
#[derive(Clone, Copy, Debug, PartialEq, Eq)]
pub enum Repl {
    Lru,
    Fifo,
    Random,
}

/// How a cache is made, apart from its policy.
#[derive(Clone, Copy, Debug)]
pub struct Design {
    pub geometry: Geometry,
    pub write: WriteMode,
    pub allocate: AllocMode,
}
