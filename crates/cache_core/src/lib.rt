//! Set-associative caches: geometry, replacement, one cache, levels of caches, and what an LRU
//! cache does by look-back windows.
#![tactic(auto)]

pub mod cache;
pub mod design;
pub mod geometry;
pub mod outcome;
pub mod powers;
pub mod replacement;
pub mod simulation;
pub mod system;
pub mod touched;

pub use cache::Cache;
pub use design::{AllocMode, Repl, WriteMode};
pub use geometry::{Geometry, MAX_BITS, MAX_CACHE_LINES, MAX_WAYS};
pub use outcome::{Counts, Outcome, Slot};
pub use replacement::{Fifo, Lru, Random, Replacement};
pub use simulation::{Lookup, Simulation, simulate};
pub use system::arrival::{Arrival, MAX_ARRIVALS, Observer, Victim};
pub use system::plan::{CacheName, CacheSpec, FirstLevel, Plan, PlanFault};
pub use system::stats::{CacheStats, Stats};
pub use system::{MAX_STEPS, System, arrival, plan, stats};
