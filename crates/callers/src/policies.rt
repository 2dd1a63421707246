//! A cache under a policy of one's own.
ghost use Rattle.std.specs.Prelude.{◌≡◌, ◌≤◌, IfOk};
ghost use Rattle.cache_core.specs.cache.Slab.{empty_sets};

use cache_core::{AllocMode, Cache, Geometry, Lru, Replacement, Slot, WriteMode};
use cache_laws::slots_are_kept;
use std::alloc::{AllocError, Global};

/// LRU insertion (Qureshi and others 2007): a new slot is placed last, and is evicted next unless
/// it is used again, which brings it to the front.
#[derive(Clone, Copy, Debug)]
pub struct LruInsertion;

impl Replacement for LruInsertion {
    fn touch(&mut self, set: &mut [Slot], at: usize) -> usize {
        slots_are_kept();
        Lru::new().touch(set, at)
    }

    fn place(&mut self, set: &mut [Slot], filled: usize, new: Slot) -> (usize, Option<Slot>) {
        slots_are_kept();
        if filled < set.len() {
            set[filled] = new;
            return (filled, None);
        }
        let last = set.len() - 1;
        let gone = set[last];
        set[last] = new;
        (last, Some(gone))
    }
}

/// An empty cache under this policy, write-back and write-allocate.
pub fn lru_insertion_cache(
    alloc: Global,
    geometry: Geometry,
) -> Result<Cache<LruInsertion>, AllocError>
    ensures empty { IfOk result (λ cache. cache.sets ≡ empty_sets geometry) }
    ensures design { IfOk result (λ cache. cache.design
        ≡ record { geometry = geometry; write = WriteMode.Back; allocate = AllocMode.Always }) }
{
    let (write, allocate) = (WriteMode::Back, AllocMode::Always);
    Cache::new(alloc, geometry, LruInsertion, write, allocate)
}
