//! A cache under a policy whose blocks are found by an index, so that an access takes the same time
//! whatever the number of ways.
mod emptying;
mod one_set;
mod slot_order;

ghost use Rattle.std.specs.Prelude.{◌≡◌, ◌<◌, ◌*◌, ◌^◌, IfOk, IfSome, false};
ghost use Rattle.cache_core.specs.Geometry.{IsGeometry};
ghost use Rattle.cache_core.specs.cache.Order.{Accesses, FlushesCache, DirtiesByWrites};
ghost use Rattle.cache_core.specs.cache.Slab.{contents_of, empty_sets};
ghost use Rattle.cache_core.specs.internal.cache.Held.{holds_block, AccessesHeld};
ghost use Rattle.cache_core.specs.internal.cache.Slab.{AccessesInFront};

use crate::cache::indexed::emptying::empty_sets;
use crate::cache::indexed::one_set::{hit, miss, visit_front};
use crate::cache::indexed::slot_order::SlotOrder;
use crate::design::{AllocMode, Design, WriteMode};
use crate::geometry::Geometry;
use crate::outcome::Outcome;
use crate::replacement::named::NamedPolicy;
use crate::touched::TouchedSets;
use block_index::BlockIndex;
use std::alloc::{AllocError, Global};
use std::marker::Model;
use trace_core::Ref;

/// A cache whose slots are numbered through all sets. `index` has their blocks, `dirty` their
/// marks, and `order` those of each set that are filled. `touched` lists the sets that have some,
/// as long as they are few, so that a flush visits only these.
#[derive(Drop)]
pub(crate) struct IndexedCache<P: NamedPolicy> {
    design: Design,
    policy: P,
    index: BlockIndex,
    dirty: Vec<bool>,
    order: SlotOrder,
    touched: TouchedSets,
}

impl<P: NamedPolicy> Model for IndexedCache<P> {
    ghost use Rattle.std.specs.Prelude.{◌≡◌, Some};
    ghost use Rattle.cache_core.specs.cache.Slab.{CacheValue};
    ghost use Rattle.cache_core.specs.internal.cache.Indexed.{sets_at, IsIndexed, counts_of};
    ghost use Rattle.cache_core.specs.Touched.{Covers};

    ghost Value = { CacheValue P };

    ghost view = { λ c. record {
      design = c.design;
      policy = c.policy;
      sets = sets_at c.index c.dirty.items c.order.sets;
    } };

    ghost invariant = { λ c. IsIndexed c.design c.index c.dirty.items c.order
        × Covers c.touched (counts_of c.order.sets)
        × (P.policy c.policy ≡ Some c.order.policy) };
}

impl<P: NamedPolicy> IndexedCache<P> {
    /// An empty cache. It takes all its memory here, at most 29 bytes for each line, 12 and a
    /// quarter for each set (under random 21, and 4 and a quarter) and 8 more, and that alone can
    /// fail.
    pub(crate) fn new(
        alloc: Global,
        geometry: Geometry,
        policy: P,
        write: WriteMode,
        allocate: AllocMode,
    ) -> Result<Self, AllocError>
        ensures design { IfOk result (λ cache.
            cache.design ≡ record { geometry = geometry; write = write; allocate = allocate }) }
        ensures policy { IfOk result (λ cache. cache.policy ≡ policy) }
        ensures empty { IfOk result (λ cache. cache.sets ≡ empty_sets geometry) }
        ensures limits { IsGeometry geometry }
    {
        let lines = geometry.lines() as usize;
        let sets = geometry.sets() as usize;
        let index = BlockIndex::new(alloc, lines)?;
        let dirty = vec![in alloc; false; lines]?;
        let order = SlotOrder::new(alloc, policy.name(), sets, geometry.e() as usize)?;
        let touched = TouchedSets::new(alloc, sets)?;
        Ok(IndexedCache {
            design: Design {
                geometry,
                write,
                allocate,
            },
            policy,
            index,
            dirty,
            order,
            touched,
        })
    }

    /// Makes an access if the cache holds its block, and returns its outcome. Otherwise it does
    /// nothing.
    #[inline(always)]
    pub(crate) fn hit(&mut self, reference: Ref) -> Option<Outcome>
        ensures { AccessesHeld P.policy P.words self.old reference result self.new }
    {
        hit(
            self.design,
            &self.index,
            &mut self.dirty,
            &mut self.order,
            reference,
        )
    }

    /// Makes an access whose block the cache does not hold, and returns its outcome.
    #[inline(always)]
    pub(crate) fn miss(&mut self, reference: Ref) -> Outcome
        requires { holds_block self.old.design self.old.sets reference ≡ false }
        ensures step { Accesses (contents_of P.policy P.words self.old) reference result
            (contents_of P.policy P.words self.new) }
        ensures dirty { DirtiesByWrites self.old.sets reference result self.new.sets }
        ensures victim { IfSome result.evicted
            (λ slot. slot.block * 2 ^ self.old.design.geometry.b < 2 ^ 64) }
    {
        miss(
            self.design,
            &mut self.policy,
            &mut self.index,
            &mut self.dirty,
            &mut self.order,
            &mut self.touched,
            reference,
        )
    }

    /// Makes an access if it finds its block in the first slot of its set and sends nothing down,
    /// and returns its outcome. Otherwise it does nothing.
    #[inline(always)]
    pub(crate) fn access_in_front(&mut self, reference: Ref) -> Option<Outcome>
        ensures { AccessesInFront P.policy P.words self.old reference result self.new }
    {
        visit_front(
            self.design,
            &self.index,
            &mut self.dirty,
            &self.order,
            reference,
        )
    }

    /// Its geometry.
    #[inline(always)]
    pub(crate) fn geometry(&self) -> Geometry
        ensures { result ≡ self.now.design.geometry }
    {
        self.design.geometry
    }

    /// Empties the cache, and returns how many dirty lines it held. It takes time by the slots that
    /// are filled.
    pub(crate) fn flush(&mut self) -> u64
        ensures { FlushesCache (contents_of P.policy P.words self.old) result
            (contents_of P.policy P.words self.new) }
    {
        empty_sets(
            self.design,
            &mut self.index,
            &self.dirty,
            &mut self.order,
            &mut self.touched,
        )
    }
}
