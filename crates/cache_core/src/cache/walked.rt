//! One cache, under any policy. A block is searched for slot by slot.
mod emptying;
mod one_set;
mod walk;

ghost use Rattle.std.specs.Prelude.{◌≡◌, ◌≤◌, ◌<◌, ◌*◌, ◌^◌, ℕ, length, IfOk, IfSome, Option};
ghost use Rattle.std.specs.Prelude.{Some, None, false, replicate, is_some};
ghost use Rattle.cache_core.specs.declared.design.Repl.{Repl};
ghost use Rattle.cache_core.specs.Geometry.{IsGeometry, block_of, set_of};
ghost use Rattle.cache_core.specs.cache.Order.{position_of, Accesses, FlushesCache, slots_of};
ghost use Rattle.cache_core.specs.cache.Order.{DirtiesByWrites};
ghost use Rattle.cache_core.specs.cache.Outcomes.{outcome_of, on_hit};
ghost use Rattle.cache_core.specs.internal.cache.Held.{holds_block};
ghost use Rattle.cache_core.specs.internal.cache.Order.{hits_in_front, hit_in_front};
ghost use Rattle.cache_core.specs.internal.cache.Slab.{IsCacheSlab, sets_of, slab_contents};
ghost use Rattle.cache_core.specs.Touched.{Covers};

use crate::cache::effects::is_write;
use crate::cache::walked::emptying::empty_slab;
use crate::cache::walked::one_set::{hit, is_in_front, mark_front, miss};
use crate::cache::walked::walk::find_block;
use crate::design::{AllocMode, Design, WriteMode};
use crate::geometry::Geometry;
use crate::outcome::{Outcome, Slot};
use crate::replacement::Replacement;
use crate::touched::TouchedSets;
use std::alloc::{AllocError, Global};
use std::marker::Model;
use trace_core::Ref;

/// A cache under a policy. One array has the slots of all sets, each set in a segment of its own
/// and in the policy's order. `touched` lists the sets with filled slots, as long as they are few,
/// so that a flush visits only these.
#[derive(Drop)]
pub struct Cache<P> {
    design: Design,
    policy: P,
    slots: Vec<Slot>,
    filled: Vec<u32>,
    touched: TouchedSets,
}

impl<P> Model for Cache<P> {
    ghost use Rattle.cache_core.specs.cache.Slab.{CacheValue};

    ghost Value = { CacheValue P };

    ghost use Rattle.cache_core.specs.internal.cache.Slab.{sets_of, IsCacheSlab};
    ghost use Rattle.cache_core.specs.Touched.{Covers};

    ghost view = { λ c. record {
      design = c.design;
      policy = c.policy;
      sets = sets_of c.design.geometry.e c.slots.items c.filled.items;
    } };

    ghost invariant = { λ c. IsCacheSlab c.design c.slots.items c.filled.items
        × Covers c.touched c.filled.items };
}

impl<P: Replacement> Cache<P> {
    ghost use Rattle.cache_core.specs.cache.Slab.{contents_of, empty_sets};
    ghost use Rattle.cache_core.specs.internal.cache.Held.{AccessesHeld};
    ghost use Rattle.cache_core.specs.internal.cache.Slab.{AccessesInFront};

    /// An empty cache. It takes all its memory here, 16 bytes for each line and 4 and a quarter for
    /// each set, and that alone can fail.
    pub fn new(
        alloc: Global,
        geometry: Geometry,
        policy: P,
        write: WriteMode,
        allocate: AllocMode,
    ) -> Result<Self, AllocError>
        ensures design { IfOk result (λ cache.
            cache.design ≡ record { geometry = geometry; write = write; allocate = allocate }) }
        ensures policy { IfOk result (λ cache. cache.policy ≡ policy) }
        ensures empty { IfOk result (λ cache. cache.sets ≡ empty_sets geometry) }
        ensures limits { IsGeometry geometry }
    {
        let free = Slot {
            block: 0,
            dirty: false,
        };
        let slots = vec![in alloc; free; geometry.lines() as usize]?;
        let filled = no_slots(alloc, geometry.sets() as usize)?;
        let touched = TouchedSets::new(alloc, geometry.sets() as usize)?;
        Ok(Cache {
            design: Design {
                geometry,
                write,
                allocate,
            },
            policy,
            slots,
            filled,
            touched,
        })
    }

    /// Makes one access, and returns its outcome. The policy chooses the victim in a full set. It
    /// takes no memory.
    #[inline(always)]
    pub fn access(&mut self, reference: Ref) -> Outcome
        ensures step { Accesses (contents_of P.policy P.words self.old) reference result
            (contents_of P.policy P.words self.new) }
        ensures dirty { DirtiesByWrites self.old.sets reference result self.new.sets }
        ensures victim { IfSome result.evicted
            (λ slot. slot.block * 2 ^ self.old.design.geometry.b < 2 ^ 64) }
    {
        match self.hit(reference) {
            Some(outcome) => outcome,
            None => self.miss(reference),
        }
    }

    /// Makes an access if the cache holds its block, and returns its outcome. Otherwise it does
    /// nothing.
    #[inline(always)]
    pub(crate) fn hit(&mut self, reference: Ref) -> Option<Outcome>
        ensures { AccessesHeld P.policy P.words self.old reference result self.new }
    {
        let block = self.design.geometry.block_of(reference.addr);
        let set = segment(self.design, &self.slots, &self.filled, reference);
        match find_block(set, block) {
            Some(at) => Some(hit_slab(
                self.design,
                &mut self.policy,
                &mut self.slots,
                &self.filled,
                reference,
                at,
            )),
            None => None,
        }
    }

    /// Makes an access whose block the cache does not hold, and returns its outcome.
    #[inline(always)]
    pub(crate) fn miss(&mut self, reference: Ref) -> Outcome
        requires { holds_block self.old.design self.old.sets reference ≡ false }
        ensures step { Accesses (contents_of P.policy P.words self.old) reference result
            (contents_of P.policy P.words self.new) }
        ensures dirty { DirtiesByWrites self.old.sets reference result self.new.sets }
        ensures victim { IfSome result.evicted
            (λ slot. slot.block * 2 ^ self.old.design.geometry.b < 2 ^ 64) }
    {
        miss_slab(
            self.design,
            &mut self.policy,
            &mut self.slots,
            &mut self.filled,
            &mut self.touched,
            reference,
        )
    }

    /// Makes an access if it finds its block in the first slot of its set and sends nothing down,
    /// as most do, and returns its outcome. Otherwise it does nothing.
    #[inline(always)]
    pub(crate) fn access_in_front(&mut self, reference: Ref) -> Option<Outcome>
        ensures { AccessesInFront P.policy P.words self.old reference result self.new }
    {
        visit_front(self.design, &mut self.slots, &self.filled, reference)
    }

    /// Its geometry.
    #[inline(always)]
    pub fn geometry(&self) -> Geometry
        ensures { result ≡ self.now.design.geometry }
    {
        self.design.geometry
    }

    /// Empties the cache, and returns how many dirty lines it held. Nothing is evicted, and a
    /// random policy goes on with its numbers.
    pub fn flush(&mut self) -> u64
        ensures { FlushesCache (contents_of P.policy P.words self.old) result
            (contents_of P.policy P.words self.new) }
    {
        let ways = self.design.geometry.e() as usize;
        empty_slab(&mut self.touched, &self.slots, &mut self.filled, ways)
    }
}

/// The filled slots of the set of a reference, in the slab of all sets.
#[inline(always)]
fn segment<'a>(design: Design, slots: &'a [Slot], filled: &[u32], reference: Ref) -> &'a [Slot]
    requires { IsCacheSlab design slots.now filled.now }
    ensures slots { result.now ≡ slots_of (sets_of design.geometry.e slots.now filled.now)
        (set_of design.geometry reference.addr) }
    ensures within { length result.now ≤ design.geometry.e }
{
    let set_number = design.geometry.set_of(reference.addr) as usize;
    let start = set_number * design.geometry.e() as usize;
    let held = filled[set_number] as usize;
    &slots[start..start + held]
}

/// One access in the slab of all sets to the slot of its set at an index, which holds its block.
#[inline(always)]
fn hit_slab<P: Replacement>(
    design: Design,
    policy: &mut P,
    slots: &mut [Slot],
    filled: &[u32],
    reference: Ref,
    at: usize,
) -> Outcome
    requires slab { IsCacheSlab design slots.old filled.now }
    requires at { position_of (block_of design.geometry reference.addr)
        (slots_of (sets_of design.geometry.e slots.old filled.now)
        (set_of design.geometry reference.addr)) ≡ Some at }
    ensures slab { IsCacheSlab design slots.new filled.now }
    ensures access { Accesses
        (slab_contents design (P.policy policy.old) (P.words policy.old) slots.old filled.now)
        reference result
        (slab_contents design (P.policy policy.new) (P.words policy.new) slots.new filled.now) }
    ensures dirty { DirtiesByWrites
        (sets_of design.geometry.e slots.old filled.now) reference result
        (sets_of design.geometry.e slots.new filled.now) }
    ensures outcome { result ≡ outcome_of (on_hit design.write reference) }
{
    let ways = design.geometry.e() as usize;
    let number = design.geometry.set_of(reference.addr) as usize;
    let start = number * ways;
    let set = &mut slots[start..start + ways];
    hit(design, policy, set, filled[number] as usize, reference, at)
}

/// One access in the slab of all sets whose block is in none of them. A set that gets its first
/// block is listed.
#[inline(always)]
fn miss_slab<P: Replacement>(
    design: Design,
    policy: &mut P,
    slots: &mut [Slot],
    filled: &mut [u32],
    touched: &mut TouchedSets,
    reference: Ref,
) -> Outcome
    requires slab { IsCacheSlab design slots.old filled.old }
    requires touched { Covers touched.old filled.old }
    requires none { holds_block design (sets_of design.geometry.e slots.old filled.old) reference
        ≡ false }
    ensures touched { Covers touched.new filled.new }
    ensures slab { IsCacheSlab design slots.new filled.new }
    ensures access { Accesses
        (slab_contents design (P.policy policy.old) (P.words policy.old) slots.old filled.old)
        reference result
        (slab_contents design (P.policy policy.new) (P.words policy.new) slots.new filled.new) }
    ensures dirty { DirtiesByWrites
        (sets_of design.geometry.e slots.old filled.old) reference result
        (sets_of design.geometry.e slots.new filled.new) }
    ensures victim { IfSome result.evicted (λ slot. slot.block * 2 ^ design.geometry.b < 2 ^ 64) }
{
    let ways = design.geometry.e() as usize;
    let number = design.geometry.set_of(reference.addr) as usize;
    let start = number * ways;
    let set = &mut slots[start..start + ways];
    let before = filled[number];
    let (outcome, count) = miss(design, policy, set, before as usize, reference);
    filled[number] = count as u32;
    touched.add_grown(number, before, count as u32);
    outcome
}

/// The outcome of a hit that sends nothing down.
const HIT_IN_FRONT: Outcome = Outcome {
    hit: true,
    evicted: None,
    placed: false,
    down: [None, None],
};

/// One access to the first slot of its set, in the slab of all sets, if its block is there and it
/// sends nothing down. The slot stays first under every policy. The write mode matters for writes
/// alone, so other accesses don't ask for it.
#[inline(always)]
fn visit_front(
    design: Design,
    slots: &mut [Slot],
    filled: &[u32],
    reference: Ref,
) -> Option<Outcome>
    requires slab { IsCacheSlab design slots.old filled.now }
    ensures slab { IsCacheSlab design slots.new filled.now }
    ensures access { (policy : Option Repl) (numbers : ℕ → ℕ) → IfSome result (λ outcome.
        Accesses (slab_contents design policy numbers slots.old filled.now) reference outcome
        (slab_contents design policy numbers slots.new filled.now)) }
    ensures dirty { IfSome result (λ outcome.
        DirtiesByWrites (sets_of design.geometry.e slots.old filled.now) reference outcome
        (sets_of design.geometry.e slots.new filled.now)) }
    ensures answers { is_some result
        ≡ hits_in_front design (sets_of design.geometry.e slots.old filled.now) reference }
    ensures outcome { IfSome result (λ outcome. outcome ≡ hit_in_front) }
    ensures kept { result ≡ None → slots.new ≡ slots.old }
{
    let block = design.geometry.block_of(reference.addr);
    let ways = design.geometry.e() as usize;
    let set = design.geometry.set_of(reference.addr) as usize;
    let start = set * ways;
    let count = filled[set] as usize;
    if !is_in_front(&slots[start..start + count], block) {
        return None;
    }
    if !is_write(reference.access) {
        return Some(HIT_IN_FRONT);
    }
    match design.write {
        WriteMode::Through => None,
        WriteMode::Back => {
            mark_front(&mut slots[start..start + ways]);
            Some(HIT_IN_FRONT)
        }
    }
}

/// The number of filled slots of each set, 0 at first.
fn no_slots(alloc: Global, sets: usize) -> Result<Vec<u32>, AllocError>
    ensures { IfOk result (λ filled. filled.items ≡ replicate sets 0) }
{
    vec![in alloc; 0; sets]
}
