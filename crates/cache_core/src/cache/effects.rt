//! The effects of one access: its outcome, and the references sent to the next level. Which slot is
//! evicted is decided elsewhere.
ghost use Rattle.std.specs.Prelude.{◌≡◌, ◌<◌, ◌*◌, ◌^◌, IfSome, option_to_list};
ghost use Rattle.trace_core.specs.Events.{is_write};
ghost use Rattle.cache_core.specs.Geometry.{address_of};
ghost use Rattle.cache_core.specs.cache.Outcomes.{outcome_of, on_hit, on_placing, on_passing};
ghost use Rattle.cache_core.specs.cache.Outcomes.{is_dirtied, is_allocated, through_writes};
ghost use Rattle.cache_core.specs.cache.Outcomes.{block_load_access};

use crate::design::{AllocMode, Design, WriteMode};
use crate::geometry::Geometry;
use crate::outcome::{Outcome, Slot};
use trace_core::{Access, Ref};

/// Whether an access writes.
#[inline(always)]
pub(crate) fn is_write(access: Access) -> bool
    ensures { result ≡ is_write access }
{
    access == Access::Write
}

/// Whether a reference marks its line dirty: a write, in a write-back cache.
#[inline(always)]
pub(crate) fn dirties_line(write: WriteMode, access: Access) -> bool
    ensures { result ≡ is_dirtied write access }
{
    write == WriteMode::Back && is_write(access)
}

/// Whether a miss places its block.
#[inline(always)]
pub(crate) fn allocates_line(allocate: AllocMode, access: Access) -> bool
    ensures { result ≡ is_allocated allocate access }
{
    allocate == AllocMode::Always || !is_write(access)
}

/// The outcome of a hit.
#[inline(always)]
pub(crate) fn hit_outcome(write: WriteMode, reference: Ref) -> Outcome
    ensures { result ≡ outcome_of (on_hit write reference) }
{
    Outcome {
        hit: true,
        evicted: None,
        placed: false,
        down: [written_through(write, reference), None],
    }
}

/// The outcome of a miss that places nothing: the reference is sent on as it came.
#[inline(always)]
pub(crate) fn passing_outcome(reference: Ref) -> Outcome
    ensures { result ≡ outcome_of (on_passing reference) }
{
    Outcome {
        hit: false,
        evicted: None,
        placed: false,
        down: [Some(reference), None],
    }
}

/// The outcome of a miss that places its block and evicts this slot, if any.
#[inline(always)]
pub(crate) fn placing_outcome(
    design: Design,
    reference: Ref,
    block: u64,
    evicted: Option<Slot>,
) -> Outcome
    requires block { block * 2 ^ design.geometry.b < 2 ^ 64 }
    requires victim { IfSome evicted (λ slot. slot.block * 2 ^ design.geometry.b < 2 ^ 64) }
    ensures { result
        ≡ outcome_of (on_placing design.geometry design.write reference block evicted) }
{
    let load = block_load(design.geometry, reference, block);
    let down = match evicted {
        Some(victim) if victim.dirty => {
            let access = Access::Write;
            let addr = design.geometry.address_of(victim.block);
            [Some(Ref { access, addr }), Some(load)]
        }
        _ => [Some(load), written_through(design.write, reference)],
    };
    Outcome {
        hit: false,
        evicted,
        placed: true,
        down,
    }
}

/// The reference that loads a block from the next level: a fetch for a fetch, otherwise a read.
#[inline(always)]
fn block_load(geometry: Geometry, reference: Ref, block: u64) -> Ref
    requires { block * 2 ^ geometry.b < 2 ^ 64 }
    ensures access { result.access ≡ block_load_access reference.access }
    ensures addr { result.addr ≡ address_of geometry block }
{
    let access = match reference.access {
        Access::Fetch => Access::Fetch,
        Access::Read | Access::Write => Access::Read,
    };
    let addr = geometry.address_of(block);
    Ref { access, addr }
}

/// The reference itself if it is sent to the next level: a write, from a write-through cache.
#[inline(always)]
fn written_through(write: WriteMode, reference: Ref) -> Option<Ref>
    ensures { through_writes write reference ≡ option_to_list result }
{
    (write == WriteMode::Through && is_write(reference.access)).then_some(reference)
}
