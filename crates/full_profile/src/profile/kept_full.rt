//! The ways in which a full profile can keep its lists.
ghost use Rattle.std.specs.Prelude.{◌≡◌, IfOk};
ghost use Rattle.full_profile.specs.State.{empty_full};
ghost use Rattle.full_profile.specs.internal.KeptFull.{full_kept};

use crate::marked_lists::long_lists::{DEEP, LongLists};
use crate::marked_lists::rows::ListRows;
use crate::marked_lists::slotted::{MOST, SlottedLists};
use crate::marked_lists::sparse::SparseRows;
use crate::marked_lists::touched::TouchedLists;
use crate::profile::stack_profile::FullStackProfile;
use cache_core::Geometry;
use std::alloc::{AllocError, Global};

/// From this many ways up to `MOST`, lists are kept in slots; with fewer ways it costs less to move
/// the blocks.
const SLOTTED_FROM: usize = 12;

/// With more sets than this, a plain profile keeps no list in slots, either, and clearing all rows
/// at the start would clear more memory than most traces use.
const MANY_SETS: usize = 4096;

/// With fewer ways than this, looking up where a set's row is costs more than is saved by not
/// clearing all rows at the start.
const MANY_WAYS: usize = 32;

/// A full profile, with its lists kept in one of these ways.
#[derive(Drop)]
pub enum KeptFull {
    /// A row of blocks for each set, in the order of the sets, and a row of clean depths.
    Rows(FullStackProfile<TouchedLists<ListRows>>),
    /// The fronts in one array, and the other blocks of a set in its slots.
    Slots(FullStackProfile<TouchedLists<SlottedLists>>),
    /// A row for each set that has had a block.
    Sparse(FullStackProfile<TouchedLists<SparseRows>>),
    /// For long lists: the first blocks of each in a row, and the others in a deep list.
    Long(FullStackProfile<TouchedLists<LongLists>>),
}

impl KeptFull {
    /// A profile to which nothing was fed.
    pub fn new(alloc: Global, geometry: Geometry) -> Result<KeptFull, AllocError>
        ensures { IfOk result (λ kept. full_kept kept ≡ empty_full geometry) }
    {
        let (sets, depth) = (geometry.sets() as usize, geometry.e() as usize);
        if depth >= SLOTTED_FROM && depth <= MOST && sets <= MANY_SETS {
            let lists = TouchedLists::in_slots(alloc, sets, depth)?;
            return Ok(KeptFull::Slots(FullStackProfile::new(alloc, geometry, lists)?));
        }
        if depth >= DEEP {
            let lists = TouchedLists::in_parts(alloc, sets, depth)?;
            return Ok(KeptFull::Long(FullStackProfile::new(alloc, geometry, lists)?));
        }
        if sets > MANY_SETS && depth >= MANY_WAYS {
            let lists = TouchedLists::in_sparse(alloc, sets, depth)?;
            return Ok(KeptFull::Sparse(FullStackProfile::new(alloc, geometry, lists)?));
        }
        let lists = TouchedLists::in_rows(alloc, sets, depth)?;
        Ok(KeptFull::Rows(FullStackProfile::new(alloc, geometry, lists)?))
    }
}
