//! The ways in which a profile can keep its lists.
ghost use Rattle.std.specs.Prelude.{◌≡◌, IfOk};
ghost use Rattle.profile_core.specs.internal.profile.KeptProfile.{profile_kept};
ghost use Rattle.profile_core.specs.profile.State.{empty};

use crate::profile::stack_profile::StackProfile;
use crate::rests::slotted::SlottedRests;
use crate::rests::sparse::SparseRests;
use crate::rows::plain::PlainRows;
use crate::rows::split::SplitRows;
use crate::set_lists::long_lists::{DEEP, LongLists};
use crate::set_lists::recency::RecencyLists;
use cache_core::Geometry;
use std::alloc::{AllocError, Global};

/// With more sets than this, clearing all rows of blocks at the start would clear more memory than
/// most traces use.
const MANY_SETS: usize = 4096;

/// With fewer ways than this, looking up where a set's row is costs more than is saved by not
/// clearing all rows at the start.
const MANY_WAYS: usize = 32;

/// From this many ways up to `SLOTTED_TO`, the blocks behind the second are kept in slots; with
/// fewer ways it costs less to move them. The 16 lanes of a vector would be enough for 18 ways,
/// since the first two blocks are kept elsewhere.
const SLOTTED_FROM: usize = 12;

const SLOTTED_TO: usize = 16;

/// A profile, with its lists kept in one of these ways. The fronts of all lists are in one array.
/// The ways differ in how they keep the blocks behind the front.
#[derive(Drop)]
pub enum KeptProfile {
    /// A row of blocks for each set, in the order of the sets.
    InRows(StackProfile<RecencyLists<PlainRows>>),
    /// The second blocks in one array, and the others in slots, which a set takes when it needs
    /// them.
    InSlots(StackProfile<RecencyLists<SplitRows<SlottedRests>>>),
    /// The second blocks in one array, and the others in a rest, which a set takes when it needs
    /// one.
    InSparseRows(StackProfile<RecencyLists<SplitRows<SparseRests>>>),
    /// For long lists: the first blocks of each in a row of blocks, and the others in a deep list.
    Long(StackProfile<LongLists>),
}

impl KeptProfile {
    /// A profile to which nothing was fed.
    pub fn new(alloc: Global, geometry: Geometry) -> Result<KeptProfile, AllocError>
        ensures { IfOk result (λ kept. profile_kept kept ≡ empty geometry) }
    {
        let (sets, depth) = (geometry.sets() as usize, geometry.e() as usize);
        if depth >= DEEP {
            let lists = LongLists::new(alloc, sets, depth)?;
            return Ok(KeptProfile::Long(StackProfile::new(alloc, geometry, lists)?));
        }
        let rows = PlainRows::new(alloc, sets, depth - 1)?;
        let lists = RecencyLists::new(alloc, rows, sets)?;
        Ok(KeptProfile::InRows(StackProfile::new(alloc, geometry, lists)?))
    }

    /// A profile as `new` makes it, except with 12 to 16 ways and few sets, or with many ways and
    /// many sets. There a set takes memory for the blocks behind its second when it needs it, and
    /// nothing is cleared for sets that a trace doesn't reach.
    pub fn sparse(alloc: Global, geometry: Geometry) -> Result<KeptProfile, AllocError>
        ensures { IfOk result (λ kept. profile_kept kept ≡ empty geometry) }
    {
        let (sets, depth) = (geometry.sets() as usize, geometry.e() as usize);
        if depth >= SLOTTED_FROM && depth <= SLOTTED_TO && sets <= MANY_SETS {
            let rests = SlottedRests::new(alloc, sets, depth - 2)?;
            let rows = SplitRows::new(alloc, rests, sets)?;
            let lists = RecencyLists::new(alloc, rows, sets)?;
            return Ok(KeptProfile::InSlots(StackProfile::new(alloc, geometry, lists)?));
        }
        if sets > MANY_SETS && depth >= MANY_WAYS && depth < DEEP {
            let rests = SparseRests::new(alloc, sets, depth - 2)?;
            let rows = SplitRows::new(alloc, rests, sets)?;
            let lists = RecencyLists::new(alloc, rows, sets)?;
            return Ok(KeptProfile::InSparseRows(StackProfile::new(alloc, geometry, lists)?));
        }
        KeptProfile::new(alloc, geometry)
    }
}
