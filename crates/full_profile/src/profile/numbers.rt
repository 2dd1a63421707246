//! The numbers that a full profile counts.

use crate::copies::Copies;
use crate::kind_counts::KindCounts;

/// The numbers of a profile (`profile_core`'s `Histograms`), and with them the misses of each kind
/// of access, in the order of `kind_number`, and the copybacks. `distances` counts the references
/// that found their block, by the stack distance, and `misses_by_occupancy` those that did not find
/// it, by the number of blocks in the list.
#[derive(Drop)]
pub struct Numbers {
    pub distances: Vec<u64>,
    pub misses_by_occupancy: Vec<u64>,
    pub kinds: Vec<KindCounts>,
    pub copies: Copies,
}
