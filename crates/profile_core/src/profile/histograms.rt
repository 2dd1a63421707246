//! The numbers that a profile counts.

/// Two histograms. `distances` counts the references that found their block, by the stack distance,
/// the block's index in the list. `misses_by_occupancy` counts those that did not find it, by the
/// number of blocks in the list. They tell how many comparisons are counted, so that no step counts
/// these too.
#[derive(Drop)]
pub struct Histograms {
    pub distances: Vec<u64>,
    pub misses_by_occupancy: Vec<u64>,
}
