//! Lists of slots that change in a few steps, and an index that finds the slot of a block.
#![tactic(auto)]

pub mod block_index;
pub mod chains;
pub mod slot_lists;

pub use block_index::BlockIndex;
pub use chains::{chain_among, find_on_chain};
pub use slot_lists::SlotLists;
