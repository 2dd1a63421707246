//! A list of different blocks, the most recent first, with a value beside each, that says where a
//! block stands without a walk over the list.
#![tactic(auto)]

mod chains;
pub mod deep;
mod slots;

pub use deep::{DeepList, Exchanged};
