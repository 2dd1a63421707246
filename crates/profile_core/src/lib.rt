//! One pass over a trace that counts for every associativity up to a depth (Mattson, Gecsei, Slutz
//! and Traiger 1970).
#![tactic(auto)]

pub mod laws;
pub mod profile;
mod rests;
mod rows;
mod set_lists;
pub mod slots;

pub use profile::{MAX_REFERENCES, Profile};
pub use set_lists::recency::Standing;
