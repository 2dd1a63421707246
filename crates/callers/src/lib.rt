//! Short callers of the libraries, each proved from the contracts and laws alone: what a caller
//! gets to know, and how it says so. The pages `CALLING.md` of six libraries print one each, and
//! name the others.
#![tactic(auto)]

pub mod batches;
pub mod doubling;
pub mod observers;
pub mod pages;
pub mod policies;
pub mod profiles;
pub mod readers;
pub mod runs;
pub mod simulations;
pub mod smallest;
pub mod spaces;
pub mod sweeps;
pub mod traffic;
pub mod words;
