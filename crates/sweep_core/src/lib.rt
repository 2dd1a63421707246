//! The sweep: every LRU write-allocate configuration of a space, with its counts over one trace.
#![tactic(auto)]

mod batch;
mod feeding;
pub mod full;
pub mod laws;
mod pass;
mod profiles;
pub mod request;
mod row_text;
pub mod rows;
pub mod space;
pub mod sweep;
mod table;

pub use full::{FullRows, FullSweepCounts};
pub use request::Request;
pub use rows::Rows;
pub use space::configs::Configs;
pub use space::{Cause, Config, Space, SpaceFault, Which};
pub use sweep::{SweepCounts, SweepFault};
