//! The job that the arguments of the command line ask for.
#![tactic(auto)]

mod csim_job;
mod din_job;
mod dinero;
pub mod faults;
pub mod job;
pub mod laws;
pub mod numbers;
pub mod parse;
mod readings;
mod sweep_job;

pub use faults::WordsFault;
pub use job::Job;
pub use numbers::{read_number, read_range, read_scaled, read_triple};
pub use parse::Command;
