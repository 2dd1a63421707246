//! The commands: what `csim`, `din` and `log` read and write, and how a job is done.
#![tactic(auto)]

pub mod csim;
mod csim_text;
pub mod din;
mod din_text;
pub mod execute;
pub mod log;
mod log_text;
mod text;
