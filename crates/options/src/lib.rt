//! The commands and their options as `clap` gets them, Dinero's spelling, and the texts of help.
#![tactic(auto)]

pub mod app;
pub mod caches;
mod help;
pub mod respell;
pub mod table;
