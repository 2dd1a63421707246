//! One cache: its sets are walked over, or its blocks are found by an index.
pub(crate) mod chosen;
mod effects;
mod indexed;
mod walked;

pub use walked::Cache;
