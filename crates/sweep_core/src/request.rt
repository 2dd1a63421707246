//! A request for a sweep.
use crate::space::{Config, Space};
use trace_core::{Format, Kind};

/// The caches of a sweep, the references that count, and the rows that are written.
#[derive(Clone, Copy, Debug)]
pub struct Request {
    /// The caches that are swept.
    pub space: Space,
    /// Which references count.
    pub kind: Kind,
    /// How the lines of the trace are written.
    pub format: Format,
    /// Only configurations greater than this triple have a row, and there is no header. It may be
    /// any triple.
    pub after: Option<Config>,
    /// The most rows; without it, all.
    pub rows: Option<u64>,
    /// The most lines that the trace may have, 1 to `MAX_LINES`.
    pub max_lines: u64,
}
