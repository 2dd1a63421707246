//! The state of a reader.
use crate::fault::TraceFault;

/// The state of a reader: it reads on, or it has met the end or a fault.
#[derive(Clone, Copy, Debug, PartialEq, Eq)]
pub enum ReaderState {
    Open,
    Ended,
    Failed(TraceFault),
}
