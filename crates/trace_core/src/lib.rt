//! Traces: sources of bytes, din and lackey lines, and the references that they stand for.
#![tactic(auto)]

mod ahead;
mod buffer;
pub mod devices;
mod digits;
pub mod events;
mod fast_line;
pub mod fault;
pub mod io;
pub mod laws;
mod limits;
pub mod line;
mod nibbles;
mod plain_line;
pub mod reader;
mod scan;
mod state;
pub mod text;

pub use ahead::Ahead;
pub use events::{Access, Entry, Event, Item, Kind, Op, Ref, refs_of};
pub use fault::{RunFault, TraceFault};
pub use io::{DeviceFault, FromRead, Sink, Source, ToWrite, write_all};
pub use limits::{MAX_LINE, MAX_LINES};
pub use line::{Format, LineFault, read_line};
pub use reader::{Lines, ReaderState};
