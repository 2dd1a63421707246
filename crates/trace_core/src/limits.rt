//! The limits of a trace.

/// The most bytes that a line may have before its LF.
pub const MAX_LINE: usize = 4096;

/// The most lines that a reader may be asked to take, 2^40.
pub const MAX_LINES: u64 = 1_099_511_627_776;
