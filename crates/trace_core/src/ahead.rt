//! How far a loop is ahead of its reader.
ghost use Rattle.std.specs.Prelude.{◌≡◌};

/// How far a loop is ahead of its reader: the lines that only the loop has passed over, and their
/// bytes. They stand in the loop and not in the reader, so that they stay in registers. Where a
/// line begins is known only when the one before it was read, and each line would wait longer for a
/// number that goes through memory.
#[derive(Clone, Copy, Debug, PartialEq, Eq)]
pub struct Ahead {
    pub(crate) lines: u64,
    pub(crate) bytes: usize,
}

impl Ahead {
    /// Not ahead at all.
    #[inline(always)]
    pub fn none() -> Ahead
        ensures { result ≡ record { lines = 0; bytes = 0 } }
    {
        Ahead { lines: 0, bytes: 0 }
    }
}
