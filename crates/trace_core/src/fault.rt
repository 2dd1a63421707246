//! Why a trace can't be read on, and why a run over one stops.
ghost use Rattle.std.specs.Prelude.{◌≡◌};
ghost use Rattle.trace_core.specs.declared.fault.RunFault.TheVariants.{Memory, Trace, Write};

use crate::io::DeviceFault;
use crate::limits::MAX_LINE;
use crate::line::LineFault;
use std::alloc::AllocError;
use thiserror::Error;

/// Why a trace can't be read on. Lines are numbered from 1.
#[derive(Clone, Copy, Debug, PartialEq, Eq, Error)]
pub enum TraceFault {
    /// The source failed in this line, and nothing that it delivered before is at fault.
    #[error("line {line}: read failed")]
    Read { line: u64 },
    /// More than `MAX_LINE` bytes of this line came without an LF.
    #[error("line {line}: longer than {MAX_LINE} bytes")]
    TooLong { line: u64 },
    /// A byte came after this many lines, the most that there may be.
    #[error("more than {limit} lines")]
    TooManyLines { limit: u64 },
    /// This line is whole, and a field of it is bad.
    #[error("line {line}: {fault}")]
    Line { line: u64, fault: LineFault },
}

/// Why a run stopped before its end. A run takes its memory, then reads its trace, and then writes
/// what it still has to write.
#[derive(Clone, Copy, Debug, PartialEq, Eq, Error)]
pub enum RunFault {
    /// There was not enough memory.
    #[error("out of memory")]
    Memory,
    /// The trace can't be read on, or its source failed.
    #[error("{0}")]
    Trace(TraceFault),
    /// The sink failed.
    #[error("write failed")]
    Write,
}

impl From<AllocError> for RunFault {
    ghost from_gives = { λ _ fault. fault ≡ Memory };

    fn from(_error: AllocError) -> RunFault {
        RunFault::Memory
    }
}

impl From<TraceFault> for RunFault {
    ghost from_gives = { λ trace fault. fault ≡ Trace trace };

    fn from(fault: TraceFault) -> RunFault {
        RunFault::Trace(fault)
    }
}

/// A `DeviceFault` here comes from the sink; a source's failure arrives as `TraceFault::Read`.
impl From<DeviceFault> for RunFault {
    ghost from_gives = { λ _ fault. fault ≡ Write };

    fn from(_fault: DeviceFault) -> RunFault {
        RunFault::Write
    }
}
