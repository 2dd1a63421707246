//! Jobs.

use cache_core::{Geometry, Plan};
use sweep_core::Request;
use trace_core::Format;

/// The job that a command line asks for. `max_lines` is the most lines that the trace may have, 1
/// to `MAX_LINES`.
#[derive(Clone, Copy, Debug)]
pub enum Job {
    Csim {
        geometry: Geometry,
        verbose: bool,
        max_lines: u64,
    },
    Din {
        plan: Plan,
        seed: u64,
        format: Format,
        max_lines: u64,
    },
    Log {
        plan: Plan,
        seed: u64,
        format: Format,
        max_lines: u64,
    },
    Sweep {
        request: Request,
    },
    /// A sweep with the full table.
    FullSweep {
        request: Request,
    },
}
