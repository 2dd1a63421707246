//! Why the benchmark ends early, and why a command did.
ghost use Rattle.std.specs.Prelude.{◌≡◌};
ghost use Rattle.user_jobs.specs.declared.faults.JobsFault.TheVariants.{Memory};

use arguments::WordsFault;
use std::alloc::AllocError;
use thiserror::Error;
use trace_core::RunFault;

/// What the arguments have to be.
pub const USAGE: &str = "usage: user_jobs SEED + KIND LINES [x COUNT] / WORDS.. / WORDS.. + ..";

/// Why the benchmark ends before all its commands are done.
#[derive(Debug, Drop, Error)]
pub enum JobsFault {
    /// The arguments are no seed and groups. The text says what they have to be.
    #[error("{0}")]
    Usage(&'static str),
    /// There was not enough memory for the traces.
    #[error("out of memory")]
    Memory,
    /// Standard output failed.
    #[error("write failed")]
    Output,
}

impl JobsFault {
    /// The status that the program ends with.
    pub fn status(&self) -> u8 {
        match self {
            JobsFault::Usage(_) => 2,
            _ => 1,
        }
    }
}

impl From<AllocError> for JobsFault {
    ghost from_gives = { λ _ e. e ≡ Memory };

    fn from(_error: AllocError) -> JobsFault {
        JobsFault::Memory
    }
}

/// Why a command ended early.
#[derive(Debug, Drop, Error)]
pub enum TaskFault {
    /// Its words give no job.
    #[error("{0}")]
    Words(WordsFault),
    /// Its job stopped.
    #[error("{0}")]
    Run(RunFault),
}
