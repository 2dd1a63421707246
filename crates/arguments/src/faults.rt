//! Why the arguments give no job.
ghost use Rattle.std.specs.Prelude.{◌≡◌};
ghost use Rattle.arguments.specs.Faults.{status_of};
ghost use Rattle.arguments.specs.declared.faults.WordsFault.TheVariants.{Memory, Plan, Space};

use cache_core::{CacheName, PlanFault};
use std::alloc::AllocError;
use sweep_core::SpaceFault;
use thiserror::Error;

/// Why the arguments give no job. A fault's text is its `Display`.
#[derive(Debug, Drop, Error)]
pub enum WordsFault {
    /// Memory was refused.
    #[error("out of memory")]
    Memory,
    /// The arguments are no call of a command, as the text of `clap` says, or one about an option
    /// of Dinero IV; or help was asked for, which is then the text.
    #[error("{text}")]
    Usage { text: String, help: bool },
    /// The value of an option can't be read. The option is named as the tables of options do.
    #[error("{option}: bad value")]
    Value { option: &'static str },
    /// A cache of `din` has an option, but no block size, or neither a size nor a number of sets.
    #[error("{cache}: size and bsize are needed")]
    Incomplete { cache: CacheName },
    /// No cache of `csim` has these numbers.
    #[error("bad geometry")]
    BadShape,
    /// The caches of `din` give no plan.
    #[error("{0}")]
    Plan(PlanFault),
    /// The ranges of a sweep give no space.
    #[error("{0}")]
    Space(SpaceFault),
}

impl WordsFault {
    /// The status that the program ends with: 0 if help was asked for, 1 for `Memory`, and
    /// otherwise 2.
    pub fn status(&self) -> u8
        ensures { result ≡ status_of self.now }
    {
        match self {
            WordsFault::Usage { help: true, .. } => 0,
            WordsFault::Memory => 1,
            _ => 2,
        }
    }
}

impl From<AllocError> for WordsFault {
    ghost from_gives = { λ _ e. e ≡ Memory };

    fn from(_error: AllocError) -> WordsFault {
        WordsFault::Memory
    }
}

impl From<SpaceFault> for WordsFault {
    ghost from_gives = { λ fault e. e ≡ Space fault };

    fn from(fault: SpaceFault) -> WordsFault {
        WordsFault::Space(fault)
    }
}

impl From<PlanFault> for WordsFault {
    ghost from_gives = { λ fault e. e ≡ Plan fault };

    fn from(fault: PlanFault) -> WordsFault {
        WordsFault::Plan(fault)
    }
}
