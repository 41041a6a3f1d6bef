//! Why a replay ends before its input does.

ghost use Rattle.std.specs.Prelude.{◌≡◌};
ghost use Rattle.script_replay.specs.Status.{status_of};
ghost use Rattle.script_replay.specs.declared.fault.ReplayFault.TheVariants.{OutOfMemory};

use arn_ids::ConfigFault;
use lambda_wire::WireFault;
use std::alloc::{AllocError, AllocFailed};
use thiserror::Error;

/// Why a replay ends before its input does. It is printed as the line that the program writes to
/// standard error.
#[derive(Clone, Copy, Debug, PartialEq, Eq, Error)]
pub enum ReplayFault {
    /// The configuration has this fault.
    #[error("configuration: {0}")]
    Config(ConfigFault),
    /// The configuration's line cannot be read.
    #[error("configuration: {0:?}")]
    Wire(WireFault),
    /// This line is not a call, or is too long. The first line is 1.
    #[error("script: line {line}")]
    Script { line: u64 },
    /// The reader failed, or was called 2^32 times without reaching the end of its input.
    #[error("input: failed")]
    Read,
    /// The writer failed, or accepted nothing.
    #[error("output: failed")]
    Write,
    /// An allocation failed.
    #[error("out of memory")]
    OutOfMemory,
}

impl ReplayFault {
    /// Returns the exit status of a program that ends with this fault: 2 if the script is at fault, 4 if
    /// the machine is.
    pub fn status(self) -> u8
        ensures { result ≡ status_of self }
    {
        match self {
            ReplayFault::Config(_) | ReplayFault::Wire(_) | ReplayFault::Script { line: _ } => 2,
            ReplayFault::Read | ReplayFault::Write | ReplayFault::OutOfMemory => 4,
        }
    }
}

impl From<AllocError> for ReplayFault {
    ghost from_gives = { λ _ e. e ≡ OutOfMemory };

    fn from(_e: AllocError) -> ReplayFault {
        ReplayFault::OutOfMemory
    }
}

impl<T: Drop> From<AllocFailed<T>> for ReplayFault {
    ghost from_gives = { λ _ e. e ≡ OutOfMemory };

    fn from(_e: AllocFailed<T>) -> ReplayFault {
        ReplayFault::OutOfMemory
    }
}
