//! Why a service did not come to a settled end.

ghost use Rattle.std.specs.Prelude.{◌≡◌};
ghost use Rattle.std.specs.IoError.{error_kind};
ghost use Rattle.lambda_local.specs.Faults.{of_input};
ghost use Rattle.lambda_local.specs.Status.{status_of};

use account_lock::{SettleFault, Unsettled};
use arn_ids::ConfigFault;
use http_front::HostFault;
use lambda_wire::WireFault;
use std::alloc::AllocError;
use std::io;
use thiserror::Error;
use usage_ledger::Ledgers;

/// Why a service did not come to a settled end. It prints as the program's line on standard error.
#[derive(Clone, Copy, Debug, PartialEq, Eq, Error)]
pub enum ServeFault {
    /// The configuration has a fault.
    #[error("configuration: {0}")]
    Config(ConfigFault),
    /// The file does not hold a configuration.
    #[error("configuration: {0:?}")]
    Wire(WireFault),
    /// A port of the configuration is also listed as one all of whose requests are handed over.
    #[error("LAMBDA_LOCAL_HANDLED: DuplicatePort")]
    PortInBoth,
    /// The shares of the threads do not settle.
    #[error("settlement: {0}")]
    Settlement(SettleFault),
    /// The configuration's file could not be read.
    #[error("input: failed")]
    Read,
    /// Standard output could not be written.
    #[error("output: failed")]
    Write,
    /// A port is taken, or listening failed.
    #[error("network: failed")]
    Network,
    /// The process may not open enough descriptors for the ports and one connection.
    #[error("network: too few descriptors (ulimit -n)")]
    TooFewDescriptors,
    /// The process may not start the threads of a service with one connection.
    #[error("too few threads (ulimit -u)")]
    TooFewThreads,
    /// An allocation failed.
    #[error("out of memory")]
    OutOfMemory,
}

impl ServeFault {
    /// Returns the exit status of a program that ends with it: 2 if the configuration or a variable is at
    /// fault, 3 if the account does not settle, and 4 if the machine is at fault.
    pub fn status(self) -> u8
        ensures { result ≡ status_of self }
    {
        match self {
            ServeFault::Config(_) | ServeFault::Wire(_) | ServeFault::PortInBoth => 2,
            ServeFault::Settlement(_) => 3,
            ServeFault::Read
            | ServeFault::Write
            | ServeFault::Network
            | ServeFault::TooFewDescriptors
            | ServeFault::TooFewThreads
            | ServeFault::OutOfMemory => 4,
        }
    }

    /// Returns the fault for an error while the configuration is read.
    pub fn at_input(fault: &io::Error) -> ServeFault
        ensures { result ≡ of_input (error_kind fault.now) }
    {
        match fault.kind() {
            io::ErrorKind::OutOfMemory => ServeFault::OutOfMemory,
            _ => ServeFault::Read,
        }
    }

    /// Returns the fault for an error on standard output.
    pub fn at_output(fault: &io::Error) -> ServeFault {
        match fault.kind() {
            io::ErrorKind::OutOfMemory => ServeFault::OutOfMemory,
            _ => ServeFault::Write,
        }
    }
}

impl From<AllocError> for ServeFault {
    ghost use Rattle.std.specs.Prelude.{◌≡◌};
    ghost use Rattle.lambda_local.specs.declared.serve_fault.ServeFault.TheVariants.{OutOfMemory};

    ghost from_gives = { λ _ made. made ≡ OutOfMemory };

    fn from(_refused: AllocError) -> ServeFault {
        ServeFault::OutOfMemory
    }
}

impl From<WireFault> for ServeFault {
    ghost use Rattle.std.specs.Prelude.{◌≡◌};
    ghost use Rattle.lambda_local.specs.Faults.{of_wire};

    ghost from_gives = { λ fault made. made ≡ of_wire fault };

    fn from(fault: WireFault) -> ServeFault {
        match fault {
            WireFault::OutOfMemory => ServeFault::OutOfMemory,
            _ => ServeFault::Wire(fault),
        }
    }
}

impl From<HostFault> for ServeFault {
    ghost use Rattle.std.specs.Prelude.{◌≡◌};
    ghost use Rattle.lambda_local.specs.Faults.{of_host};

    ghost from_gives = { λ fault made. made ≡ of_host fault };

    fn from(fault: HostFault) -> ServeFault {
        match fault {
            HostFault::Config(fault) => ServeFault::Config(fault),
            HostFault::Network => ServeFault::Network,
            HostFault::TooFewDescriptors => ServeFault::TooFewDescriptors,
            HostFault::TooFewThreads => ServeFault::TooFewThreads,
            // The account lacks the tally of a thread that never ended.
            HostFault::StillShared => ServeFault::Settlement(SettleFault::TallyMissing),
            HostFault::OutOfMemory => ServeFault::OutOfMemory,
        }
    }
}

impl<L: Ledgers> From<Unsettled<L>> for ServeFault {
    ghost use Rattle.std.specs.Prelude.{◌≡◌};
    ghost use Rattle.lambda_local.specs.Faults.{of_settling};

    ghost from_gives = { λ unsettled made. made ≡ of_settling unsettled.fault };

    fn from(unsettled: Unsettled<L>) -> ServeFault {
        match unsettled.fault {
            SettleFault::OutOfMemory => ServeFault::OutOfMemory,
            fault => ServeFault::Settlement(fault),
        }
    }
}
