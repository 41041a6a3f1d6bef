//! Why a host did not open, or did not come to its end.

ghost use Rattle.http_front.specs.HostFaults.{IsOfMachine};

use account_book::OpenFault;
use arn_ids::ConfigFault;
use std::alloc::AllocError;
use std::io;
use thiserror::Error;

/// Why a host did not open, or did not come to its end.
#[derive(Clone, Copy, Debug, Drop, Error, PartialEq, Eq)]
pub enum HostFault {
    /// The configuration has a fault, or the history's entries are out of their range.
    #[error("{0}")]
    Config(ConfigFault),
    /// A port could not be listened on, for instance because another program has it, or listening
    /// failed.
    #[error("network failed")]
    Network,
    /// The process may not open enough descriptors for the ports and one connection (`ulimit -n`).
    #[error("too few descriptors")]
    TooFewDescriptors,
    /// The process may not start the threads of a service with one connection (`ulimit -u`).
    #[error("too few threads")]
    TooFewThreads,
    /// The account or a tally was still shared when every thread had ended.
    #[error("still shared")]
    StillShared,
    /// An allocation failed.
    #[error("out of memory")]
    OutOfMemory,
}

impl From<AllocError> for HostFault {
    ghost use Rattle.std.specs.Prelude.{◌≡◌};
    ghost use Rattle.http_front.specs.declared.host.fault.HostFault.TheVariants.{OutOfMemory};

    ghost from_gives = { λ _ made. made ≡ OutOfMemory };

    fn from(_refused: AllocError) -> HostFault {
        HostFault::OutOfMemory
    }
}

impl From<OpenFault> for HostFault {
    ghost use Rattle.std.specs.Prelude.{◌≡◌};
    ghost use Rattle.http_front.specs.HostFaults.{fault_of_opening};

    ghost from_gives = { λ fault made. made ≡ fault_of_opening fault };

    fn from(fault: OpenFault) -> HostFault {
        match fault {
            OpenFault::EntriesOutOfRange => HostFault::Config(ConfigFault::EntriesOutOfRange),
            OpenFault::OutOfMemory => HostFault::OutOfMemory,
        }
    }
}

/// The numbers of the errors for no descriptor left, in the process and in the machine (POSIX,
/// errno.h; the numbers are those of Linux).
const EMFILE: i32 = 24;

const ENFILE: i32 = 23;

/// Returns the fault for an error at a socket.
pub(crate) fn at_socket(fault: io::Error) -> HostFault
    ensures { IsOfMachine result }
{
    match (fault.kind(), fault.raw_os_error()) {
        (io::ErrorKind::OutOfMemory, _) => HostFault::OutOfMemory,
        (_, Some(EMFILE | ENFILE)) => HostFault::TooFewDescriptors,
        _ => HostFault::Network,
    }
}
