//! Why bytes could not be read.

ghost use Rattle.std.specs.Prelude.{◌≡◌};
ghost use Rattle.lambda_wire.specs.declared.fault.WireFault.TheVariants.{OutOfMemory};

use std::alloc::{AllocError, AllocFailed};
use thiserror::Error;

/// Why a body could not be read: the first of these that holds, in this order.
#[derive(Clone, Copy, Debug, PartialEq, Eq, Error)]
pub enum WireFault {
    /// There are more bytes than a body of this kind may have.
    #[error("the body is too long")]
    TooLong,
    /// The bytes aren't a JSON text (RFC 8259) in UTF-8, or nest more than 127 arrays and objects.
    #[error("the body is not JSON")]
    NotJson,
    /// The JSON doesn't have the required form.
    #[error("the JSON is not of the form that is wanted")]
    BadShape,
    /// An extension asks for an event that is neither INVOKE nor SHUTDOWN.
    #[error("an event is neither INVOKE nor SHUTDOWN")]
    BadEvent,
    /// There was no memory for the values that were read.
    #[error("out of memory")]
    OutOfMemory,
}

impl From<AllocError> for WireFault {
    ghost from_gives = { λ _ e. e ≡ OutOfMemory };

    fn from(_e: AllocError) -> WireFault {
        WireFault::OutOfMemory
    }
}

impl<T: Drop> From<AllocFailed<T>> for WireFault {
    ghost from_gives = { λ _ e. e ≡ OutOfMemory };

    fn from(_e: AllocFailed<T>) -> WireFault {
        WireFault::OutOfMemory
    }
}
