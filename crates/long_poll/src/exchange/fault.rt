//! Why an exchange has no reply.

use std::alloc::AllocError;
use thiserror::Error;

/// Why an exchange has no reply, so that its connection is closed.
#[derive(Clone, Copy, Debug, Drop, Error, PartialEq, Eq)]
pub enum ExchangeFault {
    /// The request's body failed before its end. Nothing was submitted.
    #[error("the body failed")]
    BodyFailed,
    /// An allocation failed. The call may have been submitted.
    #[error("out of memory")]
    OutOfMemory,
    /// The call's bell rang or was lost, and its ticket still had no reply.
    #[error("the bell was lost")]
    BellLost,
}

impl From<AllocError> for ExchangeFault {
    ghost use Rattle.std.specs.Prelude.{◌≡◌};
    ghost use Rattle.long_poll.specs.declared.exchange.fault.ExchangeFault.TheVariants.{OutOfMemory};

    ghost from_gives = { λ _ fault. fault ≡ OutOfMemory };

    fn from(_e: AllocError) -> ExchangeFault {
        ExchangeFault::OutOfMemory
    }
}

/// What the failure of a request's body says of itself.
pub trait BodyFault {
    /// Returns whether an allocation failed, so that the client is not at fault.
    fn is_out_of_memory(&self) -> bool;
}

impl BodyFault for hyper::Error {
    fn is_out_of_memory(&self) -> bool {
        hyper::Error::is_out_of_memory(self)
    }
}
