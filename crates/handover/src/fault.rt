//! Why a request cannot wait, and why an answer is refused.

ghost use Rattle.std.specs.Prelude.{◌≡◌};
ghost use Rattle.handover.specs.declared.fault.PutFault.TheVariants.{OutOfMemory};

use std::alloc::{AllocError, AllocFailed};
use thiserror::Error;

/// Why a request cannot wait for a handler: the first of these that holds, in this order.
#[derive(Clone, Copy, Debug, PartialEq, Eq, Error)]
pub enum PutFault {
    /// As many requests wait or are at handlers as may.
    #[error("too many requests wait for a handler")]
    TooMany,
    /// The bytes of those that wait, with its own, are more than may wait.
    #[error("the requests that wait for a handler are too long")]
    TooManyBytes,
    /// All identifiers have been given.
    #[error("no identifier is left for a request")]
    NoIdentifier,
    /// There was no memory for it.
    #[error("out of memory")]
    OutOfMemory,
}

impl From<AllocError> for PutFault {
    ghost from_gives = { λ _ e. e ≡ OutOfMemory };

    fn from(_e: AllocError) -> PutFault {
        PutFault::OutOfMemory
    }
}

impl<T: Drop> From<AllocFailed<T>> for PutFault {
    ghost from_gives = { λ _ e. e ≡ OutOfMemory };

    fn from(_e: AllocFailed<T>) -> PutFault {
        PutFault::OutOfMemory
    }
}

/// Why a handler cannot answer a request.
#[derive(Clone, Copy, Debug, PartialEq, Eq, Error)]
pub enum NotTaken {
    /// The request still waits: no handler has taken it.
    #[error("no handler has taken the request")]
    StillWaits,
    /// Another handler has taken it.
    #[error("another handler has taken the request")]
    ByAnother,
    /// It was answered, it failed, or its requester went away.
    #[error("the request is over")]
    IsOver,
    /// No request has had this identifier yet.
    #[error("there is no request with this identifier")]
    NotGiven,
}
