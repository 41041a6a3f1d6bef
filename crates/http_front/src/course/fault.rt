//! Why a request has no response.

use long_poll::ExchangeFault;
use std::alloc::AllocError;
use thiserror::Error;

/// Why a request has no response, so that its connection is closed.
#[derive(Clone, Copy, Debug, Drop, Error, PartialEq, Eq)]
pub enum ResponseFault {
    /// The request's body failed before its end, an allocation failed, or a bell was lost.
    #[error("{0}")]
    Exchange(ExchangeFault),
    /// The reply's status does not have three digits (RFC 9110, section 15).
    #[error("no status code")]
    BadStatus,
    /// An allocation failed.
    #[error("out of memory")]
    OutOfMemory,
}

impl From<AllocError> for ResponseFault {
    fn from(_refused: AllocError) -> ResponseFault {
        ResponseFault::OutOfMemory
    }
}

impl From<ExchangeFault> for ResponseFault {
    fn from(fault: ExchangeFault) -> ResponseFault {
        ResponseFault::Exchange(fault)
    }
}
