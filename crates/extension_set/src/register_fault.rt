//! Why an extension is not registered.

use thiserror::Error;

/// Why an extension is not registered: the first reason that applies (Extensions API: Register).
#[derive(Clone, Copy, Debug, PartialEq, Eq, Error)]
pub enum RegisterFault {
    /// An extension of this name is registered in the present generation.
    #[error("NameInUse")]
    NameInUse,
    /// Ten extensions are registered (Lambda quotas).
    #[error("TooMany")]
    TooMany,
}
