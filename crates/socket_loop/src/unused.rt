//! A socket that was closed before anything was written to it.

use futures::task::Source;
use std::io;

/// A socket that was accepted, and closed before anything was written to it, and why. Contracts know it
/// by its name, which shows that it has no [`Writer`](crate::Writer).
#[derive(Drop)]
pub struct Unused {
    pub fault: io::Error,
    pub(crate) event: Source,
}
