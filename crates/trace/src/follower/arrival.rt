//! A call on its way to the environments.

use call_model::{Call, Ticket};
use fleet::Reach;

/// A call on its way to the environments that it concerns.
#[derive(Clone, Copy)]
pub(crate) struct Arrival<'a> {
    /// The call's ticket.
    pub(crate) ticket: Ticket,
    /// The moment in milliseconds, below 2^53.
    pub(crate) moment: u64,
    /// The environments that it concerns.
    pub(crate) reach: Reach,
    /// The call.
    pub(crate) call: &'a Call,
}
