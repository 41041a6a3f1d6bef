//! What an environment is given with a call.

use call_model::Ticket;

/// What an environment is given with a call.
#[derive(Clone, Copy)]
pub struct Step {
    /// The call's ticket.
    pub ticket: Ticket,
    /// The moment in milliseconds, below 2^53.
    pub now: u64,
    /// How many Invokes of the environment's function there were, this call included. It is the count
    /// in the request identifier of an Invoke that is placed here.
    pub count: u64,
}
