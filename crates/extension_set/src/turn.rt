//! What a call results in at an environment.

use call_model::{Answer, Reason, Ticket};

/// The greatest duration of a Closing, in milliseconds (Lambda execution environment lifecycle:
/// Shutdown phase).
pub const CLOSING_LIMIT: u64 = 2000;

/// What a call results in at an environment, as far as its parked Nexts depend on it.
#[derive(Clone, Copy)]
pub struct Turn {
    /// The call's ticket.
    pub ticket: Ticket,
    /// The moment in milliseconds, below 2^53.
    pub now: u64,
    /// The answer to the call itself: `None` if there is none yet, as for a Next that parks.
    pub own: Option<Answer>,
    /// Why the environment closes, if it does.
    pub closes: Option<Reason>,
}
