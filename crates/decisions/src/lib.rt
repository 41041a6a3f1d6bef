//! What is done with a request, and who decides it.
#![tactic(auto)]

mod decide;
mod received;

pub use decide::{ClockRequest, Decide, Decision, Shown, TraceQuery};
pub use received::Received;
