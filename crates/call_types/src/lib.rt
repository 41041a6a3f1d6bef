//! The types of the calls, answers and entries of one account. `call_model` defines what a history
//! of them means.
#![tactic(auto)]

mod answer;
mod call;
mod head;
mod parts;
mod stats;

pub use answer::{Answer, Phase, Reason, Rejection, Throttle};
pub use call::{Answers, Call, Entry, Ticket};
pub use head::{Head, Kind};
pub use stats::Stats;
