//! One account behind a lock: its book, the bells of the callers that wait for an answer, and the
//! totals of what its threads counted.
//!
//! The groups of modules stand in the order in which to read them.
#![tactic(auto)]

// A `Desk` takes one call after the other: it hands out the bells of the callers that then have an answer, and counts
// each step in the tally of the caller's thread.
mod desk;

// An `Account` is a desk that threads share, behind a Mutex, for one step or one look at a time.
mod account;

// The trace of its history is read along a `Trail`, one entry at a time; the environments are listed as they are.
mod tracing;

// Settlement compares what the tallies counted with the book.
mod settle;

// What follows for accounts that were settled, and for calls that were taken.
pub mod laws;

pub use account::{Account, Identity};
pub use desk::{AtOnce, Bell, Desk, Look, NotTaken, Refused, Ringer, Rings, Step};
pub use settle::{SettleFault, Settled, Unsettled};
pub use tracing::Trail;
