//! The journal of an account: its history, and what each call adds to it.
//!
//! The groups of modules stand in the order in which to read them.
#![tactic(auto)]

// What an account keeps beside its entries: its environments, with their deadlines, where invocations go and what is in
// flight; the lists of answers; its totals. All of it is derived from the history, and opened from the empty one.
mod answering;
mod crew;
mod ledger;
mod opening;
mod room;
mod site;
mod totals;

// The history with what is kept beside it, which grows by one entry at a time: what is due, then the call.
mod journal;

// A book takes the calls of one thread, and renders the replies to its clients; an Invoke that comes a moment too early
// is told so, and the numbers that it counts in are in their ranges.
mod book;
mod premature;
mod ranges;
mod rendering;

// The text of the history.
mod history_text;

// What follows for histories and their texts.
pub mod laws;

pub use book::{Book, Life, OpenFault, Refusal};
