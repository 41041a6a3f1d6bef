//! The trace of a history: a JSON object for each entry, with what the entry made of each environment; and the
//! object of the environments as they are.
//!
//! The groups of modules stand in the order in which to read them.
#![tactic(auto)]

// The environments after a history, followed entry by entry: each keeps its phase before the newest entry that reached
// it, from which what an entry made of it is told.
mod follower;

// An object before it is written: a `Draft` shares the bodies of its calls and answers; a `Teller` builds it, part by
// part; its line is a text that is taken in pieces.
mod draft;

// The object of an entry: its call, its answers, and the phases of the environments that it moved; and the object of
// all environments as they are.
mod listing;
mod object;

// What follows for the trace: the calls of its lines are read back, and its lines stay.
pub mod laws;

pub use draft::Draft;
pub use follower::Follower;
pub use listing::Listing;
