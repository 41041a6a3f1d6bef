//! One HTTP/1.1 connection, which `hyper` serves with any service: its socket, the signals that end
//! it, and the state that it publishes.
//!
//! The groups of modules stand in the order in which to read them.
#![tactic(auto)]

// A connection's socket, and what is known of it: the position in its input, its state, which others read while it is
// served.
mod input;
mod socket;
mod stand;
mod wire;

// How `hyper` is held: a connection that is served in turns, a service that notes when a request is taken up and when
// its response is ready, and whether that response is parked.
mod noting;
mod park;
mod turns;

// A connection with the signals that end it, and the loop that serves one after the other on a thread.
mod ending;
mod event_loop;
mod machine;

pub use event_loop::{Ended, Ends, EventLoop};
pub use machine::Machine;
pub use park::Park;
pub use wire::Wire;
