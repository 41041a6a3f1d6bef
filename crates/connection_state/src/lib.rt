//! What is known of a connection outside its thread: the state that it publishes, how long it may stay
//! in that state, and the signals that end it.
#![tactic(auto)]

mod limits;
mod pulse;
mod signals;

pub use limits::has_outstayed;
pub use pulse::{Awaited, Pulse, Told};
pub use signals::{Ender, Signal, Signals};
