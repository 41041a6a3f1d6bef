//! The replay of a script: reads a configuration and calls, and writes the answers of each call,
//! line by line.
#![tactic(auto)]

mod book;
mod fault;
mod line;
mod player;
mod whole;

pub use fault::ReplayFault;
pub use player::{lead, replay};
pub use whole::write_whole;
