//! One execution environment: its phase, its parked polls, and what a call makes of them.
//! (Lambda Developer Guide: Understanding the Lambda execution environment lifecycle)
#![tactic(auto)]

mod environment;
pub mod laws;
mod phases;
mod step;

pub use environment::Environment;
pub use step::Step;
