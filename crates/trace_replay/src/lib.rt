//! The trace of a script: reads a configuration and calls, and writes the trace of the history that they
//! lead to.
#![tactic(auto)]

mod history;
pub mod laws;
mod replay;

pub use replay::trace;
