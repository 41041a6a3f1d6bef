//! How many invocations each function has in flight, and whether its limit admits one more.
#![tactic(auto)]

pub mod laws;
mod pool;

pub use pool::{Pool, Usage};
