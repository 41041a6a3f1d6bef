//! The deadlines of an account's environments, and which of them comes first.
#![tactic(auto)]

mod due;
pub mod laws;

pub use due::Due;
