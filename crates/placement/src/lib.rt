//! Where an invocation goes: which of its function's environments takes it.
#![tactic(auto)]

mod class;
mod env_set;
mod free;
pub mod laws;
mod places;

pub use class::Class;
pub use places::{Place, Places};
