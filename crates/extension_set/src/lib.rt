//! The extensions of one generation of an environment, and the answers that an entry gives there.
#![tactic(auto)]

mod member;
mod moves;
mod name;
mod register_fault;
mod set;
mod turn;

pub use member::Member;
pub use moves::Moves;
pub use register_fault::RegisterFault;
pub use set::ExtensionSet;
pub use turn::{CLOSING_LIMIT, Turn};
