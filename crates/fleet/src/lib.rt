//! The environments of an account: one of them with its function, and which of them an entry reaches.
#![tactic(auto)]

mod reach;
mod site;

pub use reach::Reach;
pub use site::Site;
