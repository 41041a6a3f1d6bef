//! Replies: the status, headers and body that a client gets for the answer to its call.
#![tactic(auto)]

mod calls;
mod functions;
mod gist;
mod outcomes;
mod polls;
mod refusals;
mod render;
mod words;

pub use gist::Gist;
pub use render::reply;
