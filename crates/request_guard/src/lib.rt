//! Requests that never become a call, whatever they ask for, and the answers to them: by their
//! heads alone, before a route is looked for.
#![tactic(auto)]

mod codings;
mod guard;
mod hosts;
mod names;
mod pages;
mod refusal;

pub use hosts::KnownHosts;
pub use refusal::{Refusal, refusal_reply};
