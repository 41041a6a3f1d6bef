//! What a history of calls means: the definitions, and the laws that hold for every legal history.
#![tactic(auto)]

pub mod laws;
mod past;
mod readers;

pub use call_types::{
    Answer, Answers, Call, Entry, Head, Kind, Phase, Reason, Rejection, Stats, Throttle, Ticket,
};
pub use past::Past;
pub use readers::{function_in, function_name, identifier};
