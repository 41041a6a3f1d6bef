//! The requests that wait for a handler, behind a lock, and what handlers and requesters tell each other.
#![tactic(auto)]

mod asked;
mod claims;
mod desk;
mod pipe;
mod posted;
mod put;
mod state;

pub use asked::{Asked, is_of_handler, read_asked};
pub use desk::{Desk, Taken};
pub use handover::{AnswerFault, NotTaken, Request};
pub use pipe::{PipeFault, PipeReceiver, PipeSender, open_pipe};
pub use posted::{Given, Posted};
pub use put::Put;
pub use state::NotPut;
