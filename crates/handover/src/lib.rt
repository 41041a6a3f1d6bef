//! Requests that the service does not answer itself, and the handlers that answer them.
#![tactic(auto)]

mod answer;
mod answer_fault;
mod attendance;
mod counter;
mod fault;
mod head;
pub mod laws;
mod pipe;
mod request;
mod stage;

pub use answer::{AnswerHead, Field, read_answer};
pub use answer_fault::AnswerFault;
pub use attendance::Attendance;
pub use counter::{Limits, Requests};
pub use fault::{NotTaken, PutFault};
pub use head::write_head;
pub use pipe::{Ending, Pipe, Put, Taken};
pub use request::Request;
pub use stage::Stage;
