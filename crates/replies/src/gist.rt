//! The input of a reply.

use call_model::{Answer, Call};

/// Everything that the reply to a call depends on. The calls are borrowed.
#[derive(Clone, Copy)]
pub struct Gist<'a> {
    /// The answer to the call.
    pub answer: Answer,
    /// The call.
    pub call: &'a Call,
    /// The count in its request identifier, if it is an Invoke; from 1.
    pub count: u64,
    /// The call that the answer names: the Invoke of a delivery or an event, or the report that
    /// brought an output or an error. If the answer names none, the call itself.
    pub source: &'a Call,
    /// The count in the request identifier of that call, if it is an Invoke; from 1.
    pub source_count: u64,
}
