//! The headers of replies, as sets of names. Most of a set's values are the same in each reply.

/// Which headers a reply has. Each set but the empty one begins with `Content-Type`.
#[derive(Clone, Copy)]
pub(crate) enum HeaderSet {
    /// None, as a reply without a body has.
    Empty,
    /// Those of every reply with a body of JSON.
    Json,
    /// Those of a text.
    Text,
    /// Those of an invocation that a runtime gets (Runtime API, Next invocation).
    Delivery,
    /// Those of an extension's event (Extensions API, Next).
    Event,
    /// Those of an extension's registration (Extensions API, Register).
    Registration,
    /// Those of an invocation that ran (Lambda API, Invoke: Response Elements).
    Outcome,
    /// Those of an invocation that ran and failed.
    Failure,
    /// Those of a refusal by the Lambda API, before there is a request identifier.
    Refusal,
    /// Those of a refusal by the Lambda API of a request that has an identifier (Invoke: Errors).
    RequestRefusal,
    /// Those of a refusal that lists the methods of a route (RFC 9110, section 15.5.6).
    Methods,
}
