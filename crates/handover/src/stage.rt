//! Where a request is.

/// Where the request with an identifier is.
#[derive(Clone, Copy, Debug, PartialEq, Eq)]
pub enum Stage {
    /// It waits for a handler.
    Waits,
    /// A handler has taken it, and has not answered yet.
    Taken(u64),
    /// It was answered, it failed, or its requester went away.
    Over,
    /// No request has had this identifier yet.
    NotGiven,
}
