//! Whether an open request of a connection is parked, or the rest of its response.

/// The place where a connection's service notes that its request is parked, or that the rest of its
/// response is. What is parked waits without a limit, and if its peer ends, the connection ends (Runtime
/// API, Next invocation; Extensions API, Next; this service's trace).
pub trait Park: Drop {
    /// Returns whether a request is parked, or the rest of its response.
    fn is_parked(&self) -> bool;

    /// Does what was left for the end of a turn of the connection, in which all that its peer takes was written.
    fn end_turn(&self);
}
