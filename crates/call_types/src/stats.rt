//! The counts of an account.

/// What an account has counted so far.
#[derive(Clone, Copy, Debug, PartialEq, Eq)]
pub struct Stats {
    /// The entries of the history, expiries included.
    pub entries: u64,
    /// The Invokes that were placed in an environment.
    pub admitted: u64,
    /// The Invokes that were answered with 429.
    pub throttled: u64,
    /// The Invokes that ended in an error, a timeout or too large an output.
    pub failed: u64,
    /// The invocations that are in flight now (Lambda Developer Guide, "Understanding Lambda
    /// function scaling": the requests that functions are serving).
    pub in_flight: u64,
}
