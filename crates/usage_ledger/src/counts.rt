//! The four counts of an account.

/// How many calls an account took, and how many of its invocations were admitted, throttled and
/// failed.
#[derive(Clone, Copy, Debug, PartialEq, Eq)]
pub struct Counts {
    /// The entries of the history that are calls: all except the expiries.
    pub calls: u64,
    /// The Invokes that were placed in an environment.
    pub admitted: u64,
    /// The Invokes that were answered with 429.
    pub throttled: u64,
    /// The Invokes that ended in an error, a timeout or too large an output.
    pub failed: u64,
}
