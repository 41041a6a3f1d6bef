//! Why two tallies were not joined.

use thiserror::Error;

/// Why two tallies were not joined. Both are handed back as they were.
#[derive(Debug, Drop, Error)]
pub enum JoinFault<T> {
    /// An allocation for what the other one keeps failed.
    #[error("out of memory")]
    OutOfMemory {
        /// The tally that should have taken over the other one.
        one: T,
        /// The tally that should have been taken over.
        other: T,
    },
}
