//! Why an account was not settled.

use call_model::Ticket;
use thiserror::Error;

/// Why an account was not settled: the first fault that holds, at the least ticket at which it does.
#[derive(Clone, Copy, Debug, PartialEq, Eq, Error)]
pub enum SettleFault {
    /// The tallies do not have all parts of the ledgers: what some tally counted is missing.
    #[error("TallyMissing")]
    TallyMissing,
    /// An allocation failed.
    #[error("out of memory")]
    OutOfMemory,
    /// A receipt is not the history's answer at its ticket.
    #[error("ReceiptDiffers")]
    ReceiptDiffers {
        /// The ticket of the receipt.
        ticket: Ticket,
    },
    /// All receipts should be kept, and an answer has none.
    #[error("ReceiptMissing")]
    ReceiptMissing {
        /// The ticket that was answered.
        ticket: Ticket,
    },
    /// A kept head is not that of the entry at its ticket, is kept twice, or follows a greater ticket in
    /// a tally that no join made; or all calls should be kept, and an entry that is not an expiry has no
    /// head.
    #[error("CallDiffers")]
    CallDiffers {
        /// The ticket of the call.
        ticket: Ticket,
    },
}
