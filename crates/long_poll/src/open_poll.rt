//! What a connection waits for without a limit: the answer to its open Next, the next entry of the history, or a handler
//! of requests.

use call_model::Ticket;
use std::sync::atomic::Ordering::SeqCst;
use std::sync::atomic::{AtomicBool, AtomicU64};

/// The ticket of the one Next (Runtime API, Next invocation; Extensions API, Next) that a connection
/// has open: an `Exchange` notes it when the call was submitted, and takes the note back once it has
/// the reply. If the connection ends first, the noted call is to be withdrawn.
#[derive(Drop)]
pub struct OpenPoll {
    // One more than the ticket; 0 if none is open.
    noted: AtomicU64,
    // Whether it waits for something else.
    awaits: AtomicBool,
}

impl OpenPoll {
    /// A note of no open Next.
    pub fn new() -> OpenPoll {
        OpenPoll {
            noted: AtomicU64::new(0),
            awaits: AtomicBool::new(false),
        }
    }

    /// Returns the ticket of the open Next, `None` if there is none.
    pub fn ticket(&self) -> Option<Ticket> {
        self.noted.load(SeqCst).checked_sub(1)
    }

    /// Returns whether the connection waits for something without a limit.
    pub fn waits(&self) -> bool {
        self.ticket().is_some() || self.awaits.load(SeqCst)
    }

    /// Notes whether something is awaited that is not the answer to a Next: the next entry of the history, a request that
    /// a handler asks for, or what a handler gives for a request.
    pub fn note_awaited(&self, is_awaited: bool) {
        self.awaits.store(is_awaited, SeqCst);
    }

    /// Notes that the Next with this ticket is open. (A ticket of 2^64 - 1, which no journal has, is not noted.)
    pub(crate) fn note(&self, ticket: Ticket) {
        self.noted.store(ticket.wrapping_add(1), SeqCst);
    }

    /// Takes back the note of the call with this ticket, which has its reply. A note of another call stays.
    pub(crate) fn clear(&self, ticket: Ticket) {
        let _ = self
            .noted
            .compare_exchange(ticket.wrapping_add(1), 0, SeqCst, SeqCst);
    }
}
