//! Where the thread of a caller sleeps whose Invoke is held back.

use std::sync::Wait;
use std::sync::atomic::AtomicBool;
use std::sync::atomic::Ordering::SeqCst;
use std::thread::Parker;
use std::time::Duration;

/// Where a caller's thread sleeps until it is called, and whether the caller has left the line.
#[derive(Drop)]
pub(crate) struct Seat {
    parker: Parker,
    is_left: AtomicBool,
}

impl Seat {
    /// Makes the seat of a caller that has not left.
    pub(crate) fn new() -> Seat {
        Seat {
            parker: Parker::new(),
            is_left: AtomicBool::new(false),
        }
    }

    /// Wakes the caller's thread, or ends its next sleep at once.
    pub(crate) fn wake(&self) {
        self.parker.unpark();
    }

    /// Sleeps until it is woken, for this long at most.
    pub(crate) fn sleep(&self, rt: &impl Wait, most: Duration) {
        self.parker.park_timeout(rt, most);
    }

    /// Notes that the caller has left.
    pub(crate) fn leave(&self) {
        self.is_left.store(true, SeqCst);
    }

    /// Returns whether the caller has left.
    pub(crate) fn is_left(&self) -> bool {
        self.is_left.load(SeqCst)
    }
}
