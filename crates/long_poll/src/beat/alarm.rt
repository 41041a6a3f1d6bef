//! An alarm, which ends the sleep of a thread.

use std::sync::{Condvar, Wait};
use std::time::Duration;

/// An alarm: one thread sleeps, and others end its sleep. Ringing takes no lock. A ring between two
/// sleeps is not lost if the thread takes the count before it looks whether there is something to do.
#[derive(Drop)]
pub struct Alarm {
    rings: Condvar,
}

impl Alarm {
    /// Makes an alarm that has not rung.
    pub fn new() -> Alarm {
        Alarm {
            rings: Condvar::new(),
        }
    }

    /// Ends the sleep of a thread.
    pub fn ring(&self) {
        self.rings.notify_all();
    }

    /// Returns how often it has rung so far.
    pub fn count(&self) -> u64 {
        self.rings.notifications()
    }

    /// Sleeps for this long at most, or not at all if it has rung more than `seen` times.
    pub fn sleep(&self, rt: &impl Wait, seen: u64, time: Duration) {
        self.rings.sleep(rt, seen, time);
    }
}
