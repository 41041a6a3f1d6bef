//! The mailbox from which a thread gets what it does next.

ghost use Rattle.std.specs.Prelude.{◌≡◌, IfErr};

use std::sync::{Condvar, Mutex, Wait};
use std::time::{Clock, Duration};

/// What comes next, if it is there yet, and whether the mailbox is closed.
#[derive(Drop)]
struct Letter<V> {
    next: Option<V>,
    is_closed: bool,
}

/// The mailbox of a thread, into which another thread puts what comes next. Once closed, it stays
/// closed: what is put in after that is returned, so that nothing is left in the mailbox of a
/// thread that has ended. What was put in before can still be taken out.
#[derive(Drop)]
pub struct Mailbox<V> {
    letter: Mutex<Letter<V>>,
    changed: Condvar,
}

impl<V: Drop> Mailbox<V> {
    /// Makes an empty mailbox, for a thread that is about to begin.
    pub(crate) fn new() -> Mailbox<V> {
        let letter = Letter {
            next: None,
            is_closed: false,
        };
        Mailbox {
            letter: Mutex::new(letter),
            changed: Condvar::new(),
        }
    }

    /// Puts in what comes next.
    ///
    /// # Errors
    /// If the mailbox is closed or full, returns what was to be put in.
    pub(crate) fn put(&self, rt: &impl Wait, next: V) -> Result<(), V>
        ensures { IfErr result (λ back. back ≡ next) }
    {
        let mut letter = self.letter.lock(rt);
        if letter.is_closed || letter.next.is_some() {
            return Err(next);
        }
        letter.next = Some(next);
        drop(letter);
        self.changed.notify_one();
        Ok(())
    }

    /// Takes out what comes next. Returns `None` if nothing comes for `patience`, or if the mailbox
    /// is closed and empty; it is closed from then on.
    pub(crate) fn take<R: Wait + Clock>(&self, rt: &R, patience: Duration) -> Option<V> {
        let letter = self.letter.lock(rt);
        let (mut letter, _) = self
            .changed
            .wait_timeout_while(rt, letter, patience, |letter| {
                letter.next.is_none() && !letter.is_closed
            });
        let next = letter.next.take();
        if next.is_none() {
            letter.is_closed = true;
        }
        next
    }

    /// Closes the mailbox. A waiting thread gets `None` at once.
    pub(crate) fn close(&self, rt: &impl Wait) {
        self.letter.lock(rt).is_closed = true;
        self.changed.notify_one();
    }

    /// Returns whether the mailbox is closed.
    pub(crate) fn is_closed(&self, rt: &impl Wait) -> bool {
        self.letter.lock(rt).is_closed
    }
}
