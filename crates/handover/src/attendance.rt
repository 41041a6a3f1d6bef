//! Whether a handler is here.

ghost use Rattle.std.specs.Prelude.{◌≡◌, [], IfOk, OnOk, OnErr, None};
ghost use Rattle.handover.specs.Presence.{with_handler, ended_at, is_attended};

use std::alloc::{AllocError, Global};
use std::collections::BTreeSet;
use std::marker::Model;

/// The handlers that are here. A handler is here from when it first asks until it ends; once the last one has ended,
/// another is waited for during a grace, so that a handler can be restarted. Contracts see a record of these.
#[derive(Drop)]
pub struct Attendance {
    handlers: BTreeSet<u64>,
    left_at: Option<u64>,
    grace: u64,
}

impl Model for Attendance {
    ghost use Rattle.handover.specs.Presence.{Presence};

    ghost Value = { Presence };

    ghost view = { λ a. record { handlers = a.handlers.keys; left_at = a.left_at; grace = a.grace } };
}

impl Attendance {
    /// Returns that no handler has asked yet, and how many milliseconds one is waited for. It allocates nothing.
    pub fn new(alloc: Global, grace: u64) -> Attendance
        ensures { result ≡ record { handlers = []; left_at = None; grace = grace } }
    {
        Attendance {
            handlers: BTreeSet::new(alloc),
            left_at: None,
            grace,
        }
    }

    /// Notes that a handler has asked, if it had not.
    ///
    /// # Errors
    /// If memory is refused. All is then as it was.
    pub fn asked(&mut self, handler: u64) -> Result<(), AllocError>
        ensures here { OnOk result (self.new ≡ with_handler handler self.old) }
        ensures same { OnErr result (self.new ≡ self.old) }
    {
        self.handlers.insert(handler)?;
        Ok(())
    }

    /// Notes that a handler has ended at this moment, in milliseconds.
    pub fn ended(&mut self, handler: u64, now: u64)
        ensures { self.new ≡ ended_at handler now self.old }
    {
        let was_here = self.handlers.remove(&handler);
        if was_here && self.handlers.is_empty() {
            self.left_at = Some(now);
        }
    }

    /// Returns whether requests are handed over at this moment: a handler is here, or the last one ended less than
    /// the grace ago.
    pub fn is_attended(&self, now: u64) -> bool
        ensures { result ≡ is_attended now self.now }
    {
        if !self.handlers.is_empty() {
            return true;
        }
        match self.left_at {
            None => false,
            Some(left) => now.saturating_sub(left) < self.grace,
        }
    }
}
