//! What is known of an open connection outside its thread.

use crate::observation::Observation;
use connection_state::{Ender, Pulse, Signal};
use service_port::Port;
use std::sync::Arc;

/// The sender of a connection's signals, and what is seen of the connection.
#[derive(Drop)]
pub struct Running {
    // `None` once the connection was signalled to end at once.
    ender: Option<Ender>,
    // Whether the soft signal was sent.
    has_sent_soft: bool,
    // How many responses its service had given when it was last asked to make room.
    asked_after: Option<u16>,
    pulse: Arc<Pulse>,
    pub(crate) seen: Observation,
}

impl Running {
    /// Describes a connection that has just begun at this port.
    pub fn new(ender: Ender, pulse: Arc<Pulse>, port: Port) -> Running {
        Running {
            ender: Some(ender),
            has_sent_soft: false,
            asked_after: None,
            seen: Observation::first(port, pulse.told()),
            pulse,
        }
    }

    /// Signals the connection to end: after its exchange, or at once. If an allocation fails, it is
    /// not signalled to end after its exchange; a stop ends it at once half a second later.
    pub(crate) fn tell(&mut self, at_once: bool) {
        if at_once {
            self.ender = None;
        } else if let Some(ender) = &self.ender
            && !self.has_sent_soft
        {
            self.has_sent_soft = ender.send(Signal::Soft);
        }
    }

    /// Signals the connection to end at once if it serves no request. It is signalled again only after a
    /// further response: it may have been serving one before.
    pub(crate) fn ask_for_room(&mut self) {
        let asked = Some(self.seen.answers());
        if let Some(ender) = &self.ender
            && self.asked_after != asked
            && ender.send(Signal::Room)
        {
            self.asked_after = asked;
        }
    }

    /// Looks at the connection again, and ends it at once unless it lingers, and more has come since the
    /// last look.
    pub(crate) fn end_if_still(&mut self) {
        let before = self.seen;
        self.look(0);
        if !self.seen.is_sent_more_than(before) {
            self.tell(true);
        }
    }

    /// Looks at the connection, `looks` looks after the last one.
    pub(crate) fn look(&mut self, looks: u32) {
        self.seen = self.seen.later(self.pulse.told(), looks);
    }
}
