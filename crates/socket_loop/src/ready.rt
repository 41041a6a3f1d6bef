//! What the events of a socket have said.

use mio::event::Event;
use std::cell::Cell;

/// Whether a read and a write of a socket are worth a call. A loop notes what its events say, and the
/// socket's stream notes when a call would have waited.
#[derive(Drop)]
pub(crate) struct Ready {
    read: Cell<bool>,
    write: Cell<bool>,
    // Whether the peer has ended its side, so that no read waits any more.
    is_ended: Cell<bool>,
}

impl Ready {
    /// What is known of a new socket: it may be written to, and read: a peer that connects has mostly
    /// sent its request by the time that its socket is watched, and a read that finds nothing costs no
    /// more than a wait for an event.
    pub(crate) fn new() -> Ready {
        Ready {
            read: Cell::new(true),
            write: Cell::new(true),
            is_ended: Cell::new(false),
        }
    }

    /// Notes an event of the socket. The next call reports an error.
    pub(crate) fn note(&self, event: &Event) {
        if event.is_read_closed() {
            self.is_ended.set(true);
        }
        if event.is_readable() || event.is_read_closed() || event.is_error() {
            self.read.set(true);
        }
        if event.is_writable() || event.is_write_closed() || event.is_error() {
            self.write.set(true);
        }
    }

    /// Returns whether a read is worth a call.
    pub(crate) fn can_read(&self) -> bool {
        self.read.get()
    }

    /// Returns whether a write is worth a call.
    pub(crate) fn can_write(&self) -> bool {
        self.write.get()
    }

    /// Notes that a read got fewer bytes than it asked for. The next one would wait for an event,
    /// unless the peer has ended its side: that was an event too, and there is no other.
    pub(crate) fn note_short_read(&self) {
        if !self.is_ended.get() {
            self.read.set(false);
        }
    }

    /// Notes that a read would have waited.
    pub(crate) fn note_blocked_read(&self) {
        self.read.set(false);
    }

    /// Notes that a write has filled the socket, or would have waited.
    pub(crate) fn note_full(&self) {
        self.write.set(false);
    }
}
