//! The state of a connection, from what its socket and its service have seen.

ghost use Rattle.std.specs.Prelude.{◌≡◌};
ghost use Rattle.http_connection.specs.Standing as spec;

use connection_state::{Awaited, Told};

/// The state of a connection.
#[derive(Clone, Copy, Drop)]
pub(crate) struct Stand {
    // How many responses its service has given, modulo 2^16.
    answers: u16,
    // How many bytes of the present request have come, up to the greatest number.
    moved: u32,
    // Whether a request was taken up and has no response yet.
    is_open: bool,
    // Whether bytes of the next request have come.
    has_begun: bool,
    // Whether a request was ever taken up.
    has_asked: bool,
    // Whether the last read of this turn asked the socket for more than was there.
    is_short: bool,
    // Whether a request was parked at the end of the last turn, or the rest of its response.
    is_parked: bool,
}

impl Stand {
    /// The state before anything has come.
    pub(crate) fn new() -> Stand
        ensures { result ≡ spec.fresh }
    {
        Stand {
            answers: 0,
            moved: 0,
            is_open: false,
            has_begun: false,
            has_asked: false,
            is_short: false,
            is_parked: false,
        }
    }

    /// Notes that a turn of the connection begins.
    pub(crate) fn begin_turn(&mut self)
        ensures { self.new ≡ spec.at_turn self.old }
    {
        self.is_short = false;
    }

    /// Notes that `count` bytes were handed to the connection: bytes of the present request, or the
    /// first bytes of the next one.
    pub(crate) fn note_read(&mut self, count: u32)
        ensures { self.new ≡ spec.after_read self.old count }
    {
        if count == 0 {
            return;
        }
        self.is_short = false;
        if self.is_open || self.has_begun {
            self.moved = self.moved.saturating_add(count);
        } else {
            self.has_begun = true;
            self.moved = count;
        }
    }

    /// Notes that the connection asked its socket for more than was there.
    pub(crate) fn note_short(&mut self)
        ensures { self.new ≡ spec.after_shortage self.old }
    {
        self.is_short = true;
    }

    /// Notes that the service takes up a request.
    pub(crate) fn take_up(&mut self)
        ensures { self.new ≡ spec.after_head self.old }
    {
        self.is_open = true;
        self.has_begun = false;
        self.has_asked = true;
        self.is_short = false;
    }

    /// Notes that the service has given the response.
    pub(crate) fn note_response(&mut self)
        ensures { self.new ≡ spec.after_response self.old }
    {
        self.is_open = false;
        self.answers = self.answers.wrapping_add(1);
        self.moved = 0;
        self.is_short = false;
    }

    /// Notes at the end of a turn whether a request is parked, or the rest of its response.
    pub(crate) fn note_parked(&mut self, is_parked: bool)
        ensures { self.new ≡ spec.at_turns_end self.old is_parked }
    {
        self.is_parked = is_parked;
    }

    /// Returns what the connection waits for at the end of a turn.
    fn awaited(&self) -> Awaited
        ensures { result ≡ spec.awaited_by self.now }
    {
        if self.is_parked {
            Awaited::Answer
        } else if self.is_open {
            if self.is_short {
                Awaited::Body
            } else {
                Awaited::Answer
            }
        } else if self.has_begun {
            Awaited::Head
        } else if !self.has_asked {
            Awaited::First
        } else if self.is_short {
            Awaited::Next
        } else {
            Awaited::Taking
        }
    }

    /// Returns what the connection publishes at the end of a turn.
    pub(crate) fn told(&self) -> Told
        ensures { result ≡ spec.told_by self.now }
    {
        Told {
            awaited: self.awaited(),
            answers: self.answers,
            moved: self.moved,
        }
    }

    /// Returns what the connection publishes when it waits for its peer to close.
    pub(crate) fn told_at_end(&self) -> Told
        ensures { result ≡ spec.told_at_end self.now }
    {
        Told {
            awaited: Awaited::End,
            answers: self.answers,
            moved: self.moved,
        }
    }
}
