//! What is seen of connections, which are looked at once a second.

ghost use Rattle.std.specs.Prelude.{◌≡◌};
ghost use Rattle.connection_places.specs.Looks as spec;

use connection_state::{Told, has_outstayed};
use service_port::Port;

/// What was seen of a connection at the last look, and for how many looks it has been so.
#[derive(Clone, Copy, Drop)]
pub(crate) struct Observation {
    pub(crate) port: Port,
    told: Told,
    // Looks without a byte.
    still: u32,
    // Looks in the same stage of its exchange.
    whole: u32,
    // Looks without a complete request.
    unasked: u32,
}

impl Observation {
    /// Returns what is seen of a connection that has just come in at this port.
    pub(crate) fn first(port: Port, told: Told) -> Observation
        ensures { result ≡ spec.first_seen port told }
    {
        Observation {
            port,
            told,
            still: 0,
            whole: 0,
            unasked: 0,
        }
    }

    /// Returns what is seen `looks` looks later, if the connection has published only this state
    /// meanwhile.
    pub(crate) fn later(self, told: Told, looks: u32) -> Observation
        ensures { result ≡ spec.seen_later self told looks }
    {
        let is_unasked = told.is_unserved() && told.answers == self.told.answers;
        Observation {
            port: self.port,
            told,
            still: counted(told.is_same(self.told), self.still, looks),
            whole: counted(told.is_in_stage_of(self.told), self.whole, looks),
            unasked: counted(is_unasked, self.unasked, looks),
        }
    }

    /// Returns how many responses its service has given (modulo 2^16).
    pub(crate) fn answers(self) -> u16
        ensures { result ≡ self.told.answers }
    {
        self.told.answers
    }

    /// Returns whether the connection has reached one of its limits.
    pub(crate) fn has_outstayed(self) -> bool
        ensures { result ≡ spec.is_over self }
    {
        has_outstayed(self.port, self.told, self.still, self.whole)
    }

    /// Returns whether the connection lingers, and anything has come since this other look at it.
    pub(crate) fn is_sent_more_than(self, before: Observation) -> bool
        ensures { result ≡ spec.is_sent_more before self }
    {
        self.told.is_lingering() && !self.told.is_same(before.told)
    }

    /// Returns for how many looks the connection has been without a complete request; `None` if it
    /// may not make room for a newcomer at its own port. It may if it is not within an exchange, as
    /// between two requests, or was already sending a request at an earlier look.
    fn spare_looks(self) -> Option<u32>
        ensures { result ≡ spec.spare_looks self }
    {
        if self.told.is_between() || self.told.is_unserved() && self.unasked > 0 {
            Some(self.unasked)
        } else {
            None
        }
    }

    /// Returns for how many looks the connection has been without a complete request; `None` if it
    /// came in at an environment's port, or may not make room for a newcomer at its own.
    pub(crate) fn looks_of_caller(self) -> Option<u32>
        ensures { result ≡ spec.looks_of_caller self }
    {
        match self.port {
            Port::Account | Port::Handled(_) => self.spare_looks(),
            Port::Environment(_) => None,
        }
    }

    /// Returns the environment at whose port the connection came in, and for how many looks it has
    /// been without a complete request; `None` if it came in at a callers' port, or may not make
    /// room for a newcomer at the port of this environment. At another port than the newcomer's, it
    /// may if it serves no request.
    pub(crate) fn looks_of_environment(self, newcomer: u32) -> Option<(u32, u32)>
        ensures { result ≡ spec.looks_of_environment newcomer self }
    {
        match self.port {
            Port::Account | Port::Handled(_) => None,
            Port::Environment(own) if own == newcomer => match self.spare_looks() {
                Some(looks) => Some((own, looks)),
                None => None,
            },
            Port::Environment(own) if self.told.is_unserved() => Some((own, self.unasked)),
            Port::Environment(_) => None,
        }
    }
}

/// Returns `looks` more than before if the condition still holds, otherwise 0.
fn counted(is_still_so: bool, before: u32, looks: u32) -> u32
    ensures { result ≡ spec.counted is_still_so before looks }
{
    if is_still_so {
        before.saturating_add(looks)
    } else {
        0
    }
}
