//! One extension of an environment.

ghost use Rattle.std.specs.Prelude.{◌≡◌, ◌<◌, ◌^◌, ◌&&◌, ◌||◌, ◌≤◌, length, not, bytes_eq, is_none, Some};
ghost use Rattle.call_model.specs.Generation.{TheExtension, asks, has_count, hears_end, is_ending, reports_exit};
ghost use Rattle.call_model.specs.Polls.{at_close, delivered, replaced};
ghost use Rattle.call_model.specs.Stand.{ExtensionPoll};
ghost use Rattle.environment_step.specs.After.{give, left, member_second};
ghost use Rattle.extension_set.specs.Registering.{owes_end, registered};
ghost use Rattle.extension_set.specs.Turns.{poll_gets_by_turn, member_after};

use crate::name::Name;
use crate::turn::CLOSING_LIMIT;
use crate::{Moves, Turn};
use arn_ids::Text;
use call_model::{Answer, Call, Reason, Rejection, Ticket};
use std::marker::Model;

/// The state of an extension.
#[derive(Drop)]
pub struct Member {
    /// The count in its identifier, from 1 over all generations of its environment.
    count: u64,
    /// Its `Lambda-Extension-Name`.
    name: Name,
    /// Whether it registered for the event INVOKE.
    invoke: bool,
    /// Whether it registered for the event SHUTDOWN.
    shutdown: bool,
    /// The ticket of its parked Next.
    next: Option<Ticket>,
    /// Whether it was notified of the end of its environment.
    told: bool,
    /// Whether it asked for Next again after that.
    again: bool,
    /// Whether it reported that it failed, and the report was accepted.
    exited: bool,
}

impl Model for Member {
    ghost use Rattle.call_model.specs.Generation.{Member};

    ghost Value = { Member };

    ghost view = { λ m. record {
      extension = record { count = m.count; name = m.name; invoke = m.invoke; shutdown = m.shutdown };
      next = m.next;
      told = m.told;
      again = m.again;
      exited = m.exited;
    } };
}

impl Member {
    /// Returns an extension that registers now, with the count in its identifier and a name of at
    /// most 128 bytes (Extensions API: Register).
    pub(crate) fn registered(count: u64, name: &Text, invoke: bool, shutdown: bool) -> Member
        requires short { length name.now ≤ 128 }
        ensures { result
            ≡ registered (record { count = count; name = name.now; invoke = invoke; shutdown = shutdown }) }
    {
        Member {
            count,
            name: Name::of(name),
            invoke,
            shutdown,
            next: None,
            told: false,
            again: false,
            exited: false,
        }
    }

    /// Returns the count in its identifier, from 1 over all generations of its environment.
    pub fn count(&self) -> u64
        ensures { result ≡ self.now.extension.count }
    {
        self.count
    }

    /// Returns its name (Extensions API: `Lambda-Extension-Name`).
    pub fn name(&self) -> &str
        ensures { result.now ≡ self.now.extension.name }
    {
        self.name.as_str()
    }

    /// Whether it registered for the event INVOKE.
    pub fn hears_invoke(&self) -> bool
        ensures { result ≡ self.now.extension.invoke }
    {
        self.invoke
    }

    /// Whether it registered for the event SHUTDOWN.
    pub fn hears_shutdown(&self) -> bool
        ensures { result ≡ self.now.extension.shutdown }
    {
        self.shutdown
    }

    /// Returns the ticket of its parked Next, if it has one.
    pub fn parked(&self) -> Option<Ticket>
        ensures { result ≡ self.now.next }
    {
        self.next
    }

    /// Whether its identifier has this count.
    pub(crate) fn has_count(&self, count: u64) -> bool
        ensures { result ≡ has_count count self.now }
    {
        self.count == count
    }

    /// Whether this is its name.
    pub(crate) fn is_named(&self, name: &Text) -> bool
        ensures { result ≡ bytes_eq name.now self.now.extension.name }
    {
        self.name.is(name)
    }

    /// Whether it has no parked Next.
    pub(crate) fn is_silent(&self) -> bool
        ensures { result ≡ is_none self.now.next }
    {
        self.next.is_none()
    }

    /// Whether it is to be notified of the end of its environment: it registered for SHUTDOWN and
    /// has not exited.
    fn hears_end(&self) -> bool
        ensures { result ≡ hears_end self.now }
    {
        self.shutdown && !self.exited
    }

    /// Whether its Next in a Closing is answered with the end of its environment: it is to be
    /// notified of that, and was not yet (Extensions API: Shutdown event).
    pub(crate) fn is_owed_end(&self) -> bool
        ensures { result ≡ owes_end (Some self.now) }
    {
        self.hears_end() && !self.told
    }

    /// Whether a Closing waits for it (Lambda execution environment lifecycle: Shutdown phase).
    pub(crate) fn is_awaited(&self) -> bool
        ensures { result ≡ (hears_end self.now && not (self.now.told && self.now.again)) }
    {
        self.hears_end() && !(self.told && self.again)
    }

    /// Answers its parked Next when a Busy begins, if it registered for INVOKE (Extensions API:
    /// Invoke event).
    pub(crate) fn offer(&mut self, invoke: Ticket, deadline: u64, moves: &mut Moves)
        requires room { length moves.old < 32 }
        ensures told { self.new ≡ member_second (Some (invoke, deadline)) self.old }
        ensures given { moves.new
            ≡ give self.old.next (delivered (Some (invoke, deadline)) (ExtensionPoll self.old)) moves.old }
    {
        if self.invoke {
            let told = Answer::Told {
                invoke,
                deadline,
                event: 0,
            };
            moves.give(self.next, Some(told));
            self.next = None;
        }
    }

    /// Whether the call is its Next (Extensions API: Next).
    fn asks(&self, call: &Call) -> bool
        ensures { result ≡ asks (TheExtension self.now.extension.count) call.now }
    {
        matches!(call, Call::ExtNext { ext, .. } if *ext == self.count)
    }

    /// Whether the call reports that it failed (Extensions API: Init error, Exit error).
    fn reports_exit(&self, call: &Call) -> bool
        ensures { result ≡ reports_exit self.now.extension.count call.now }
    {
        match call {
            Call::ExtInitFailure { ext, .. } | Call::ExtExitFailure { ext, .. } => *ext
                == self.count,
            _ => false,
        }
    }

    /// Returns the answer to its parked Next when its environment closes: the end, if it is to be
    /// notified of that and this call does not report its own exit; otherwise a refusal (Extensions
    /// API: Shutdown event).
    fn at_close(&self, now: u64, reason: Reason, call: &Call) -> Answer
        requires { now < 2 ^ 53 }
        ensures { Some result ≡ at_close now (Some reason) call.now (ExtensionPoll self.now) }
    {
        if self.hears_end() && !self.reports_exit(call) {
            Answer::Ending {
                reason,
                until: now + CLOSING_LIMIT,
                event: 0,
            }
        } else {
            Answer::Refused(Rejection::Container)
        }
    }

    /// Returns the answer to its parked Next with this ticket if the call is its newer Next, or a
    /// Withdraw of that ticket; otherwise `None`.
    fn replaced(&self, ticket: Ticket, call: &Call) -> Option<Answer>
        ensures { result ≡ replaced ticket call.now (ExtensionPoll self.now) }
    {
        match call {
            Call::ExtNext { ext, .. } => {
                if self.count == *ext {
                    Some(Answer::Refused(Rejection::Replaced))
                } else {
                    None
                }
            }
            Call::Withdraw { ticket: named } => {
                if *named == ticket {
                    Some(Answer::Withdrawn)
                } else {
                    None
                }
            }
            _ => None,
        }
    }

    /// Returns the answer that a call gives to its parked Next, if it has one.
    fn poll_gets(&self, turn: Turn, call: &Call) -> Option<Answer>
        requires { turn.now < 2 ^ 53 }
        ensures { result ≡ poll_gets_by_turn turn call.now (ExtensionPoll self.now) self.now.next }
    {
        match (self.next, turn.closes) {
            (None, _) => None,
            (Some(_), Some(reason)) => Some(self.at_close(turn.now, reason, call)),
            (Some(ticket), None) => self.replaced(ticket, call),
        }
    }

    /// Applies a call: answers its parked Next, and updates its state.
    pub(crate) fn take(&mut self, turn: Turn, call: &Call, moves: &mut Moves)
        requires moment { turn.now < 2 ^ 53 }
        requires room { length moves.old < 32 }
        ensures after { self.new ≡ member_after turn call.now self.old }
        ensures given { moves.new
            ≡ give self.old.next (poll_gets_by_turn turn call.now (ExtensionPoll self.old) self.old.next) moves.old }
    {
        let older = self.poll_gets(turn, call);
        moves.give(self.next, older);
        if self.reports_exit(call) && turn.own == Some(Answer::Accepted) {
            self.exited = true;
        }
        if self.asks(call) {
            self.again = self.again || self.told;
            self.hear(turn.own, Some(turn.ticket));
        } else {
            self.hear(older, self.next);
        }
    }

    /// Applies the answer to its last Next; if there is none, that Next is parked.
    fn hear(&mut self, gets: Option<Answer>, next: Option<Ticket>)
        ensures { self.new ≡ record self.old { next = left gets next; told = self.old.told || is_ending gets } }
    {
        self.next = if gets.is_none() { next } else { None };
        if matches!(gets, Some(Answer::Ending { .. })) {
            self.told = true;
        }
    }
}
