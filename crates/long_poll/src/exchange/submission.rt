//! A call on its way to the account, which is held back while it comes too early.

ghost use Rattle.std.specs.Prelude.{◌≡◌, ◌≤◌, IfOk, IfErr};
ghost use Rattle.call_types.specs.Within.{IsWithin};

use super::connection::{Begun, Connection};
use super::refusal::refusal_reply;
use crate::line::Place;
use crate::{Clock, ExchangeFault, Heard, OneShotBell, Service, moment};
use account_lock::{NotTaken, Refused};
use arn_ids::FnNo;
use call_model::{Call, Ticket};
use decisions::Decide;
use std::alloc::AllocError;
use std::sync::Wait;
use std::time;
use usage_ledger::{Keep, Ledgers, Token};

/// The longest pause of a caller that is not called: its connection then runs once.
const LONGEST_PAUSE_US: u64 = 8_000;

/// A call on its way to the account, with its bell and the future that hears it. While it comes too early, it
/// is held back: before each further attempt the thread *sleeps* at the call's place in the line until it is called,
/// for 8 ms at most. From the second attempt on its connection runs once between two of them, and only then notices
/// a signal to stop and its own state.
#[derive(Drop)]
pub(crate) struct Submission {
    call: Call,
    bell: OneShotBell,
    heard: Heard,
    // How long it may still be held back, in microseconds.
    left_us: u64,
    // Its place, once it was held back.
    place: Option<Place>,
}

/// The result of an attempt to submit a call.
#[derive(Drop)]
enum Attempt<L: Ledgers> {
    /// It was taken, with this ticket. The token has seen the history up to the call.
    Taken(Ticket, Token<L>),
    /// It was refused. The token has seen what was then seen.
    Refused(Refused<OneShotBell>, Token<L>),
    /// It is premature, or came behind one that is, and is returned with its bell.
    TooEarly(Call, OneShotBell),
}

/// What a call is for the connection that submits it.
#[derive(Clone, Copy)]
enum Sort {
    /// A Next (Runtime API, Next invocation; Extensions API, Next), whose answer may come late.
    Next,
    /// The stop of the service.
    Stop,
    /// Another call.
    Other,
}

impl Sort {
    /// Returns what a call is.
    fn of(call: &Call) -> Sort {
        match call {
            Call::RuntimeNext { .. } | Call::ExtNext { .. } => Sort::Next,
            Call::Stop => Sort::Stop,
            _ => Sort::Other,
        }
    }
}

/// Returns the function that a call invokes, `None` if it is no Invoke.
fn invoked(call: &Call) -> Option<FnNo> {
    match call {
        Call::Invoke { function, .. } => Some(*function),
        _ => None,
    }
}

impl<
    R: Wait + time::Clock + Copy + Drop,
    S: Service<K>,
    D: Decide + Drop,
    N: Clock + Drop,
    K: Keep,
> Connection<R, S, D, N, K> {
    ghost use Rattle.long_poll.specs.Attempts.{IsAttempt, IsPatient, IsNearer};
    ghost use Rattle.long_poll.specs.Exchanges.{service_of, IsSubmission, IsBegun};

    /// Submits a call with its bell at the clock's reading.
    fn submit_at_reading(&self, call: Call, bell: OneShotBell) -> Attempt<S::Ledgers>
        requires { IsWithin (S.serves (service_of self.now)) call }
        ensures attempt { IsAttempt self.now N.Clock bell call result }
        ensures patience { IsPatient 0 result }
    {
        let mut token = self.token();
        let mut tally = self.tally.lock(&self.rt);
        let now = moment(self.clock());
        let came = self.service().submit(
            &self.rt,
            &mut tally,
            &mut token,
            now,
            call,
            Some(bell),
            self,
        );
        match came {
            Ok((ticket, taken)) => Attempt::Taken(ticket, taken),
            Err(refused) => Attempt::Refused(refused, token),
        }
    }

    /// Submits a call with its bell at the clock's reading, unless it is premature.
    fn attempt(&self, call: Call, bell: OneShotBell) -> Attempt<S::Ledgers>
        requires { IsWithin (S.serves (service_of self.now)) call }
        ensures { IsAttempt self.now N.Clock bell call result }
    {
        let mut token = self.token();
        let mut tally = self.tally.lock(&self.rt);
        let now = moment(self.clock());
        let came = self.service().submit_unless_premature(
            &self.rt,
            &mut tally,
            &mut token,
            now,
            call,
            Some(bell),
            self,
        );
        match came {
            Ok((ticket, taken)) => Attempt::Taken(ticket, taken),
            Err(NotTaken::Refused(refused)) => Attempt::Refused(refused, token),
            Err(NotTaken::Premature { call, bell }) => match bell {
                Some(bell) => Attempt::TooEarly(call, bell),
                None => unreachable!(),
            },
        }
    }

    /// Submits a call with its bell, unless it may be held back for `left_us` microseconds more and is premature, or
    /// another Invoke of its function that came earlier is held back.
    fn attempt_within(
        &self,
        left_us: u64,
        place: &Option<Place>,
        call: Call,
        bell: OneShotBell,
    ) -> Attempt<S::Ledgers>
        requires { IsWithin (S.serves (service_of self.now)) call }
        ensures attempt { IsAttempt self.now N.Clock bell call result }
        ensures patience { IsPatient left_us result }
    {
        if left_us == 0 {
            return self.submit_at_reading(call, bell);
        }
        if let Some(function) = invoked(&call)
            && !self.shared.line.is_turn(&self.rt, function, place)
        {
            return Attempt::TooEarly(call, bell);
        }
        self.attempt(call, bell)
    }

    /// Submits a call with a bell of its own, or holds it back, for as long as the service's patience. A call that comes
    /// too early is tried twice: before the second attempt its thread sleeps at its place in the line, with no turn of its
    /// connection in between.
    pub(crate) fn submit_call(&self, call: Call) -> Result<Begun<S::Ledgers>, ExchangeFault>
        requires { IsWithin (S.serves (service_of self.now)) call }
        ensures ok { IfOk result (IsBegun self.now N.Clock call) }
        ensures err { IfErr result (λ fault. fault ≡ ExchangeFault.OutOfMemory) }
    {
        let (bell, heard) = OneShotBell::pair(self.alloc())?;
        let submission = Submission {
            call,
            bell,
            heard,
            left_us: u64::from(self.shared.patience_ms) * 1_000,
            place: None,
        };
        match self.submit(submission)? {
            Begun::HeldBack(held) => self.submit(Box::into_inner(held)),
            begun => Ok(begun),
        }
    }

    /// Sleeps at a place in the line until it is called, for a pause at most. Returns how many microseconds of
    /// these are left. The bells of earlier steps of the connection ring before.
    fn pause(&self, left_us: u64, place: &Option<Place>) -> u64
        ensures { result ≤ left_us }
    {
        match place {
            None => left_us,
            Some(place) => {
                self.ring_bells();
                let slept_us = place.sleep(&self.rt, left_us.min(LONGEST_PAUSE_US));
                left_us.saturating_sub(slept_us)
            }
        }
    }

    /// Returns a place in the line for a call that was held back, if it has none yet.
    fn placed(&self, place: Option<Place>, call: &Call, readies: u64) -> Result<Place, AllocError> {
        match place {
            Some(place) => Ok(place),
            None => self
                .shared
                .line
                .join(&self.rt, invoked(call).unwrap_or(0), readies),
        }
    }

    /// Does what follows from a call that was taken, which is a step: the ticker is woken if it rests; from a Stop
    /// on, each step wakes it, and the clock goes on if it was paused, since the deadlines by which the environments
    /// end come by it; a Next is noted as open, and may make an environment ready; a call that was held back
    /// leaves the line.
    fn taken(&self, sort: Sort, ticket: Ticket, place: Option<Place>) {
        let shared = &*self.shared;
        if let Sort::Stop = sort {
            shared.beat.note_stop();
            let _ = self.resume_clock();
            shared.beat.note_clock();
        }
        shared.beat.note_step(&self.rt);
        if let Sort::Next = sort {
            self.open.note(ticket);
            if let Some(function) = self.function {
                shared.line.call(&self.rt, function);
            }
        }
        if let Some(place) = place {
            shared.line.leave(&self.rt, place);
        }
    }

    /// Tries a submission once. If it was held back, its thread first sleeps at its place in the line, during which
    /// no lock is held. If it comes too early while some of its time is left, it is held back, with less time left: at
    /// least a microsecond less, so that a call is tried finitely often whatever its sleeps take.
    pub(crate) fn submit(&self, submission: Submission) -> Result<Begun<S::Ledgers>, ExchangeFault>
        requires { IsSubmission self.now submission }
        ensures ok { IfOk result (IsBegun self.now N.Clock submission.call) }
        ensures nearer { IfOk result (IsNearer submission.left_us) }
        ensures err { IfErr result (λ fault. fault ≡ ExchangeFault.OutOfMemory) }
    {
        let Submission {
            call,
            bell,
            heard,
            left_us,
            place,
        } = submission;
        let sort = Sort::of(&call);
        let is_invoke = call.is_invoke();
        let left_us = self.pause(left_us, &place);
        let readies = self.shared.line.readies();
        match self.attempt_within(left_us, &place, call, bell) {
            Attempt::TooEarly(call, bell) => {
                let place = Some(self.placed(place, &call, readies)?);
                let held = Submission {
                    call,
                    bell,
                    heard,
                    // The measure by which its attempts end: a sleep may take less than a microsecond.
                    left_us: left_us - 1,
                    place,
                };
                Ok(Begun::HeldBack(Box::new(self.alloc(), held).map_err(AllocError::from)?))
            }
            Attempt::Refused(refused, seen) => {
                let reply = refusal_reply(self.alloc(), is_invoke, refused.refusal)?;
                Ok(Begun::Replied(reply, seen))
            }
            Attempt::Taken(ticket, token) => {
                self.taken(sort, ticket, place);
                Ok(Begun::Parked {
                    ticket,
                    heard,
                    token,
                })
            }
        }
    }
}
