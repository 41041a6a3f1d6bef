//! The requests that wait for a handler, those that handlers have taken, and whether a handler is here.

ghost use Rattle.std.specs.Prelude.{◌≡◌, ◌&&◌, not, true, false, IfOk, OnOk, IfErr, OnErr, MatchResult, None, Some};
ghost use Rattle.std.specs.Prelude.{ℕ, [], is_some};
ghost use Rattle.handover.specs.Counters.{bytes_of, opened, refusal, first_of, with_request, taken_by, given_up, answered};
ghost use Rattle.handover.specs.Counters.{withdrawn, without_handler};
ghost use Rattle.handover.specs.Stages.{stage, denial};
ghost use Rattle.handover.specs.Presence.{with_handler, ended_at, is_attended};
ghost use Rattle.handler_desk.specs.Seats.{seat_of, sender_of, is_at_handler, without_seats_of};
ghost use Rattle.handler_desk.specs.Seats.{LeadsTo, KeepsOthers, Vacates, OnlyLoses};
ghost use Rattle.handler_desk.specs.States.{limits, grace, IsRefused};
ghost use Rattle.handler_desk.specs.declared.state.NotPut.TheVariants.{OutOfMemory};

use crate::posted::Given;
use futures::channel::oneshot::{Receiver, Sender, channel};
use handover::{Attendance, Limits, NotTaken, Request, Requests};
use std::alloc::{AllocError, Global};
use std::collections::BTreeMap;
use std::mem;

/// How many requests may wait for a handler or be at one, and how many bytes those that wait may have together.
const LIMITS: Limits = Limits {
    most: 1_024,
    most_bytes: 67_108_864,
};

/// How many milliseconds another handler is waited for after the last one has ended.
const GRACE_MS: u64 = 5_000;

/// Where what is given for a request is sent, and the handler that has taken it, if one has.
#[derive(Drop)]
pub(crate) struct Seat {
    sender: Sender<Given>,
    handler: Option<u64>,
}

impl Seat {
    /// Returns whether this handler has taken the request.
    fn is_at(&self, handler: u64) -> bool
        ensures { result ≡ is_at_handler handler self.now.handler }
    {
        match self.handler {
            Some(other) => other == handler,
            None => false,
        }
    }
}

/// Why a request does not wait for a handler.
#[derive(Clone, Copy, Debug, PartialEq, Eq)]
pub enum NotPut {
    /// No handler is here, nor was one a moment ago; or the service is over.
    NoHandler,
    /// As many requests wait or are at handlers as may, or the bytes of those that wait and its own are more than may.
    TooMany,
    /// An allocation failed.
    OutOfMemory,
}

impl From<AllocError> for NotPut {
    ghost from_gives = { λ _ e. e ≡ OutOfMemory };

    fn from(_e: AllocError) -> NotPut {
        NotPut::OutOfMemory
    }
}

/// The identifier of a request that waits for a handler, and what will be given for it.
#[derive(Drop)]
pub(crate) struct Waits {
    pub(crate) id: u64,
    pub(crate) given: Receiver<Given>,
}

/// What is kept behind the lock.
#[derive(Drop)]
pub(crate) struct State {
    alloc: Global,
    requests: Requests,
    attendance: Attendance,
    // Of each request that waits or is at a handler.
    seats: BTreeMap<u64, Seat>,
    // Of the handlers that wait for a request.
    bells: Vec<Sender<()>>,
    is_over: bool,
}

impl State {
    /// Returns the state in which no request has come, and no handler has asked. It allocates nothing.
    pub(crate) fn new(alloc: Global) -> State
        ensures requests { result.requests ≡ opened limits }
        ensures attendance { result.attendance ≡ record { handlers = []; left_at = None; grace = grace } }
        ensures is_over { result.is_over ≡ false }
    {
        State {
            alloc,
            requests: Requests::new(alloc, LIMITS),
            attendance: Attendance::new(alloc, GRACE_MS),
            seats: BTreeMap::new(alloc),
            bells: Vec::new(alloc),
            is_over: false,
        }
    }

    /// Returns whether requests are handed over at this moment.
    pub(crate) fn is_attended(&self, now: u64) -> bool
        ensures { result ≡ (not self.now.is_over && is_attended now self.now.attendance) }
    {
        !self.is_over && self.attendance.is_attended(now)
    }

    /// Returns whether the service is over.
    pub(crate) fn is_over(&self) -> bool
        ensures { result ≡ self.now.is_over }
    {
        self.is_over
    }

    /// Returns whether there is no room for a request of so many bytes.
    pub(crate) fn is_full(&self, bytes: u64) -> bool
        ensures { result ≡ is_some (refusal bytes self.now.requests) }
    {
        self.requests.refusal(bytes).is_some()
    }

    /// Lets a request wait at this moment, if a handler is here.
    ///
    /// # Errors
    /// If none is, if there is no room, or if memory is refused, in this order. What waits, and what handlers have taken, is
    /// then as it was.
    pub(crate) fn put(&mut self, now: u64, request: Request) -> Result<Waits, NotPut>
        ensures attended { OnOk result ((not self.old.is_over && is_attended now self.old.attendance) ≡ true) }
        ensures id { IfOk result (λ waits. waits.id ≡ self.old.requests.next_id) }
        ensures waits { OnOk result (self.new.requests ≡ with_request request self.old.requests) }
        ensures seat { IfOk result (λ waits. LeadsTo waits.given (seat_of waits.id self.new.seats.entries)) }
        ensures others { IfOk result (λ waits. KeepsOthers waits.id self.old.seats.entries self.new.seats.entries) }
        ensures refused { IfErr result (IsRefused (not self.old.is_over && is_attended now self.old.attendance)
            (refusal (bytes_of request) self.old.requests)) }
        ensures same { OnErr result (self.new.requests ≡ self.old.requests) }
        ensures presence { (self.new.attendance ≡ self.old.attendance) × (self.new.is_over ≡ self.old.is_over) }
    {
        if !self.is_attended(now) {
            return Err(NotPut::NoHandler);
        }
        if self.is_full(request.bytes()) {
            return Err(NotPut::TooMany);
        }
        let (sender, given) = channel(self.alloc)?;
        let id = self.requests.next_id();
        let seat = Seat {
            sender,
            handler: None,
        };
        if let Err(_refused) = self.seats.insert(id, seat) {
            return Err(NotPut::OutOfMemory);
        }
        match self.requests.put(request) {
            Ok(id) => Ok(Waits { id, given }),
            Err(_refused) => {
                let _ = self.seats.remove(&id);
                Err(NotPut::OutOfMemory)
            }
        }
    }

    /// Notes that a handler asks for a request.
    ///
    /// # Errors
    /// If memory is refused. It is then as if it had not asked.
    pub(crate) fn asks(&mut self, handler: u64) -> Result<(), AllocError>
        ensures here { OnOk result (self.new.attendance ≡ with_handler handler self.old.attendance) }
        ensures same { OnErr result (self.new.attendance ≡ self.old.attendance) }
        ensures requests { self.new.requests ≡ self.old.requests }
        ensures seats { self.new.seats.entries ≡ self.old.seats.entries }
    {
        self.attendance.asked(handler)
    }

    /// Hands the first request that waits to a handler, with its identifier. Returns `None` if none waits.
    ///
    /// # Errors
    /// If memory is refused. The request then still waits.
    pub(crate) fn take(&mut self, handler: u64) -> Result<Option<(u64, Request)>, AllocError>
        ensures first { IfOk result (λ taken. taken ≡ first_of self.old.requests.waiting) }
        ensures state { OnOk result (self.new.requests ≡ taken_by handler self.old.requests) }
        ensures same { OnErr result (self.new.requests ≡ self.old.requests) }
        ensures senders { (id : ℕ) → sender_of id self.new.seats.entries ≡ sender_of id self.old.seats.entries }
    {
        let taken = self.requests.take(handler)?;
        if let Some((id, _)) = &taken
            && let Some(seat) = self.seats.get_mut(id)
        {
            seat.handler = Some(handler);
        }
        Ok(taken)
    }

    /// Returns whether no one waits for what is given for a request.
    pub(crate) fn is_forsaken(&self, id: u64) -> bool {
        match self.seats.get(&id) {
            Some(seat) => seat.sender.is_canceled(),
            None => true,
        }
    }

    /// Removes a request for whose answer no one waits.
    pub(crate) fn withdraw(&mut self, id: u64)
        ensures requests { self.new.requests ≡ withdrawn id self.old.requests }
        ensures seats { Vacates id self.old.seats.entries self.new.seats.entries }
    {
        let _ = self.requests.requester_ended(id);
        let _ = self.seats.remove(&id);
    }

    /// Returns the first request for whose answer no one waits.
    fn forsaken(&self) -> Option<u64> {
        for (id, seat) in self.seats.iter() {
            if seat.sender.is_canceled() {
                return Some(*id);
            }
        }
        None
    }

    /// Removes the requests for whose answers no one waits, so that they take no one's room: those that wait, and those
    /// at handlers that do not answer. It visits all, so it is for when there is no room.
    pub(crate) fn make_room(&mut self)
        ensures { OnlyLoses self.old.seats.entries self.new.seats.entries }
    {
        for _ in 0..LIMITS.most {
            match self.forsaken() {
                Some(id) => self.withdraw(id),
                None => return,
            }
        }
    }

    /// Returns why a handler may not answer a request, if it may not.
    pub(crate) fn denial(&self, id: u64, handler: u64) -> Option<NotTaken>
        ensures { result ≡ denial handler (stage id self.now.requests) }
    {
        self.requests.denial(id, handler)
    }

    /// Lets a handler give something for a request, which is over then. Returns where it is sent.
    ///
    /// # Errors
    /// If the handler has not taken it, or it is over. All is then as it was.
    pub(crate) fn answer(
        &mut self,
        id: u64,
        handler: u64,
    ) -> Result<Option<Sender<Given>>, NotTaken>
        ensures fault { MatchResult result (λ _. denial handler (stage id self.old.requests) ≡ None)
            (λ e. denial handler (stage id self.old.requests) ≡ Some e) }
        ensures state { OnOk result (self.new.requests ≡ answered id self.old.requests) }
        ensures same { OnErr result (self.new.requests ≡ self.old.requests) }
        ensures sender { IfOk result (λ sender. sender ≡ sender_of id self.old.seats.entries) }
        ensures over { OnOk result (Vacates id self.old.seats.entries self.new.seats.entries) }
        ensures unanswered { OnErr result (self.new.seats.entries ≡ self.old.seats.entries) }
    {
        if let Err(fault) = self.requests.answer(id, handler) {
            return Err(fault);
        }
        match self.seats.remove(&id) {
            Some(seat) => Ok(Some(seat.sender)),
            None => Ok(None),
        }
    }

    /// Notes that a handler has ended at this moment: the requests that it had taken have failed.
    pub(crate) fn ended(&mut self, handler: u64, now: u64)
        ensures attendance { self.new.attendance ≡ ended_at handler now self.old.attendance }
        ensures failed { self.new.requests ≡ without_handler handler self.old.requests }
        ensures seats { self.new.seats.entries ≡ without_seats_of handler self.old.seats.entries }
    {
        self.attendance.ended(handler, now);
        self.seats.retain(|_, seat| !seat.is_at(handler));
        self.requests.end_handler(handler);
    }

    /// Gives up all requests that wait.
    pub(crate) fn give_up(&mut self)
        ensures { OnlyLoses self.old.seats.entries self.new.seats.entries }
    {
        for _ in 0..LIMITS.most {
            match self.requests.give_up() {
                Some((id, _)) => {
                    let _ = self.seats.remove(&id);
                }
                None => return,
            }
        }
    }

    /// Notes that the service is over: no request waits, and what handlers have taken has failed.
    pub(crate) fn end(&mut self)
        ensures { self.new.seats.entries ≡ [] }
    {
        self.is_over = true;
        self.give_up();
        self.seats.clear();
    }

    /// Returns a future that is ready after the next request has come. The bells of handlers that are gone are dropped.
    ///
    /// # Errors
    /// If an allocation fails.
    pub(crate) fn listen(&mut self) -> Result<Receiver<()>, AllocError>
        ensures { self.new.seats.entries ≡ self.old.seats.entries }
    {
        let (bell, heard) = channel(self.alloc)?;
        self.bells.retain(|bell| !bell.is_canceled());
        self.bells.push(bell).map_err(AllocError::from)?;
        Ok(heard)
    }

    /// Takes out the bells of all handlers that wait.
    pub(crate) fn take_bells(&mut self) -> Vec<Sender<()>>
        ensures { self.new.seats.entries ≡ self.old.seats.entries }
    {
        mem::replace(&mut self.bells, Vec::new(self.alloc))
    }
}
